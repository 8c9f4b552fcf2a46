//! The words after a signature or a request: the colon and the values.

use crate::remark::Remark;
use crate::site::{Due, Site, last_signed};
use crate::words::shown;
use coll_kinds::{Datatype, read_element, read_number};
use coll_parser::History;
use std::alloc::{AllocError, Global};

/// Where the values of a line begin, and what is due there.
#[derive(Clone, Copy)]
struct ValuesDue<'h> {
    /// The index of the colon.
    colon: usize,
    due: Due<'h>,
}

/// Where the values of a `post` begin, whose signature ends before word `end`, and what is due there.
fn of_post<'h>(site: &Site<'_>, end: usize, history: &'h History) -> Option<ValuesDue<'h>> {
    let (comm, sig) = last_signed(history)?;
    Some(ValuesDue {
        colon: end,
        due: site.due(comm, sig),
    })
}

/// The remark on the values of a `post` or a `start`.
pub(crate) fn of_values(site: &Site<'_>, speak: ValueFault) -> Result<Option<Remark>, AllocError> {
    if site.begins("start") {
        let made = site.made()?;
        let request = site
            .number(1)
            .and_then(|number| usize::try_from(number).ok());
        let Some(request) = request.and_then(|request| made.get(request)) else {
            return Ok(None);
        };
        let values = ValuesDue {
            colon: 2,
            due: site.due(request.comm, &request.sig),
        };
        return Ok(Some(speak.remark(site, &values)?));
    }
    let Some((end, history)) = site.signed()? else {
        return Ok(None);
    };
    match of_post(site, end, &history) {
        Some(values) => Ok(Some(speak.remark(site, &values)?)),
        None => Ok(None),
    }
}

/// Which part of a line's values is wrong.
#[derive(Clone, Copy)]
pub(crate) enum ValueFault {
    /// The colon.
    Colon,
    /// The number of values.
    Count,
    /// One of the values.
    Value,
}

impl ValueFault {
    fn remark(self, site: &Site<'_>, values: &ValuesDue<'_>) -> Result<Remark, AllocError> {
        match self {
            ValueFault::Colon => colon_due(site, values),
            ValueFault::Count => wrong_count(site, values),
            ValueFault::Value => bad_value(site, values),
        }
    }
}

/// Values in words, as `2 values of i32`.
fn counted(alloc: Global, count: usize, ty: Datatype) -> Result<String, AllocError> {
    let s = if count == 1 { "" } else { "s" };
    format!(in alloc; "{count} value{s} of {ty}")
}

fn colon_due(site: &Site<'_>, values: &ValuesDue<'_>) -> Result<Remark, AllocError> {
    let alloc = site.alloc;
    let at = values.colon;
    if at >= site.words.len() {
        let due = counted(alloc, values.due.values, values.due.sig.ty)?;
        let verb = if values.due.values == 1 { "is" } else { "are" };
        let label = format!(in alloc; "`:` and {due} {verb} missing here")?;
        return Ok(Remark::new(alloc, at, label));
    }
    let further = further_numbers(site, at);
    if values.due.sig.kind.has_counts() && further > 0 {
        return too_many_counts(site, at, further);
    }
    let mut remark = Remark::of(alloc, at, "`:` is due here")?;
    if leave_comment(site, &mut remark, at)? {
        return Ok(remark);
    }
    space_colon(site, &mut remark, at)?;
    let help = String::from_str(alloc, "put `:` before the values")?;
    site.propose(&mut remark, help, at, 0, ":")?;
    Ok(remark)
}

/// How many numbers stand from that word on up to the colon; 0 if no colon follows them.
fn further_numbers(site: &Site<'_>, at: usize) -> usize {
    let words = site.words.iter().skip(at);
    let count = words
        .take_while(|word| read_number(word.bytes).is_some())
        .count();
    if site.word(at.saturating_add(count)) == b":".as_slice() {
        count
    } else {
        0
    }
}

/// The remark on counts after those of all members.
fn too_many_counts(site: &Site<'_>, at: usize, further: usize) -> Result<Remark, AllocError> {
    let alloc = site.alloc;
    let members = site.scene.group(site.number(1).unwrap_or(0)).len();
    let all = members.saturating_add(further);
    let label = format!(in alloc; "a count for each of {members} members, here are {all}")?;
    let mut remark = Remark::new(alloc, at, label);
    remark.count = further;
    let help = if further == 1 {
        "leave it out"
    } else {
        "leave them out"
    };
    let help = String::from_str(alloc, help)?;
    site.propose(&mut remark, help, at, further, "")?;
    Ok(remark)
}

/// Whether the word begins a comment. If so, proposes to put it on a line of its own.
pub(crate) fn leave_comment(
    site: &Site<'_>,
    remark: &mut Remark,
    at: usize,
) -> Result<bool, AllocError> {
    if site.word(at).first() != Some(&b'#') {
        return Ok(false);
    }
    let help = String::from_str(site.alloc, "a comment stands on a line of its own")?;
    let count = site.words.len().saturating_sub(at);
    site.propose(remark, help, at, count, "")?;
    Ok(true)
}

/// Proposes spaces around a colon that stands within a longer word.
pub(crate) fn space_colon(
    site: &Site<'_>,
    remark: &mut Remark,
    at: usize,
) -> Result<(), AllocError> {
    let word = site.word(at);
    if word.len() > 1 && word.contains(&b':') {
        let by = shown(site.alloc, word)?.replace(site.alloc, ":", " : ")?;
        let help = String::from_str(site.alloc, "`:` is a word of its own, with spaces round it")?;
        site.propose(remark, help, at, 1, by.as_str().trim())?;
    }
    Ok(())
}

fn wrong_count(site: &Site<'_>, values: &ValuesDue<'_>) -> Result<Remark, AllocError> {
    let alloc = site.alloc;
    let Due {
        sig,
        member,
        values: due,
    } = values.due;
    let first = values.colon.saturating_add(1);
    let got = site.words.len().saturating_sub(first);
    let wanted = counted(alloc, due, sig.ty)?;
    let verb = if due == 1 { "is" } else { "are" };
    let mut label = format!(in alloc; "{wanted} {verb} due, here are {got}")?;
    let is_idle = due == 0 && sig.kind.has_root() && sig.root != member;
    if is_idle {
        let kind = sig.kind;
        let root = sig.root;
        write!(
            label,
            ": in a {kind} only the root, member {root}, gives; this is member {member}"
        )?;
    }
    let mut remark = Remark::new(
        alloc,
        first.saturating_add(due).min(site.words.len()),
        label,
    );
    remark.count = got.saturating_sub(due).max(1);
    if is_idle {
        let help = String::from_str(alloc, "leave the values out")?;
        site.propose(&mut remark, help, values.colon, got.saturating_add(1), "")?;
    }
    part(site, &mut remark, values)?;
    leave_later_comment(site, &mut remark, first)?;
    Ok(remark)
}

/// Proposes to put the first comment after the values on a line of its own.
fn leave_later_comment(
    site: &Site<'_>,
    remark: &mut Remark,
    first: usize,
) -> Result<(), AllocError> {
    let mut at = first;
    for word in site.words.iter().skip(first) {
        if word.bytes.first() == Some(&b'#') {
            break;
        }
        at = at.saturating_add(1);
    }
    leave_comment(site, remark, at)?;
    Ok(())
}

/// If there are as many numbers as are due, proposes to separate them as the type requires: by spaces, and within a pair by a comma.
fn part(site: &Site<'_>, remark: &mut Remark, values: &ValuesDue<'_>) -> Result<(), AllocError> {
    let first = values.colon.saturating_add(1);
    let is_pair = values.due.sig.ty.is_pair();
    let parted = parted_from(site, first, is_pair)?;
    let each = if is_pair { 2 } else { 1 };
    if parted.numbers != values.due.values.saturating_mul(each) {
        return Ok(());
    }
    let by = parted.words.as_str();
    let help = if is_pair {
        format!(in site.alloc; "a comma stands between the two of a pair: `{by}`")?
    } else {
        format!(in site.alloc; "spaces stand between values: `{by}`")?
    };
    let count = site.words.len().saturating_sub(first);
    site.propose(remark, help, first, count, by)
}

/// Numbers, written as the words of values.
#[derive(Drop)]
struct Parted {
    words: String,
    numbers: usize,
}

/// The numbers between commas and spaces from a word on, written in pairs or one by one.
fn parted_from(site: &Site<'_>, first: usize, is_pair: bool) -> Result<Parted, AllocError> {
    let mut parted = Parted {
        words: String::new(site.alloc),
        numbers: 0,
    };
    for word in site.words.iter().skip(first) {
        push_numbers(site.alloc, &mut parted, word.bytes, is_pair)?;
    }
    Ok(parted)
}

fn push_numbers(
    alloc: Global,
    parted: &mut Parted,
    word: &[u8],
    is_pair: bool,
) -> Result<(), AllocError> {
    for number in word.split(|byte| *byte == b',') {
        if !number.is_empty() {
            if parted.numbers > 0 {
                let is_second = is_pair && parted.numbers % 2 == 1;
                parted.words.push(if is_second { ',' } else { ' ' })?;
            }
            parted.words.push_str(shown(alloc, number)?.as_str())?;
            parted.numbers = parted.numbers.saturating_add(1);
        }
    }
    Ok(())
}

fn bad_value(site: &Site<'_>, values: &ValuesDue<'_>) -> Result<Remark, AllocError> {
    let alloc = site.alloc;
    let ty = values.due.sig.ty;
    let mut at = values.colon.saturating_add(1);
    for word in site.words.iter().skip(at) {
        if read_element(word.bytes, ty).is_none() {
            break;
        }
        at = at.saturating_add(1);
    }
    let mut remark = Remark::new(alloc, at, range(alloc, ty)?);
    let word = site.word(at);
    if let Some(value) = hexadecimal(word) {
        let by = format!(in alloc; "{value}")?;
        let help = format!(in alloc; "values are decimal: {value}")?;
        site.propose(&mut remark, help, at, 1, by.as_str())?;
    }
    if let [b'+', digits @ ..] = word {
        let by = shown(alloc, digits)?;
        let help = format!(in alloc; "without a sign: {by}")?;
        site.propose(&mut remark, help, at, 1, by.as_str())?;
    }
    leave_comment(site, &mut remark, at)?;
    part(site, &mut remark, values)?;
    Ok(remark)
}

/// The values that a type has, in words.
fn range(alloc: Global, ty: Datatype) -> Result<String, AllocError> {
    if ty.is_pair() {
        return format!(in alloc;
            "a value of {ty} is two values of i32 with a comma between, as 7,2"
        );
    }
    let limit = ty.limit();
    let most = limit.saturating_sub(1);
    if ty.is_signed() {
        format!(in alloc; "a value of {ty} is a whole number from -{limit} to {most}")
    } else {
        format!(in alloc; "a value of {ty} is a whole number from 0 to {most}")
    }
}

/// The value of a word that is a hexadecimal number, as `0x1f`.
fn hexadecimal(word: &[u8]) -> Option<u64> {
    let [b'0', b'x' | b'X', digits @ ..] = word else {
        return None;
    };
    if digits.is_empty() {
        return None;
    }
    let mut value: u64 = 0;
    for digit in digits {
        let digit = char::from(*digit).to_digit(16)?;
        value = value.checked_mul(16)?.checked_add(u64::from(digit))?;
    }
    Some(value)
}
