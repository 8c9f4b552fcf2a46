//! Signatures that can't be used.

use crate::remark::Remark;
use crate::site::Site;
use crate::value_faults::space_colon;
use crate::vocabulary::{
    allowed_words, is_fraction, kind_words, listed, operation_words, type_words, word_meant,
};
use coll_kinds::{Datatype, Kind, MAX_COUNT, MAX_LEN, Op};
use std::alloc::AllocError;

/// The index of the word that names the collective.
const KIND: usize = 2;

/// The fields of a signature, word by word.
#[derive(Clone, Copy)]
struct Fields {
    kind: Kind,
    root: Option<(usize, u128)>,
    op: Option<(usize, Op)>,
    ty: Option<(usize, Datatype)>,
    /// The index of the word at which the counts begin.
    count: usize,
}

/// The remark on the first word of a signature that breaks a rule.
pub(crate) fn bad_signature(site: &Site<'_>) -> Result<Remark, AllocError> {
    let Some(kind) = Kind::from_word(site.word(KIND)) else {
        return unknown_kind(site);
    };
    let mut fields = Fields {
        kind,
        root: None,
        op: None,
        ty: None,
        count: KIND.saturating_add(1),
    };
    if kind.has_root() {
        match site.number(fields.count) {
            Some(root) if root < 256 => fields.root = Some((fields.count, root)),
            _ => return root_due(site, kind, fields.count),
        }
        fields.count = fields.count.saturating_add(1);
    }
    if kind.has_operation() {
        match Op::from_word(site.word(fields.count)) {
            Some(op) => fields.op = Some((fields.count, op)),
            None => return unknown_operation(site, fields.count),
        }
        fields.count = fields.count.saturating_add(1);
    }
    match Datatype::from_word(site.word(fields.count)) {
        Some(ty) => fields.ty = Some((fields.count, ty)),
        None => return unknown_type(site, fields.count),
    }
    fields.count = fields.count.saturating_add(1);
    checked(site, &fields)
}

fn unknown_kind(site: &Site<'_>) -> Result<Remark, AllocError> {
    let remark = Remark::of(site.alloc, KIND, "no collective has this name")?;
    meant(site, remark, "collectives", &kind_words(site.alloc)?)
}

/// The remark on a word that is none of these `words`, which are the names of those `things`: with the one that may be meant, else with
/// all of them.
fn meant(
    site: &Site<'_>,
    remark: Remark,
    things: &str,
    words: &[&'static str],
) -> Result<Remark, AllocError> {
    let mut remark = remark;
    let at = remark.word;
    match word_meant(site.alloc, site.word(at), words)? {
        Some(meant) => site.propose(&mut remark, meant.help, at, 1, meant.word)?,
        None => {
            let list = listed(site.alloc, words)?;
            remark.note(format!(in site.alloc; "{things} are {list}")?)?;
        }
    }
    Ok(remark)
}

fn root_due(site: &Site<'_>, kind: Kind, at: usize) -> Result<Remark, AllocError> {
    let alloc = site.alloc;
    let mut remark = Remark::of(alloc, at, "the root stands here, a member number")?;
    let word = site.word(at);
    if Op::from_word(word).is_some() || Datatype::from_word(word).is_some() {
        let next = site.shown(at)?;
        let help = format!(in alloc; "the root is missing, as in `{kind} 0 {next} ..`")?;
        remark.guess(help, site.spliced(at, 0, "0")?)?;
    }
    Ok(remark)
}

fn unknown_operation(site: &Site<'_>, at: usize) -> Result<Remark, AllocError> {
    let remark = Remark::of(site.alloc, at, "no operation has this name")?;
    match Datatype::from_word(site.word(at)) {
        Some(ty) => operation_due(site, remark, ty),
        None => meant(site, remark, "operations", &operation_words(site.alloc)?),
    }
}

/// The remark on a type in the place of the operation.
fn operation_due(site: &Site<'_>, remark: Remark, ty: Datatype) -> Result<Remark, AllocError> {
    let alloc = site.alloc;
    let mut remark = remark;
    let at = remark.word;
    if let Some(op) = Op::from_word(site.word(at.saturating_add(1))) {
        let by = format!(in alloc; "{op} {ty}")?;
        let help = format!(in alloc; "the operation stands before the type: `{by} ..`")?;
        site.propose(&mut remark, help, at, 2, by.as_str())?;
    } else {
        let help = format!(in alloc; "the operation is missing, as in `sum {ty} ..`")?;
        remark.guess(help, site.spliced(at, 0, "sum")?)?;
    }
    Ok(remark)
}

fn unknown_type(site: &Site<'_>, at: usize) -> Result<Remark, AllocError> {
    let alloc = site.alloc;
    let words = type_words(alloc)?;
    let mut remark = Remark::of(alloc, at, "no type has this name")?;
    if is_fraction(alloc, site.word(at))? {
        let list = listed(alloc, &words)?;
        remark.note(format!(in alloc; "values are whole numbers alone: {list}")?)?;
        return Ok(remark);
    }
    meant(site, remark, "types", &words)
}

/// The remark on a signature whose words can be read.
fn checked(site: &Site<'_>, fields: &Fields) -> Result<Remark, AllocError> {
    let alloc = site.alloc;
    if fields.kind.has_counts() {
        return bad_counts(site, fields.count);
    }
    if site.number(fields.count).is_none() {
        return count_due(site, fields.count);
    }
    let members = site.scene.group(site.number(1).unwrap_or(0)).len();
    if let Some((at, root)) = fields.root {
        if root >= members as u128 {
            let comm = site.shown(1)?;
            let last = members.saturating_sub(1);
            let label = format!(in alloc;
                "communicator {comm} has {members} members, 0 to {last}"
            )?;
            return Ok(Remark::new(alloc, at, label));
        }
    }
    if let (Some((at, op)), Some((_, ty))) = (fields.op, fields.ty) {
        if !op.is_allowed_on(ty) {
            return undefined(site, at, op, ty);
        }
    }
    Ok(Remark::new(alloc, fields.count, size(site, fields)?))
}

/// The remark on an operation that isn't defined on the type.
fn undefined(site: &Site<'_>, at: usize, op: Op, ty: Datatype) -> Result<Remark, AllocError> {
    let alloc = site.alloc;
    let label = format!(in alloc; "`{op}` isn't defined on `{ty}`")?;
    let mut remark = Remark::new(alloc, at, label);
    let list = listed(alloc, &allowed_words(alloc, ty)?)?;
    remark.note(format!(in alloc; "on `{ty}` there are {list}")?)?;
    Ok(remark)
}

/// The remark on a signature that isn't complete.
pub(crate) fn incomplete(site: &Site<'_>) -> Result<Remark, AllocError> {
    let ty = KIND.saturating_add(1);
    let has_counts = Kind::from_word(site.word(KIND)).is_some_and(|kind| kind.has_counts());
    if has_counts && Datatype::from_word(site.word(ty)).is_some() {
        return bad_counts(site, ty.saturating_add(1));
    }
    Remark::of(site.alloc, site.words.len(), "the signature goes on here")
}

/// The remark on the first of the members' counts that breaks a rule.
fn bad_counts(site: &Site<'_>, first: usize) -> Result<Remark, AllocError> {
    let alloc = site.alloc;
    let members = site.scene.group(site.number(1).unwrap_or(0)).len();
    for member in 0..members {
        let at = first.saturating_add(member);
        match site.number(at) {
            None => return member_count_due(site, at, member, members),
            Some(count) if count > u128::from(MAX_COUNT) => {
                let label = format!(in alloc; "a count is at most {MAX_COUNT}")?;
                return Ok(Remark::new(alloc, at, label));
            }
            Some(_) => {}
        }
    }
    let label = format!(in alloc; "all members together would give more than {MAX_LEN} bytes")?;
    let mut remark = Remark::new(alloc, first, label);
    remark.count = members.max(1);
    Ok(remark)
}

/// The remark on the word in the place of a member's count.
fn member_count_due(
    site: &Site<'_>,
    at: usize,
    member: usize,
    members: usize,
) -> Result<Remark, AllocError> {
    let alloc = site.alloc;
    let word = site.word(at);
    if word.is_empty() || word == b":".as_slice() {
        let verb = if member == 1 { "is" } else { "are" };
        let label = format!(in alloc;
            "a count for each of {members} members, here {verb} {member}"
        )?;
        return Ok(Remark::new(alloc, at, label));
    }
    let label = format!(in alloc;
        "a count for each of {members} members: that of member {member} stands here"
    )?;
    let mut remark = Remark::new(alloc, at, label);
    space_colon(site, &mut remark, at)?;
    Ok(remark)
}

/// What is wrong with a count that is a number.
fn size(site: &Site<'_>, fields: &Fields) -> Result<String, AllocError> {
    let alloc = site.alloc;
    if site.number(fields.count).unwrap_or(0) > u128::from(MAX_COUNT) {
        return format!(in alloc; "a count is at most {MAX_COUNT}");
    }
    format!(in alloc; "some member would give or get more than {MAX_LEN} bytes")
}

fn count_due(site: &Site<'_>, at: usize) -> Result<Remark, AllocError> {
    let alloc = site.alloc;
    let mut remark = Remark::of(alloc, at, "the number of elements of a block stands here")?;
    if site.word(at) == b":".as_slice() {
        let values = site.words.len().saturating_sub(at).saturating_sub(1);
        let by = format!(in alloc; "{values}")?;
        let help = format!(in alloc; "the count is missing, as `{values}`")?;
        remark.guess(help, site.spliced(at, 0, by.as_str())?)?;
    }
    space_colon(site, &mut remark, at)?;
    Ok(remark)
}
