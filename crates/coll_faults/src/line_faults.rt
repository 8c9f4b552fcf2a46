//! What is known of a line that breaks a rule.

use crate::patch::Patch;
use crate::remark::Remark;
use crate::request_faults::{named_twice, not_startable, too_many_requests, unknown_request};
use crate::signature_faults::{bad_signature, incomplete};
use crate::site::Site;
use crate::value_faults::{ValueFault, leave_comment, of_values};
use crate::vocabulary::{VERBS, kind_words, word_meant};
use crate::words::{first_word, shown, spliced};
use coll_kinds::{MAX_COMMUNICATORS, MAX_RANKS, read_number};
use coll_script::Cause;
use std::alloc::AllocError;

/// The remark on the line, which breaks that rule.
pub(crate) fn remark_of(site: &Site<'_>, cause: Cause) -> Result<Option<Remark>, AllocError> {
    let remark = match cause {
        Cause::MissingRanks => missing_ranks(site),
        Cause::UnknownCommand => unknown_command(site),
        Cause::OutOfPlace => out_of_place(site),
        Cause::BadWords => return bad_words(site),
        Cause::BadNumber => bad_number(site),
        Cause::BadRank => bad_rank(site),
        Cause::BadCommunicator => bad_communicator(site),
        Cause::BadSignature => bad_signature(site),
        Cause::WrongValueCount => return of_values(site, ValueFault::Count),
        Cause::BadValue => return of_values(site, ValueFault::Value),
        Cause::UnknownRequest => unknown_request(site),
        Cause::NamedTwice => named_twice(site),
        Cause::NotStartable => not_startable(site),
        Cause::TooManyRequests => too_many_requests(site),
        Cause::TooLong | Cause::PlaceMismatch | Cause::PlaceMissing | Cause::StartMissing => {
            return Ok(None);
        }
    };
    Ok(Some(remark?))
}

/// The least number of ranks, at least two, with which every `rank` line names a rank of the job.
pub(crate) fn guessed_ranks(site: &Site<'_>) -> u128 {
    let mut ranks: u128 = 2;
    for number in 1..=site.draft.last() {
        let line = site.draft.line(number).trim_ascii();
        if first_word(line) == b"rank".as_slice() {
            if let [b'r', b'a', b'n', b'k', number @ ..] = line {
                let rank = read_number(number.trim_ascii()).unwrap_or(0);
                ranks = ranks.max(rank.saturating_add(1));
            }
        }
    }
    ranks.min(MAX_RANKS as u128)
}

fn missing_ranks(site: &Site<'_>) -> Result<Remark, AllocError> {
    let alloc = site.alloc;
    if site.words.is_empty() {
        return Remark::of(alloc, 0, "no line says how many ranks there are");
    }
    if let [0xef, 0xbb, 0xbf, word @ ..] = site.word(0) {
        return byte_order_mark(site, word);
    }
    let mut remark = Remark::of(alloc, 0, RANKS_FIRST)?;
    if let Some(meant) = word_meant(alloc, site.word(0), &["ranks"])? {
        site.propose(&mut remark, meant.help, 0, 1, meant.word)?;
    }
    let ranks = guessed_ranks(site);
    let line = format!(in alloc; "ranks {ranks}")?;
    let help = format!(in alloc; "write the number of ranks first: `{line}`")?;
    remark.guess(help, site.behind(line.as_str())?)?;
    Ok(remark)
}

/// The label of a line that stands in place of `ranks`.
const RANKS_FIRST: &str = "the first line that says anything is `ranks N`";

/// The remark on a word after a byte order mark, with which the text begins.
fn byte_order_mark(site: &Site<'_>, word: &[u8]) -> Result<Remark, AllocError> {
    let alloc = site.alloc;
    let mut remark = Remark::of(alloc, 0, RANKS_FIRST)?;
    let text = "the text begins with a byte order mark (ef bb bf); save it as UTF-8 without one";
    let help = String::from_str(alloc, text)?;
    let by = shown(alloc, word)?;
    site.propose(&mut remark, help, 0, 1, by.as_str())?;
    Ok(remark)
}

fn unknown_command(site: &Site<'_>) -> Result<Remark, AllocError> {
    let alloc = site.alloc;
    let mut remark = Remark::of(alloc, 0, "no line begins so")?;
    let kinds = kind_words(alloc)?;
    if let Some(kind) = word_meant(alloc, site.word(0), &kinds)? {
        let word = kind.word;
        let by = format!(in alloc; "post 0 {word}")?;
        let help = format!(in alloc; "a collective is posted: `post 0 {word} ..`")?;
        remark.guess(help, site.spliced(0, 1, by.as_str())?)?;
    }
    if let Some(verb) = word_meant(alloc, site.word(0), &VERBS)? {
        site.propose(&mut remark, verb.help, 0, 1, verb.word)?;
    }
    if !site.word(0).is_ascii() {
        let bytes = site.word(0).iter().filter(|b| !b.is_ascii()).count();
        remark.note(format!(in alloc; "{bytes} bytes of the word aren't ASCII")?)?;
    }
    Ok(remark)
}

fn out_of_place(site: &Site<'_>) -> Result<Remark, AllocError> {
    let alloc = site.alloc;
    if site.begins("ranks") {
        let text = "the number of ranks is said once, in the first line";
        return Remark::of(alloc, 0, text);
    }
    if site.begins("comm") {
        return late_communicator(site);
    }
    let mut remark = Remark::of(alloc, 0, "a command belongs to a rank")?;
    let help = String::from_str(alloc, "write `rank 0` before it")?;
    remark.guess(help, site.behind("rank 0")?)?;
    Ok(remark)
}

/// The remark on a communicator after the first `rank` line, which can be moved up.
fn late_communicator(site: &Site<'_>) -> Result<Remark, AllocError> {
    let alloc = site.alloc;
    let text = "communicators stand before the first `rank` line";
    let mut remark = Remark::of(alloc, 0, text)?;
    for number in 1..=site.draft.last() {
        let line = site.draft.line(number);
        if first_word(line) == b"rank".as_slice() && number < site.line {
            let mut block = spliced(alloc, &site.words, 0, 0, b"")?;
            block.push(b'\n')?;
            block.extend_from_slice(line)?;
            let mut patches = site.dropped()?;
            patches.push(Patch {
                line: number,
                block,
            })?;
            let help = format!(in alloc; "move this line up, before line {number}")?;
            remark.propose(help, patches)?;
            return Ok(remark);
        }
    }
    Ok(remark)
}

/// What a line lacks that has no word after its first one.
fn missing(site: &Site<'_>) -> &'static str {
    if site.begins("ranks") {
        "the number of ranks is missing here"
    } else if site.begins("rank") {
        "a rank is missing here"
    } else if site.begins("comm") {
        "a member is missing here"
    } else if site.begins("post") || site.begins("init") {
        "a communicator is missing here"
    } else {
        "a request is missing here"
    }
}

fn bad_words(site: &Site<'_>) -> Result<Option<Remark>, AllocError> {
    let alloc = site.alloc;
    if site.words.len() < 2 {
        return Ok(Some(Remark::of(alloc, 1, missing(site))?));
    }
    if site.begins("start") {
        return of_values(site, ValueFault::Colon);
    }
    if !site.begins("post") && !site.begins("init") {
        return Ok(Some(too_many(site, 2)?));
    }
    match site.signed()? {
        None => Ok(Some(incomplete(site)?)),
        Some((end, _)) if site.begins("init") => Ok(Some(too_many(site, end)?)),
        Some(_) => of_values(site, ValueFault::Colon),
    }
}

/// The remark on words after the end of a line's command.
fn too_many(site: &Site<'_>, at: usize) -> Result<Remark, AllocError> {
    let alloc = site.alloc;
    let count = site.words.len().saturating_sub(at);
    let label = if count == 1 {
        "a word too many"
    } else {
        "words too many"
    };
    let mut remark = Remark::of(alloc, at, label)?;
    remark.count = count.max(1);
    if !leave_comment(site, &mut remark, at)? {
        let help = if count == 1 {
            "leave it out"
        } else {
            "leave them out"
        };
        let help = String::from_str(alloc, help)?;
        site.propose(&mut remark, help, at, count, "")?;
    }
    Ok(remark)
}

fn bad_number(site: &Site<'_>) -> Result<Remark, AllocError> {
    let alloc = site.alloc;
    if site.begins("ranks") {
        let label = format!(in alloc; "a job has 1 to {MAX_RANKS} ranks")?;
        return Ok(Remark::new(alloc, 1, label));
    }
    if site.begins("post") || site.begins("init") {
        let text = "communicators are numbers; 0 has all ranks";
        let mut remark = Remark::of(alloc, 1, text)?;
        let word = site.shown(1)?;
        if word.as_str().contains("WORLD") || word.as_str().contains("world") {
            let help = String::from_str(alloc, "`MPI_COMM_WORLD` is 0")?;
            site.propose(&mut remark, help, 1, 1, "0")?;
        }
        return Ok(remark);
    }
    let mut at: usize = 1;
    for word in site.words.iter().skip(1) {
        if read_number(word.bytes).is_none() {
            break;
        }
        at = at.saturating_add(1);
    }
    let mut remark = Remark::of(alloc, at, "requests are numbers")?;
    leave_comment(site, &mut remark, at)?;
    Ok(remark)
}

fn bad_rank(site: &Site<'_>) -> Result<Remark, AllocError> {
    let alloc = site.alloc;
    if site.begins("post") || site.begins("init") {
        return stranger(site);
    }
    let ranks = u128::from(site.scene.ranks());
    let mut at: usize = 1;
    for word in site.words.iter().skip(1) {
        let number = read_number(word.bytes);
        let is_known = number.is_some_and(|rank| rank < ranks);
        if !is_known {
            break;
        }
        let before = site.words.iter().take(at).skip(1);
        if before
            .map(|word| read_number(word.bytes))
            .any(|other| other == number)
        {
            let rank = number.unwrap_or(0);
            let label = format!(in alloc; "rank {rank} stands twice")?;
            return Ok(Remark::new(alloc, at, label));
        }
        at = at.saturating_add(1);
    }
    let last = ranks.saturating_sub(1);
    let mut remark = Remark::new(alloc, at, format!(in alloc; "ranks are 0 to {last}")?);
    leave_comment(site, &mut remark, at)?;
    Ok(remark)
}

/// The remark on a rank that isn't a member of its communicator.
fn stranger(site: &Site<'_>) -> Result<Remark, AllocError> {
    let alloc = site.alloc;
    let comm = site.number(1).unwrap_or(0);
    let rank = site.scene.rank().unwrap_or(0);
    let mut label = format!(in alloc;
        "rank {rank} is no member of communicator {comm}, which has"
    )?;
    let mut is_first = true;
    for member in site.scene.group(comm) {
        if !is_first {
            label.push(',')?;
        }
        is_first = false;
        write!(label, " {member}")?;
    }
    Ok(Remark::new(alloc, 1, label))
}

fn bad_communicator(site: &Site<'_>) -> Result<Remark, AllocError> {
    let alloc = site.alloc;
    let known = site.scene.groups().len();
    if site.begins("comm") {
        let most = MAX_COMMUNICATORS.saturating_sub(1);
        let label = format!(in alloc;
            "a job has at most {most} communicators beside that of all ranks"
        )?;
        return Ok(Remark::new(alloc, 0, label));
    }
    let label = match known.checked_sub(1) {
        None | Some(0) => String::from_str(alloc, "there is communicator 0 alone")?,
        Some(last) => format!(in alloc; "there are communicators 0 to {last}")?,
    };
    Ok(Remark::new(alloc, 1, label))
}
