//! Words that name requests.

use crate::remark::Remark;
use crate::site::Site;
use coll_kinds::{MAX_REQUESTS, Mode, read_number};
use std::alloc::AllocError;

/// The remark on the first request that the section hasn't made.
pub(crate) fn unknown_request(site: &Site<'_>) -> Result<Remark, AllocError> {
    let alloc = site.alloc;
    let count = site.made()?.len();
    let mut at: usize = 1;
    for word in site.words.iter().skip(1) {
        match read_number(word.bytes) {
            Some(number) if number < count as u128 => at = at.saturating_add(1),
            _ => break,
        }
    }
    let rank = site.scene.rank().unwrap_or(0);
    let label = match count.checked_sub(1) {
        None => format!(in alloc; "rank {rank} has made no request so far")?,
        Some(0) => format!(in alloc; "rank {rank} has made request 0 alone so far")?,
        Some(last) => format!(in alloc; "rank {rank} has made requests 0 to {last} so far")?,
    };
    Ok(Remark::new(alloc, at, label))
}

/// The remark on the first request that is named a second time on its line.
pub(crate) fn named_twice(site: &Site<'_>) -> Result<Remark, AllocError> {
    let alloc = site.alloc;
    let mut at: usize = 1;
    for _ in site.words.iter().skip(1) {
        if stands_before(site, at) {
            break;
        }
        at = at.saturating_add(1);
    }
    let request = site.number(at).unwrap_or(0);
    let label = format!(in alloc; "request {request} stands on this line already")?;
    let mut remark = Remark::new(alloc, at, label);
    let help = String::from_str(alloc, "name it once")?;
    site.propose(&mut remark, help, at, 1, "")?;
    Ok(remark)
}

/// Whether a word before that one on the line names the same number.
fn stands_before(site: &Site<'_>, at: usize) -> bool {
    let number = site.number(at);
    let before = site.words.iter().take(at).skip(1);
    before
        .map(|word| read_number(word.bytes))
        .any(|other| other == number)
}

/// The remark on a request that can't be started or freed.
pub(crate) fn not_startable(site: &Site<'_>) -> Result<Remark, AllocError> {
    let made = site.made()?;
    let number = site.number(1).unwrap_or(0);
    let at = usize::try_from(number).unwrap_or(usize::MAX);
    let Some(request) = made.get(at) else {
        return Remark::of(site.alloc, 1, "it can't be started or freed here");
    };
    if request.sig.mode != Mode::Persistent {
        return posted(site, number, request.line);
    }
    if let Some(line) = site.scene.freed_in(at) {
        return freed(site, number, line);
    }
    let line = request.starts.last().map_or(0, |start| start.line);
    perhaps_active(site, number, line)
}

/// The remark on a request that was posted in that line of the draft.
fn posted(site: &Site<'_>, number: u128, line: u32) -> Result<Remark, AllocError> {
    let alloc = site.alloc;
    let line = site.draft.written(alloc)?.of(line);
    let label = format!(in alloc;
        "request {number} was posted in line {line}, so it starts and ends by itself"
    )?;
    let mut remark = Remark::new(alloc, 1, label);
    remark.note(String::from_str(alloc, "only requests of `init` are started and freed")?)?;
    Ok(remark)
}

/// The remark on a request that was freed in that line of the draft.
fn freed(site: &Site<'_>, number: u128, line: u32) -> Result<Remark, AllocError> {
    let alloc = site.alloc;
    let line = site.draft.written(alloc)?.of(line);
    let label = format!(in alloc; "request {number} was freed in line {line}")?;
    Ok(Remark::new(alloc, 1, label))
}

/// The remark on a request whose last start is in that line of the draft, and which no call has completed for sure since.
fn perhaps_active(site: &Site<'_>, number: u128, line: u32) -> Result<Remark, AllocError> {
    let alloc = site.alloc;
    let line = site.draft.written(alloc)?.of(line);
    let label = format!(in alloc;
        "request {number} was started in line {line} and may be active still"
    )?;
    let mut remark = Remark::new(alloc, 1, label);
    let text = "a `test`, `waitany` or `waitsome` may leave a request active";
    remark.note(String::from_str(alloc, text)?)?;
    let wait = format!(in alloc; "wait {number}")?;
    let help = format!(in alloc; "`{wait}` before this line")?;
    remark.propose(help, site.behind(wait.as_str())?)?;
    Ok(remark)
}

pub(crate) fn too_many_requests(site: &Site<'_>) -> Result<Remark, AllocError> {
    let label = format!(in site.alloc; "a job has at most {MAX_REQUESTS} requests")?;
    Ok(Remark::new(site.alloc, 0, label))
}
