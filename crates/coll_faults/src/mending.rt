//! How lines after a faulty one can be judged: what stands in its place.

use crate::accepting::accepted;
use crate::draft::MendedText;
use crate::line_faults::guessed_ranks;
use crate::patch::Patch;
use crate::site::{Site, last_signed};
use crate::vocabulary::{kind_words, word_meant};
use crate::words::{first_word, push_word};
use coll_kinds::Datatype;
use coll_script::Cause;
use std::alloc::{AllocError, Global};

/// Patches by which a text can be read past a faulty line.
#[derive(Drop)]
pub(crate) struct Mending {
    pub patches: Vec<Patch>,
    /// Whether it is sure that the line posts and starts what it was meant to.
    pub is_sure: bool,
}

/// The most values that are written in place of faulty ones.
const MOST_VALUES: usize = 65_536;

/// What may stand in place of the line, the likeliest first; empty if no line after it can be judged.
pub(crate) fn mendings(site: &Site<'_>, cause: Cause) -> Result<Vec<Mending>, AllocError> {
    let mut all = Vec::new(site.alloc);
    match cause {
        Cause::TooManyRequests => {}
        Cause::MissingRanks => {
            if has_ranks_later(site) {
                push_dropped(site, &mut all, true)?;
            }
        }
        Cause::UnknownCommand => {
            let is_sure = !names_collective(site)?;
            push_posts(site, "post", &mut all, is_sure)?;
        }
        _ => by_command(site, &mut all)?,
    }
    Ok(all)
}

fn push(all: &mut Vec<Mending>, patches: Vec<Patch>, is_sure: bool) -> Result<(), AllocError> {
    all.push(Mending { patches, is_sure })?;
    Ok(())
}

/// Adds the patch that puts another line in place of the faulty one.
fn push_line(
    site: &Site<'_>,
    all: &mut Vec<Mending>,
    line: &[u8],
    is_sure: bool,
) -> Result<(), AllocError> {
    push(
        all,
        site.patch(Vec::from_slice(site.alloc, line)?)?,
        is_sure,
    )
}

/// Adds the patch that leaves the line out.
fn push_dropped(site: &Site<'_>, all: &mut Vec<Mending>, is_sure: bool) -> Result<(), AllocError> {
    push(all, site.dropped()?, is_sure)
}

/// Adds what may stand in place of a line, by its first word.
fn by_command(site: &Site<'_>, all: &mut Vec<Mending>) -> Result<(), AllocError> {
    if site.begins("post") || site.begins("init") {
        push_same(site, all)?;
        let verb = if site.begins("post") { "post" } else { "init" };
        return push_posts(site, verb, all, false);
    }
    if site.begins("start") {
        push_start(site, all)?;
        return push_dropped(site, all, false);
    }
    if waits(site) {
        return push_line(site, all, b"waitall", true);
    }
    if site.begins("rank") {
        return push(all, section(site)?, false);
    }
    if site.begins("ranks") && !site.scene.has_ranks() {
        let ranks = guessed_ranks(site);
        let line = format!(in site.alloc; "ranks {ranks}")?;
        return push_line(site, all, line.as_str().as_bytes(), false);
    }
    if site.begins("comm") && site.scene.rank().is_none() {
        push_line(site, all, &all_ranks(site)?, false)?;
    }
    let is_sure = site.begins("ranks") || site.begins("test") || site.begins("free");
    push_dropped(site, all, is_sure)
}

/// Whether the line is a wait.
fn waits(site: &Site<'_>) -> bool {
    let waits = ["wait", "waitany", "waitsome", "waitall"];
    waits.iter().any(|word| site.begins(word))
}

/// Adds posts that make one request, as the line was meant to, unless it is sure that it wasn't; and after these the patch that
/// leaves the line out.
fn push_posts(
    site: &Site<'_>,
    verb: &str,
    all: &mut Vec<Mending>,
    is_none: bool,
) -> Result<(), AllocError> {
    if !is_none {
        let comm = site.number(1).unwrap_or(0);
        for comm in [comm, 0] {
            let line = format!(in site.alloc; "{verb} {comm} barrier")?;
            push_line(site, all, line.as_str().as_bytes(), false)?;
        }
    }
    push_dropped(site, all, false)
}

/// Adds a line with the same signature and other values.
fn push_same(site: &Site<'_>, all: &mut Vec<Mending>) -> Result<(), AllocError> {
    let Some((end, history)) = site.signed()? else {
        return Ok(());
    };
    let Some((comm, sig)) = last_signed(&history) else {
        return Ok(());
    };
    let mut line = Vec::new(site.alloc);
    for word in site.words.iter().take(end) {
        push_word(&mut line, word.bytes)?;
    }
    if site.begins("post") {
        let due = site.due(comm, sig);
        push_zeros(&mut line, due.values, sig.ty)?;
    }
    push_line(site, all, &line, true)
}

/// Adds a start of the same request with other values.
fn push_start(site: &Site<'_>, all: &mut Vec<Mending>) -> Result<(), AllocError> {
    let made = site.made()?;
    let request = site
        .number(1)
        .and_then(|number| usize::try_from(number).ok());
    if let Some(request) = request.and_then(|request| made.get(request)) {
        let mut line = Vec::from_slice(site.alloc, b"start")?;
        push_word(&mut line, site.word(1))?;
        let due = site.due(request.comm, &request.sig);
        push_zeros(&mut line, due.values, request.sig.ty)?;
        push_line(site, all, &line, true)?;
    }
    Ok(())
}

/// Adds a colon and this number of zeros to a line.
fn push_zeros(line: &mut Vec<u8>, values: usize, ty: Datatype) -> Result<(), AllocError> {
    if values > 0 {
        push_word(line, b":")?;
    }
    let zero: &[u8] = if ty.is_pair() { b"0,0" } else { b"0" };
    for _ in 0..values.min(MOST_VALUES) {
        push_word(line, zero)?;
    }
    Ok(())
}

/// The line of a communicator of all ranks.
fn all_ranks(site: &Site<'_>) -> Result<Vec<u8>, AllocError> {
    let mut line = Vec::from_slice(site.alloc, b"comm")?;
    for rank in 0..site.scene.ranks() {
        let word = format!(in site.alloc; "{rank}")?;
        push_word(&mut line, word.as_str().as_bytes())?;
    }
    Ok(line)
}

/// The patches that leave out the section that begins here.
fn section(site: &Site<'_>) -> Result<Vec<Patch>, AllocError> {
    let mut patches = site.dropped()?;
    for number in site.line.saturating_add(1)..=site.draft.last() {
        if first_word(site.draft.line(number)) == b"rank".as_slice() {
            break;
        }
        patches.push(Patch {
            line: number,
            block: Vec::from_slice(site.alloc, b"#")?,
        })?;
    }
    Ok(patches)
}

/// Whether a later line begins with `ranks`.
fn has_ranks_later(site: &Site<'_>) -> bool {
    let mut has = false;
    for number in site.line.saturating_add(1)..=site.draft.last() {
        has = has || first_word(site.draft.line(number)) == b"ranks".as_slice();
    }
    has
}

/// Whether some word may be meant to name a collective.
fn names_collective(site: &Site<'_>) -> Result<bool, AllocError> {
    let kinds = kind_words(site.alloc)?;
    for word in &site.words {
        if word_meant(site.alloc, word.bytes, &kinds)?.is_some() {
            return Ok(true);
        }
    }
    Ok(false)
}

/// The first of these mendings that is accepted.
pub(crate) fn first_accepted(
    alloc: Global,
    draft: &MendedText<'_>,
    line: u32,
    mendings: Vec<Mending>,
) -> Result<Option<Mending>, AllocError> {
    for mending in mendings {
        let front = draft.front(alloc, line, &mending.patches)?;
        if accepted(alloc, &front)?.is_some() {
            return Ok(Some(mending));
        }
    }
    Ok(None)
}
