//! Tries proposals for a line. If a line has several mistakes, the proposal for each is applied on top of that for the one before.

use crate::draft::MendedText;
use crate::line_faults::remark_of;
use crate::patch::copied;
use crate::remark::{Proposal, Remark};
use crate::scene::Scene;
use crate::site::Site;
use crate::suggestion::Suggestion;
use coll_kinds::MAX_TEXT;
use coll_parser::{History, ScriptFault};
use coll_script::Cause;
use std::alloc::{AllocError, Global};

/// The first proposal that is accepted, by itself or together with proposals for the line's further mistakes, and whether some
/// part of it is a guess. If there is none, the proposals for the first mistakes and what is known of the next one go to the
/// notes.
pub(crate) fn suggested(
    site: &Site<'_>,
    proposals: Vec<Proposal>,
    notes: &mut Vec<String>,
) -> Result<Option<(Suggestion, bool)>, AllocError> {
    let mut tried = tried(site, proposals)?;
    for _ in &site.words {
        match tried {
            Trial::Accepted(suggestion, is_guess) => return Ok(Some((suggestion, is_guess))),
            Trial::Refused(proposal) => tried = further(site, proposal, notes)?,
            Trial::Nothing => return Ok(None),
        }
    }
    Ok(None)
}

/// The outcome of proposals.
#[derive(Drop)]
enum Trial {
    /// A proposal was accepted; the flag says whether it is a guess.
    Accepted(Suggestion, bool),
    /// No proposal was accepted; this is the first that changes the line alone.
    Refused(Proposal),
    /// No proposal was accepted, and none changes the line alone.
    Nothing,
}

/// Tries proposals, the likeliest first.
fn tried(site: &Site<'_>, proposals: Vec<Proposal>) -> Result<Trial, AllocError> {
    let mut first = Trial::Nothing;
    for proposal in proposals {
        let Proposal {
            help,
            patches,
            is_guess,
        } = proposal.copied(site.alloc)?;
        if let Some(suggestion) = Suggestion::tried(
            site.alloc, site.draft, site.line, help, patches,
        )? {
            return Ok(Trial::Accepted(suggestion, is_guess));
        }
        if matches!(&first, Trial::Nothing) && proposal.changes_alone(site.line) {
            first = Trial::Refused(proposal);
        }
    }
    Ok(first)
}

/// Tries the proposals for the next mistake of a line in which `done` mends the mistakes before it. If there are none, the
/// notes get what is known of that mistake.
fn further(site: &Site<'_>, done: Proposal, notes: &mut Vec<String>) -> Result<Trial, AllocError> {
    let draft = site.draft.with(site.alloc, &done.patches)?;
    let Some(remark) = next_remark(site.alloc, &draft, site.scene, site.line)? else {
        return Ok(Trial::Nothing);
    };
    let Remark {
        label,
        proposals,
        ..
    } = remark;
    let found = tried(site, upon(site.alloc, &done, proposals)?)?;
    if matches!(&found, Trial::Nothing) && !done.is_guess {
        notes.push(done.help)?;
        notes.push(format!(in site.alloc; "further in this line: {label}")?)?;
    }
    Ok(found)
}

/// The remark on a line of the draft; no line before it has a fault.
fn next_remark(
    alloc: Global,
    draft: &MendedText<'_>,
    scene: &Scene,
    line: u32,
) -> Result<Option<Remark>, AllocError> {
    match next_cause(alloc, draft, line)? {
        Some(cause) => remark_of(&Site::new(alloc, draft, scene, line)?, cause),
        None => Ok(None),
    }
}

/// The rule that a line of the draft breaks; no line before it breaks one.
fn next_cause(
    alloc: Global,
    draft: &MendedText<'_>,
    line: u32,
) -> Result<Option<Cause>, AllocError> {
    let front = draft.front(alloc, line, &[])?;
    if front.len() > MAX_TEXT {
        return Ok(None);
    }
    match History::read(alloc, &front) {
        Ok(_history) => Ok(None),
        Err(ScriptFault::Text(fault)) => Ok(Some(fault.cause)),
        Err(ScriptFault::NoMemory) => Err(AllocError),
    }
}

/// Proposals for a line that another proposal has already changed, each combined with that one.
fn upon(
    alloc: Global,
    done: &Proposal,
    proposals: Vec<Proposal>,
) -> Result<Vec<Proposal>, AllocError> {
    let mut all = Vec::new(alloc);
    for proposal in proposals {
        let first = done.help.as_str();
        let then = proposal.help.as_str();
        all.push(Proposal {
            help: format!(in alloc; "{first}; {then}")?,
            patches: copied(alloc, &proposal.patches)?,
            is_guess: done.is_guess || proposal.is_guess,
        })?;
    }
    Ok(all)
}
