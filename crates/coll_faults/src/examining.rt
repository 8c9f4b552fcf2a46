//! Examines a fault of a line: which words are meant, what may be meant by them, and how the lines after it can be judged.

use crate::draft::MendedText;
use crate::finding::{Detail, Marked};
use crate::line_faults::remark_of;
use crate::mending::{Mending, first_accepted, mendings};
use crate::patch::copied;
use crate::remark::{Proposal, Remark};
use crate::scene::Scene;
use crate::site::Site;
use crate::trying::suggested;
use coll_script::Cause;
use std::alloc::{AllocError, Global};

/// What is known of the fault, and the patches by which the text can be read past it.
#[derive(Drop)]
pub(crate) struct Examined {
    pub detail: Detail,
    pub mending: Option<Mending>,
}

/// Examines a line of the draft; no line before it has a fault.
pub(crate) fn examine(
    alloc: Global,
    draft: &MendedText<'_>,
    line: u32,
    cause: Cause,
) -> Result<Examined, AllocError> {
    let Some(scene) = Scene::before(alloc, draft, line)? else {
        return Ok(Examined {
            detail: Detail::Bare,
            mending: None,
        });
    };
    let site = Site::new(alloc, draft, &scene, line)?;
    let Some(remark) = remark_of(&site, cause)? else {
        return Ok(Examined {
            detail: Detail::Bare,
            mending: mended(&site, cause)?,
        });
    };
    let (marked, proposals) = marked(&site, remark);
    let mut marked = marked;
    let mending = match suggested(&site, proposals, &mut marked.notes)? {
        Some((suggestion, is_guess)) => {
            let patches = copied(alloc, suggestion.patches())?;
            marked.suggestion = Some(suggestion);
            Some(Mending {
                patches,
                is_sure: !is_guess,
            })
        }
        None => mended(&site, cause)?,
    };
    Ok(Examined {
        detail: Detail::Words(marked),
        mending,
    })
}

/// The mending of the line, which breaks that rule.
fn mended(site: &Site<'_>, cause: Cause) -> Result<Option<Mending>, AllocError> {
    first_accepted(site.alloc, site.draft, site.line, mendings(site, cause)?)
}

/// The words of a remark as they are marked, and the remark's proposals.
fn marked(site: &Site<'_>, remark: Remark) -> (Marked, Vec<Proposal>) {
    let Remark {
        word,
        count,
        label,
        notes,
        proposals,
    } = remark;
    let last = word.saturating_add(count).saturating_sub(1);
    let start = match (site.words.get(word), site.words.last()) {
        (Some(word), _) => word.start,
        (None, Some(last)) => last.end().saturating_add(1),
        (None, None) => 0,
    };
    let end = match site.words.get(last) {
        Some(word) => word.end(),
        None => start.saturating_add(1),
    };
    let marked = Marked {
        word,
        start,
        len: end.saturating_sub(start).max(1),
        label,
        notes,
        suggestion: None,
    };
    (marked, proposals)
}
