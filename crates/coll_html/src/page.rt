//! The page.

ghost use Rattle.std.specs.Prelude.{◌≡◌, ◌++◌, IfOk, OnOk};
ghost use Rattle.coll_html.specs.Pages.{data_text, explained_text, member, names_text, page_begin, page_end, page_text, run_text};

use crate::fixed::{FIXED_BEGIN, FIXED_END};
use crate::quoting::push_quoted;
use std::alloc::{AllocError, Global};

/// The texts that a page shows. One that is empty isn't there.
#[derive(Clone, Copy, Debug)]
pub struct PageTexts<'t> {
    /// The program and its subcommand.
    pub program: &'t str,
    /// The name of the job text.
    pub file: &'t str,
    /// What the run did, in the JSON format of trace events.
    pub timeline: &'t [u8],
    /// The tables of the run by rank and by collective.
    pub stats: &'t [u8],
    /// Whether and why the job deadlocks, as JSON with an object in each line.
    pub explained: &'t [u8],
}

/// The page that shows these texts. The cost is linear in the texts.
///
/// # Errors
///
/// If memory was refused.
pub fn page_text(alloc: Global, texts: &PageTexts<'_>) -> Result<Vec<u8>, AllocError>
    ensures { IfOk result (λ page. page.items
        ≡ page_text texts.now.program.now texts.now.file.now texts.now.timeline.now texts.now.stats.now texts.now.explained.now) }
{
    let mut out = Vec::new(alloc);
    push_begin(&mut out)?;
    push_data(&mut out, texts)?;
    push_end(&mut out)?;
    Ok(out)
}

/// Appends the fixed part before the data.
#[tactic(auto, unfolding(crate::specs::Pages::page_begin))]
fn push_begin(out: &mut Vec<u8>) -> Result<(), AllocError>
    ensures { OnOk result (out.new.items ≡ out.old.items ++ page_begin) }
{
    out.extend_from_slice(FIXED_BEGIN.as_bytes())
}

/// Appends the fixed part behind the data.
#[tactic(auto, unfolding(crate::specs::Pages::page_end))]
fn push_end(out: &mut Vec<u8>) -> Result<(), AllocError>
    ensures { OnOk result (out.new.items ≡ out.old.items ++ page_end) }
{
    out.extend_from_slice(FIXED_END.as_bytes())
}

/// Appends the texts as an object of JSON.
fn push_data(out: &mut Vec<u8>, texts: &PageTexts<'_>) -> Result<(), AllocError>
    ensures { OnOk result (out.new.items
        ≡ out.old.items ++ data_text texts.now.program.now texts.now.file.now texts.now.timeline.now texts.now.stats.now texts.now.explained.now) }
{
    push_names(out, texts.program, texts.file)?;
    push_run(out, texts.timeline, texts.stats)?;
    push_explained(out, texts.explained)
}

/// Appends what the page is headed with.
fn push_names(out: &mut Vec<u8>, program: &str, file: &str) -> Result<(), AllocError>
    ensures { OnOk result (out.new.items ≡ out.old.items ++ names_text program.now file.now) }
{
    push_member(out, b"{\"program\":", program.as_bytes())?;
    push_member(out, b",\"file\":", file.as_bytes())
}

/// Appends what the page shows of a run.
#[tactic(auto, unfolding(crate::specs::Pages::run_text))]
fn push_run(out: &mut Vec<u8>, timeline: &[u8], stats: &[u8]) -> Result<(), AllocError>
    ensures { OnOk result (out.new.items ≡ out.old.items ++ run_text timeline.now stats.now) }
{
    push_member(out, b",\"timeline\":", timeline)?;
    push_member(out, b",\"stats\":", stats)
}

/// Appends what the page shows of a deadlock.
#[tactic(auto, unfolding(crate::specs::Pages::explained_text))]
fn push_explained(out: &mut Vec<u8>, explained: &[u8]) -> Result<(), AllocError>
    ensures { OnOk result (out.new.items ≡ out.old.items ++ explained_text explained.now) }
{
    push_member(out, b",\"explained\":", explained)?;
    out.extend_from_slice(b"}")
}

/// Appends a member: its name with what stands before it, and its text.
#[tactic(auto, unfolding(crate::specs::Pages::member))]
fn push_member(out: &mut Vec<u8>, name: &[u8], text: &[u8]) -> Result<(), AllocError>
    ensures { OnOk result (out.new.items ≡ out.old.items ++ member name.now text.now) }
{
    out.extend_from_slice(name)?;
    push_quoted(out, text)
}
