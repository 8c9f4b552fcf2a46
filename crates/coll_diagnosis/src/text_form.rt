//! An explanation as lines for a reader.

ghost use Rattle.std.specs.Prelude.{◌≡◌, ◌++◌, ◌∷◌, IfOk};
ghost use Rattle.std.specs.String.{string_bytes};
ghost use Rattle.coll_diagnosis.specs.Verdicts.{Begins, heading};

use crate::course::Choice;
use crate::explaining::ExplainOptions;
use crate::explanation::{Explanation, ShownStall};
use crate::lack::Lack;
use crate::members::Members;
use crate::pending::Pending;
use crate::standstill::Standstill;
use crate::stuck::Stuck;
use crate::verdict::Verdict;
use crate::waiting::WaitsFor;
use coll_snippet::{Page, Paint, Source, push_ranks};
use std::alloc::{AllocError, Global};

/// The lines of an explanation of the text that has this name: with a shortest cycle in full, or with all ranks that wait for themselves.
pub(crate) fn text_form(
    alloc: Global,
    name: &str,
    options: ExplainOptions,
    text: &[u8],
    explanation: &Explanation,
) -> Result<String, AllocError>
    ensures { IfOk result (λ lines. Begins (heading explanation.now.verdict) (string_bytes lines)) }
{
    let head = headline(explanation);
    let rest = rest_form(alloc, name, options, text, explanation)?;
    after(alloc, head, rest.as_str())
}

/// The lines, with `head` as the first one.
fn after(alloc: Global, head: &str, rest: &str) -> Result<String, AllocError>
    ensures { IfOk result (λ text. string_bytes text ≡ head.now ++ 10 ∷ rest.now) }
{
    format!(in alloc; "{head}\n{rest}")
}

/// The lines after the first.
fn rest_form(
    alloc: Global,
    name: &str,
    options: ExplainOptions,
    text: &[u8],
    explanation: &Explanation,
) -> Result<String, AllocError> {
    let Some(shown) = &explanation.shown else {
        return Ok(String::new(alloc));
    };
    let last = last_line(&shown.standstill) as usize;
    let mut form = StallPage {
        alloc,
        is_whole: options.is_whole,
        is_shortened: false,
        source: Source::new(alloc, text)?,
        shown,
        page: Page::new(alloc, name, options.is_colored, last),
    };
    form.show_ring()?;
    form.show_circle()?;
    form.show_others()?;
    form.show_cure(explanation)?;
    Ok(form.page.out)
}

/// The first line.
pub(crate) fn headline(explanation: &Explanation) -> &'static str
    ensures { Begins (heading explanation.now.verdict) result.now }
{
    let choice = explanation.shown.as_ref().map(|shown| shown.choice);
    match (explanation.verdict, choice) {
        (Verdict::Never, _) => "never stalls, in any run, with any MPI library (proved)",
        (Verdict::NeverHere, Some(Choice::Best)) => {
            "warning: by this engine's schedules no run stalls (proved), but with a library whose collectives wait for all their members the job stalls"
        }
        (Verdict::NeverHere, _) => {
            "warning: by this engine's schedules no run stalls (proved), but with a library whose collectives wait for all their members the job may stall"
        }
        (Verdict::Perhaps, Some(Choice::Last)) => {
            "warning: may stall, neither proved to end nor proved to stall: it does where a waitany takes a later one of several that are done"
        }
        (Verdict::Perhaps, _) => {
            "warning: may stall, neither proved to end nor proved to stall: which request a waitany, waitsome or test takes depends on time"
        }
        (Verdict::AlwaysHere, _) => "by this engine's schedules every run stalls (proved)",
        (Verdict::Always, _) => "stalled in every run, with every MPI library (proved)",
    }
}

/// The greatest number of a line in which a rank waits.
fn last_line(standstill: &Standstill) -> u32 {
    let lines = standstill.stuck.iter().map(|stuck| stuck.line.unwrap_or(0));
    lines.max().unwrap_or(0)
}

/// The lines so far, and what they are made from.
#[derive(Drop)]
struct StallPage<'e> {
    alloc: Global,
    is_whole: bool,
    /// Whether something is left out that would be printed of all.
    is_shortened: bool,
    source: Source<'e>,
    shown: &'e ShownStall,
    page: Page<'e>,
}

impl<'e> StallPage<'e> {
    /// Reports each rank of the shortest cycle.
    fn show_ring(&mut self) -> Result<(), AllocError> {
        let shown = self.shown;
        for rank in &shown.ring {
            if let Some(stuck) = shown.standstill.stuck_rank(*rank) {
                self.show_rank(stuck)?;
            }
        }
        Ok(())
    }

    /// Reports the other ranks that wait for themselves, in one line each unless the whole is wanted.
    fn show_circle(&mut self) -> Result<(), AllocError> {
        let shown = self.shown;
        for rank in &shown.standstill.circle {
            if !shown.ring.contains(rank) {
                if let Some(stuck) = shown.standstill.stuck_rank(*rank) {
                    self.show_other(stuck)?;
                }
            }
        }
        Ok(())
    }

    /// Reports a rank that waits for itself by way of others.
    fn show_other(&mut self, stuck: &Stuck) -> Result<(), AllocError> {
        if self.is_whole {
            return self.show_rank(stuck);
        }
        let mut note = format!(in self.alloc; "rank {} waits in line ", stuck.rank)?;
        push_line_number(&mut note, stuck.line)?;
        note.push_str(" for ")?;
        let mut lacking = Members::NONE;
        for request in &stuck.requests {
            insert_lacking(&mut lacking, &request.lacks);
        }
        push_noun(&mut note, &lacking.listed(self.alloc)?)?;
        self.page.remark(note.as_str())?;
        self.is_shortened = true;
        Ok(())
    }

    /// Reports where a rank waits, and for which ranks.
    fn show_rank(&mut self, stuck: &Stuck) -> Result<(), AllocError> {
        self.page.arrow_to_rank(stuck.line, stuck.rank)?;
        self.show_requests(&stuck.requests)?;
        if let Some(line) = stuck.line {
            let awaited = self.awaited(&stuck.requests)?;
            self.show_line(line, Paint::Fault, '^', awaited.as_str())?;
        }
        self.show_all_lacks(&stuck.requests)
    }

    /// Shows the lines in which the requests were posted or started.
    fn show_requests(&mut self, requests: &[Pending]) -> Result<(), AllocError> {
        for request in requests {
            if self.is_shown(request) {
                self.show_request(request)?;
            }
        }
        Ok(())
    }

    /// Whether a request is reported: each one if the whole is wanted, else one that lacks a rank of the shortest cycle.
    fn is_shown(&self, request: &Pending) -> bool {
        let ring = &self.shown.ring;
        self.is_whole || request.lacks.iter().any(|lack| ring.contains(&lack.rank))
    }

    fn show_request(&mut self, request: &Pending) -> Result<(), AllocError> {
        let mut label = format!(in self.alloc; "request {}: ", request.request)?;
        if request.is_persistent {
            write!(label, "start {} of ", request.start)?;
        }
        write!(
            label,
            "communicator {}, place {}",
            request.comm, request.place
        )?;
        self.show_line(request.line, Paint::Other, '-', label.as_str())
    }

    /// The names of the requests that a call waits for.
    fn awaited(&mut self, requests: &[Pending]) -> Result<String, AllocError> {
        let mut label = String::new(self.alloc);
        let mut word = "waits for";
        let mut others: usize = 0;
        for request in requests {
            if self.is_shown(request) {
                write!(label, "{word} request {}", request.request)?;
                word = ",";
            } else {
                others = others.saturating_add(1);
            }
        }
        if others > 0 {
            self.is_shortened = true;
            write!(label, " and {others} more")?;
        }
        Ok(label)
    }

    fn show_all_lacks(&mut self, requests: &[Pending]) -> Result<(), AllocError> {
        for request in requests {
            if self.is_shown(request) {
                self.show_lacks(&request.lacks)?;
            }
        }
        Ok(())
    }

    /// Reports the members that a request lacks: first those of the shortest cycle, then the others in one line, unless the
    /// whole is wanted.
    fn show_lacks(&mut self, lacks: &[Lack]) -> Result<(), AllocError> {
        let mut others = Members::NONE;
        for lack in lacks {
            if self.is_whole || self.shown.ring.contains(&lack.rank) {
                self.show_lack(lack)?;
            } else {
                others.insert(lack.rank);
                self.is_shortened = true;
            }
        }
        self.show_ranks("lacks, too", &others.listed(self.alloc)?)
    }

    fn show_lack(&mut self, lack: &Lack) -> Result<(), AllocError> {
        let reason = self.reason(lack);
        let note = format!(in self.alloc;
            "lacks rank {}{}: its line {} stands behind its wait in line {}",
            lack.rank, reason, lack.line, lack.behind
        )?;
        self.page.remark(note.as_str())
    }

    /// Why a request waits for a member of which its outcome needs nothing.
    fn reason(&self, lack: &Lack) -> &'static str {
        if lack.is_needed {
            return "";
        }
        match self.shown.waiting {
            WaitsFor::Needed => "",
            WaitsFor::Heard => ", through whom the bytes go",
            WaitsFor::All => ", whom a library may wait for",
        }
    }

    /// Reports the ranks outside the cycle.
    fn show_others(&mut self) -> Result<(), AllocError> {
        let standstill = &self.shown.standstill;
        self.show_ranks("behind them", &standstill.behind)?;
        self.show_ranks("at the end", &standstill.ended)?;
        if self.is_shortened {
            self.page.remark("each in full: colljob explain --all")?;
        }
        Ok(())
    }

    fn show_ranks(&mut self, what: &str, ranks: &[u8]) -> Result<(), AllocError> {
        if ranks.is_empty() {
            return Ok(());
        }
        let mut note = String::new(self.alloc);
        push_noun(&mut note, ranks)?;
        self.page.note(what, note.as_str())
    }

    /// Reports what cures the text.
    fn show_cure(&mut self, explanation: &Explanation) -> Result<(), AllocError> {
        match &explanation.cure {
            Some(cure) => {
                let help = format!(in self.alloc;
                    "with line {} behind line {} no run stalls (tried)",
                    cure.line, cure.behind
                )?;
                self.page.help(help.as_str())
            }
            None => Ok(()),
        }
    }

    /// Shows a line of the text, with its words marked and labelled.
    fn show_line(
        &mut self,
        line: u32,
        paint: Paint,
        mark: char,
        label: &str,
    ) -> Result<(), AllocError> {
        let excerpt = self.source.excerpt(self.alloc, line)?;
        self.page.marked_line(line, &excerpt, paint, mark)?;
        self.page.label(paint, label)
    }
}

fn push_line_number(out: &mut String, line: Option<u32>) -> Result<(), AllocError> {
    match line {
        Some(line) => write!(out, "{line}"),
        None => out.push_str("end"),
    }
}

fn push_noun(out: &mut String, ranks: &[u8]) -> Result<(), AllocError> {
    let noun = if ranks.len() == 1 { "rank" } else { "ranks" };
    write!(out, "{noun} ")?;
    push_ranks(out, ranks)
}

/// Adds the ranks that a request lacks.
fn insert_lacking(lacking: &mut Members, lacks: &[Lack]) {
    for lack in lacks {
        lacking.insert(lack.rank);
    }
}
