//! What is known of a fault as lines for a reader.

use coll_faults::{
    Detail, Finding, Marked, Mismatch, MissingPlace, MissingStart, PlaceFault, PlacedRequest,
    Suggestion,
};
use coll_kinds::MAX_TEXT;
use coll_script::Cause;
use coll_snippet::{Excerpt, Page, Paint, Source};
use std::alloc::{AllocError, Global};

/// The most ranks that are listed in one line.
const LISTED: usize = 8;

/// What is known of a fault of the text that has this name, as lines. `last_line` is the number of the text's last line.
pub(crate) fn known_lines(
    alloc: Global,
    name: &str,
    is_colored: bool,
    source: &Source<'_>,
    last_line: usize,
    finding: &Finding,
) -> Result<String, AllocError> {
    let page = Page::new(alloc, name, is_colored, last_line);
    let mut form = FaultPage {
        alloc,
        source,
        page,
    };
    form.show(finding)?;
    Ok(form.page.out)
}

/// The page so far, and what it is made from.
#[derive(Drop)]
struct FaultPage<'e> {
    alloc: Global,
    source: &'e Source<'e>,
    page: Page<'e>,
}

impl<'e> FaultPage<'e> {
    fn show(&mut self, finding: &Finding) -> Result<(), AllocError> {
        let fault = finding.fault;
        match &finding.detail {
            Detail::Words(marked) => self.show_words(fault.line, marked),
            Detail::Place {
                fault: place,
                suggestion,
            } => {
                self.show_place(place)?;
                self.show_suggestion(suggestion)
            }
            Detail::Bare => self.show_bare(fault.line, fault.cause),
        }
    }

    /// Shows a line, and marks its words that are meant.
    fn show_words(&mut self, line: u32, marked: &Marked) -> Result<(), AllocError> {
        self.page.arrow_into(line, marked.start.saturating_add(1))?;
        self.page.empty_line()?;
        let excerpt = Excerpt::of(self.alloc, self.source.line(line), marked.start, marked.len)?;
        self.page.marked_line(line, &excerpt, Paint::Fault, '^')?;
        self.page.label(Paint::Fault, marked.label.as_str())?;
        for note in &marked.notes {
            self.page.note("note", note.as_str())?;
        }
        self.show_suggestion(&marked.suggestion)
    }

    fn show_place(&mut self, place: &PlaceFault) -> Result<(), AllocError> {
        match place {
            PlaceFault::Mismatch(mismatch) => self.show_mismatch(mismatch),
            PlaceFault::MissingPlace(missing) => self.show_missing_place(missing),
            PlaceFault::MissingStart(missing) => self.show_missing_start(missing),
        }
    }

    fn show_mismatch(&mut self, mismatch: &Mismatch) -> Result<(), AllocError> {
        let Mismatch {
            comm,
            place,
            first,
            differs,
            ..
        } = mismatch;
        self.page.arrow_to(differs.line)?;
        self.page.empty_line()?;
        let label = format!(in self.alloc;
            "rank {}: the earliest at communicator {comm}, place {place}",
            first.rank
        )?;
        self.show_standing(*first, Paint::Other, '-', label.as_str())?;
        if differs.line > first.line.saturating_add(1) {
            self.page.gap()?;
        }
        let label = differences_of(self.alloc, mismatch)?;
        self.show_standing(*differs, Paint::Fault, '^', label.as_str())?;
        self.show_members("agree", &mismatch.members, true)?;
        self.show_members("differ", &mismatch.members, false)?;
        self.show_elsewhere(mismatch)
    }

    /// Notes where the rank that differs has the signature of the earliest.
    fn show_elsewhere(&mut self, mismatch: &Mismatch) -> Result<(), AllocError> {
        let Some((at, line)) = mismatch.elsewhere else {
            return Ok(());
        };
        let note = format!(in self.alloc;
            "rank {} has that signature at place {at}, in line {line}: members call a communicator's collectives in one order (MPI 4.1, 6.14)",
            mismatch.differs.rank
        )?;
        self.page.note("note", note.as_str())
    }

    /// Lists the members that agree with the earliest, or those that don't.
    fn show_members(
        &mut self,
        word: &str,
        members: &[PlacedRequest],
        agree: bool,
    ) -> Result<(), AllocError> {
        let mut list = String::new(self.alloc);
        let mut count: usize = 0;
        for member in members.iter().filter(|member| member.agrees == agree) {
            if count < LISTED {
                if count > 0 {
                    list.push_str(", ")?;
                }
                write!(list, "rank {} line {}", member.rank, member.line)?;
            }
            count = count.saturating_add(1);
        }
        let others = count.saturating_sub(LISTED);
        if others > 0 {
            write!(list, " and {others} more")?;
        }
        // A single member that differs has been shown above.
        if agree || count > 1 {
            self.page.note(word, list.as_str())?;
        }
        Ok(())
    }

    fn show_missing_place(&mut self, missing: &MissingPlace) -> Result<(), AllocError> {
        let MissingPlace {
            comm,
            place,
            first,
            ..
        } = missing;
        self.page.arrow_to(first.line)?;
        self.page.empty_line()?;
        let label = format!(in self.alloc;
            "rank {}: communicator {comm}, place {place}",
            first.rank
        )?;
        self.show_standing(*first, Paint::Fault, '^', label.as_str())?;
        let list = lacking_of(self.alloc, missing)?;
        self.page.note("lacking", list.as_str())
    }

    fn show_missing_start(&mut self, missing: &MissingStart) -> Result<(), AllocError> {
        let MissingStart {
            comm,
            place,
            members,
        } = missing;
        if let Some((_, line, _)) = members.first() {
            self.page.arrow_to(*line)?;
        }
        for (rank, _, starts) in members {
            let count = starts.len();
            let noun = if count == 1 { "start" } else { "starts" };
            let mut note = format!(in self.alloc;
                "{count} {noun} of communicator {comm}, place {place}"
            )?;
            if count > 0 {
                push_lines(&mut note, starts)?;
            }
            let word = format!(in self.alloc; "rank {rank}")?;
            self.page.note(word.as_str(), note.as_str())?;
        }
        Ok(())
    }

    fn show_bare(&mut self, line: u32, cause: Cause) -> Result<(), AllocError> {
        self.page.arrow_to(line)?;
        if cause == Cause::TooLong {
            let note = format!(in self.alloc; "a text has at most {MAX_TEXT} bytes")?;
            self.page.note("note", note.as_str())?;
        }
        Ok(())
    }

    /// Shows the line of a request, all of it marked.
    fn show_standing(
        &mut self,
        standing: PlacedRequest,
        paint: Paint,
        mark: char,
        label: &str,
    ) -> Result<(), AllocError> {
        let excerpt = Excerpt::whole(self.alloc, self.source.line(standing.line))?;
        self.page.marked_line(standing.line, &excerpt, paint, mark)?;
        self.page.label(paint, label)
    }

    fn show_suggestion(&mut self, suggestion: &Option<Suggestion>) -> Result<(), AllocError> {
        match suggestion {
            Some(suggestion) => self.page.help(suggestion.help()),
            None => Ok(()),
        }
    }
}

/// Names the lines of starts.
fn push_lines(note: &mut String, starts: &[u32]) -> Result<(), AllocError> {
    note.push_str(if starts.len() == 1 {
        ": line"
    } else {
        ": lines"
    })?;
    let mut is_first = true;
    for line in starts.iter().take(LISTED) {
        if !is_first {
            note.push(',')?;
        }
        is_first = false;
        write!(note, " {line}")?;
    }
    if starts.len() > LISTED {
        note.push_str(", ..")?;
    }
    Ok(())
}

/// The fields in which the request that differs and the earliest disagree, with both values.
fn differences_of(alloc: Global, mismatch: &Mismatch) -> Result<String, AllocError> {
    let mut label = format!(in alloc; "rank {}: ", mismatch.differs.rank)?;
    let mut is_first = true;
    for field in &mismatch.fields {
        if !is_first {
            label.push_str("; ")?;
        }
        is_first = false;
        write!(
            label,
            "{} {} here, {} there",
            field.field,
            field.here.as_str(),
            field.there.as_str()
        )?;
    }
    if mismatch.fields.is_empty() {
        label.push_str("other counts here")?;
    }
    Ok(label)
}

/// The ranks that lack a place, and how many places each of them has.
fn lacking_of(alloc: Global, missing: &MissingPlace) -> Result<String, AllocError> {
    let mut list = String::new(alloc);
    let mut is_first = true;
    for rank in missing.lacking.iter().take(LISTED) {
        if !is_first {
            list.push_str(", ")?;
        }
        is_first = false;
        write!(
            list,
            "rank {rank} (has {} of {})",
            missing.place,
            missing.place.saturating_add(1)
        )?;
    }
    let others = missing.lacking.len().saturating_sub(LISTED);
    if others > 0 {
        write!(list, " and {others} more")?;
    }
    Ok(list)
}
