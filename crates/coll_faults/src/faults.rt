use crate::accepting::accepted;
use crate::draft::MendedText;
use crate::examining::{Examined, examine};
use crate::finding::{Detail, Finding};
use crate::patch::Patch;
use crate::place_faults::{PlaceFault, place_faults};
use crate::suggestion::Suggestion;
use crate::words::{push_word, shown, words_of};
use coll_script::{Cause, Fault, Script, ScriptFault};
use std::alloc::{AllocError, Global};

/// All faults of a text that has at least one.
#[derive(Debug, Drop)]
pub struct Faults {
    /// The text's first fault.
    pub first: Finding,
    /// The first fault of the text in which `first` is mended, and so on; after the last line, all other faults of the requests.
    pub further: Vec<Finding>,
    /// Whether lines after the last of these faults weren't judged: there are too many faults, or its line can't be mended.
    pub is_cut: bool,
}

/// The most faults that are reported of the lines of a text.
pub const MOST_FAULTS: u32 = 64;

impl Faults {
    ghost use Rattle.std.specs.Prelude.{◌≡◌, Err, IfOk, IfSome, IfNone};
    ghost use Rattle.coll_script.specs.Meaning.{meaning, HasMeaning};

    /// The faults of a text; None if it has none. For each fault the text is read again several times. The only error is refused memory.
    pub fn of(alloc: Global, text: &[u8]) -> Result<Option<Faults>, AllocError>
        ensures none { IfOk result (λ found. IfNone found (HasMeaning text.now)) }
        ensures first { IfOk result (λ found. IfSome found (λ faults. meaning text.now ≡ Err faults.first.fault)) }
    {
        let fault = match Script::read(alloc, text) {
            Ok(_script) => return Ok(None),
            Err(ScriptFault::NoMemory) => return Err(AllocError),
            Err(ScriptFault::Text(fault)) => fault,
        };
        Ok(Some(Faults::from_first(alloc, text, fault)?))
    }

    /// The faults of a text that has this first one.
    fn from_first(alloc: Global, text: &[u8], fault: Fault) -> Result<Faults, AllocError>
        ensures { IfOk result (λ faults. faults.first.fault ≡ fault) }
    {
        let mut search = Search {
            alloc,
            draft: MendedText::new(alloc, text)?,
            is_sure: true,
            goes_on: true,
            is_cut: false,
            further: Vec::new(alloc),
        };
        let detail = search.detail(fault)?;
        let first = Finding { fault, detail };
        search.find_further()?;
        Ok(Faults {
            first,
            is_cut: search.is_cut || search.goes_on,
            further: search.further,
        })
    }

    /// The number of faults.
    pub fn count(&self) -> usize {
        self.further.len().saturating_add(1)
    }
}

/// How far a text was judged.
#[derive(Drop)]
struct Search<'t> {
    alloc: Global,
    draft: MendedText<'t>,
    /// Whether each mended line still posts and starts what it was meant to.
    is_sure: bool,
    /// Whether there may be further faults.
    goes_on: bool,
    /// Whether the last line that was judged couldn't be mended, and other lines follow it.
    is_cut: bool,
    further: Vec<Finding>,
}

impl<'t> Search<'t> {
    /// Finds the faults after the first one.
    fn find_further(&mut self) -> Result<(), AllocError> {
        for _ in 1..MOST_FAULTS {
            if !self.goes_on {
                break;
            }
            self.find_next()?;
        }
        Ok(())
    }

    /// Finds the first fault of the mended text.
    fn find_next(&mut self) -> Result<(), AllocError> {
        let text = self.draft.text(self.alloc)?;
        match Script::read(self.alloc, &text) {
            Ok(_) => self.goes_on = false,
            Err(ScriptFault::NoMemory) => return Err(AllocError),
            Err(ScriptFault::Text(fault)) => {
                if fault.cause == Cause::TooLong || (is_of_all(fault.cause) && !self.is_sure) {
                    self.goes_on = false;
                    return Ok(());
                }
                let fault = Fault {
                    line: self.draft.written(self.alloc)?.of(fault.line),
                    cause: fault.cause,
                };
                let at = self.further.len();
                let detail = self.detail(fault)?;
                // The faults of requests that were found with it stand after it.
                let at = at.min(self.further.len());
                self.further.insert(at, Finding { fault, detail })?;
            }
        }
        Ok(())
    }

    /// What is known of a fault of the draft. Mends the fault's line, if it can be mended.
    fn detail(&mut self, fault: Fault) -> Result<Detail, AllocError> {
        if is_of_all(fault.cause) {
            self.goes_on = false;
            return self.place_detail(fault);
        }
        if fault.cause == Cause::TooLong {
            self.goes_on = false;
            return Ok(Detail::Bare);
        }
        let Examined { detail, mending } = examine(
            self.alloc,
            &self.draft,
            fault.line,
            fault.cause,
        )?;
        match mending {
            Some(mending) => {
                self.is_sure = self.is_sure && mending.is_sure;
                self.draft.mend(mending.patches);
            }
            None => {
                self.goes_on = false;
                self.is_cut = fault.line < self.draft.last();
            }
        }
        Ok(detail)
    }

    /// What is known of a fault that is judged after the last line. The other faults that are found with it go to `further`.
    fn place_detail(&mut self, fault: Fault) -> Result<Detail, AllocError> {
        let text = self.draft.text(self.alloc)?;
        let Some(history) = accepted(self.alloc, &text)? else {
            return Ok(Detail::Bare);
        };
        let mut found = Detail::Bare;
        let mut is_found = false;
        let written = self.draft.written(self.alloc)?;
        for place in place_faults(self.alloc, &written, &history)? {
            let line = place.line().unwrap_or(self.draft.last());
            let this = Fault {
                line,
                cause: place.cause(),
            };
            let detail = Detail::Place {
                suggestion: self.addition(&place)?,
                fault: place,
            };
            if !is_found && this == fault {
                found = detail;
                is_found = true;
            } else {
                self.further.push(Finding {
                    fault: this,
                    detail,
                })?;
            }
        }
        Ok(found)
    }

    /// The suggestion to add a line that a rank lacks, after the last line.
    fn addition(&self, place: &PlaceFault) -> Result<Option<Suggestion>, AllocError> {
        let PlaceFault::MissingPlace(missing) = place else {
            return Ok(None);
        };
        let Some(rank) = missing.lacking.first() else {
            return Ok(None);
        };
        let post = self.draft.line(missing.first.line);
        for has_values in [false, true] {
            let tried = self.added(*rank, post, has_values)?;
            if tried.is_some() {
                return Ok(tried);
            }
        }
        Ok(None)
    }

    /// The suggestion to add the line of another rank's request to the section of a rank, with its values or without.
    fn added(
        &self,
        rank: u8,
        post: &[u8],
        has_values: bool,
    ) -> Result<Option<Suggestion>, AllocError> {
        let mut line = Vec::new(self.alloc);
        for word in words_of(self.alloc, post)? {
            if word.bytes == b":".as_slice() && !has_values {
                break;
            }
            push_word(&mut line, word.bytes)?;
        }
        let shown = shown(self.alloc, &line)?;
        let values = if has_values {
            ", with its own values"
        } else {
            ""
        };
        let help = format!(in self.alloc; "add `{shown}` to rank {rank}{values}")?;
        let last = self.draft.last();
        let section = format!(in self.alloc; "\nrank {rank}\n")?;
        let mut block = Vec::from_slice(self.alloc, self.draft.line(last))?;
        block.extend_from_slice(section.as_str().as_bytes())?;
        block.extend_from_slice(&line)?;
        let mut patches = Vec::new(self.alloc);
        patches.push(Patch { line: last, block })?;
        Suggestion::tried(self.alloc, &self.draft, last, help, patches)
    }
}

/// Whether a fault concerns the requests of all ranks.
fn is_of_all(cause: Cause) -> bool {
    matches!(
        cause,
        Cause::PlaceMismatch | Cause::PlaceMissing | Cause::StartMissing
    )
}
