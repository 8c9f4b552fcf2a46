ghost use Rattle.std.specs.Prelude.{◌≡◌, true, IfOk, IfSome};
ghost use Rattle.std.specs.String.{string_bytes};
ghost use Rattle.coll_faults.specs.Accepting.{is_accepted};
ghost use Rattle.coll_faults.specs.Drafts.{front_of};

use crate::accepting::accepted;
use crate::draft::MendedText;
use crate::patch::Patch;
use std::alloc::{AllocError, Global};

/// A change of a text that was tried: no line of the changed text has a fault, up to the line for which the change is made.
#[derive(Debug, Drop)]
pub struct Suggestion {
    help: String,
    patches: Vec<Patch>,
    front: Vec<u8>,
    ghost tried: { is_accepted front.items ≡ true },
}

impl Suggestion {
    /// Tries the change for a line of the draft. Returns None if a line up to it has a fault then.
    pub(crate) fn tried(
        alloc: Global,
        draft: &MendedText<'_>,
        line: u32,
        help: String,
        patches: Vec<Patch>,
    ) -> Result<Option<Suggestion>, AllocError>
        // What was accepted is the draft's first lines, with these patches.
        ensures front { IfOk result (λ tried. IfSome tried (λ suggestion. suggestion.front.items ≡ front_of draft.now line patches.items)) }
        ensures patches { IfOk result (λ tried. IfSome tried (λ suggestion. suggestion.patches.items ≡ patches.items)) }
        ensures help { IfOk result (λ tried. IfSome tried (λ suggestion. string_bytes suggestion.help ≡ string_bytes help)) }
    {
        let front = draft.front(alloc, line, &patches)?;
        if accepted(alloc, &front)?.is_none() {
            return Ok(None);
        }
        Ok(Some(Suggestion {
            help,
            patches,
            front,
        }))
    }

    /// The words that describe the change to a user.
    pub fn help(&self) -> &str
        ensures { result.now ≡ string_bytes self.now.help }
    {
        self.help.as_str()
    }

    /// The lines that are replaced, with those in their place.
    pub fn patches(&self) -> &[Patch]
        ensures { result.now ≡ self.now.patches.items }
    {
        &self.patches
    }

    /// The changed text up to the line for which the change is made. Faulty lines before it are mended in it.
    pub fn front(&self) -> &[u8]
        ensures tried { is_accepted result.now ≡ true }
        ensures front { result.now ≡ self.now.front.items }
    {
        &self.front
    }
}
