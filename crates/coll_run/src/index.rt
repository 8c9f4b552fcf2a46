ghost use Rattle.std.specs.Prelude.{◌≡◌, ℕ, IfOk, OnOk};
ghost use Rattle.std.specs.Option.{option_copied};
ghost use Rattle.coll_report.specs.Views.{seen, trace_seen};
ghost use Rattle.coll_run.specs.Index.{handed_at, handed_in};
ghost use Rattle.coll_run.specs.Lines.{further, told};

use coll_report::Entry;
use std::alloc::{AllocError, Global};
use std::collections::HashMap;

/// A completed start of a rank's request.
#[derive(Clone, Copy, PartialEq, Eq, Hash)]
pub(crate) struct Completion {
    pub(crate) rank: u8,
    pub(crate) comm: u32,
    /// The request's index among the rank's requests on the communicator.
    pub(crate) place: u32,
    /// The number of the request's starts before this one.
    pub(crate) start: u32,
}

/// The bytes that the completions of a trace handed out. Linear in the trace, on average.
pub(crate) fn index_completions<'a>(
    alloc: Global,
    trace: &'a [Entry],
) -> Result<HashMap<Completion, &'a [u8]>, AllocError>
    ensures { IfOk result (λ index. (rank comm place start : ℕ)
        → handed_in index.entries rank comm place start ≡ told (trace_seen trace.now) rank comm place start) }
{
    let mut index = HashMap::new(alloc);
    for entry in trace {
        note(entry, &mut index)?;
    }
    Ok(index)
}

/// Adds what an entry handed out, if it is a completion.
fn note<'a>(entry: &'a Entry, index: &mut HashMap<Completion, &'a [u8]>) -> Result<(), AllocError>
    ensures { OnOk result ((rank comm place start : ℕ)
        → handed_in index.new.entries rank comm place start
        ≡ further (seen entry.now) (handed_in index.old.entries) rank comm place start) }
{
    if let Entry::Retired {
        rank,
        comm,
        place,
        start,
        bytes,
        ..
    } = entry
    {
        let completion = Completion {
            rank: *rank,
            comm: *comm,
            place: *place,
            start: *start,
        };
        index.insert(completion, bytes.as_slice())?;
    }
    Ok(())
}

/// The bytes that the completion handed out; None if the trace has no such completion.
pub(crate) fn find<'a>(
    index: &HashMap<Completion, &'a [u8]>,
    completion: Completion,
) -> Option<&'a [u8]>
    ensures { option_copied result ≡ handed_at index.now.entries completion }
{
    index.get(&completion).copied()
}
