//! Texts that were cut off.

use crate::answering::answer_text;
use crate::shown::{TextRow, first_misfit};
use crate::texts::STARTS_OUT_OF_ORDER;
use coll_script::JobFault;
use std::alloc::Global;
use std::test::Fail;

/// A sum of three ranks, cut off after the second rank's post, and after the last `:`.
const CUT: &[TextRow] = &[
    (
        "ranks 3\nrank 0\npost 0 allreduce sum i32 1 : 1\nrank 1\npost 0 allreduce sum i32 1 : 2\n",
        "2: line 5: place missing\n",
    ),
    (
        "ranks 3\nrank 0\npost 0 allreduce sum i32 1 : 1\nrank 1\npost 0 allreduce sum i32 1 : 2\n\
         rank 2\npost 0 allreduce sum i32 1 :",
        "2: line 7: wrong value count\n",
    ),
];

#[test]
fn cut_texts(rt: HostRuntime) -> Result<(), Fail> {
    assert!(rt; first_misfit(rt.alloc(), CUT)?.is_none());
    Ok(())
}

/// How a text ends: it is answered, it has a fault and nothing was written, or something else happens.
#[derive(Clone, Copy)]
enum Ending {
    Answered,
    Told,
    Other,
}

fn end_of(alloc: Global, text: &str) -> Ending {
    let mut out = Vec::new(alloc);
    match answer_text(alloc, text, &mut out) {
        Ok(()) => Ending::Answered,
        Err(JobFault::Text(_)) if out.is_empty() => Ending::Told,
        Err(_) => Ending::Other,
    }
}

/// The lengths of the prefixes of a text that are answered. None if a prefix ends with neither an answer nor a fault of the text.
fn answered_prefixes(alloc: Global, text: &str) -> Result<Option<Vec<usize>>, Fail> {
    let mut answered = Vec::new(alloc);
    for len in 0..=text.len() {
        let Some(prefix) = text.get(..len) else {
            return Ok(None);
        };
        match end_of(alloc, prefix) {
            Ending::Answered => answered.push(len)?,
            Ending::Told => {}
            Ending::Other => return Ok(None),
        }
    }
    Ok(Some(answered))
}

/// A prefix is answered after the number of ranks and after the first section's head, with the end of the line and without it,
/// since no rank has a command yet. After that only the whole text is answered, with the end of its last line and without it.
#[test]
fn prefixes(rt: HostRuntime) -> Result<(), Fail> {
    let (text, _) = STARTS_OUT_OF_ORDER;
    let answered = answered_prefixes(rt.alloc(), text)?.ok_or("each prefix is judged")?;
    let whole = text.len();
    assert!(rt; answered.as_slice() == [7, 8, 14, 15, whole - 1, whole].as_slice());
    Ok(())
}
