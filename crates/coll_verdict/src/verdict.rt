ghost use Rattle.std.specs.Prelude.{◌≡◌, IsTrue, IfOk};
ghost use Rattle.coll_parser.specs.Code.{rows_view};
ghost use Rattle.coll_verdict.specs.Code.{AlwaysFor, AreStood, NeverFor};
ghost use Rattle.coll_verdict.specs.Stalls.{StallsAlways, StallsNever};

use crate::checking::{all_stay, one_is_short};
use crate::giving::all_issue;
use crate::library::Library;
use crate::order::{are_apart, are_at_beginnings, are_at_ends, pass};
use crate::stood::{Stood, stand_all};
use crate::view::View;
use coll_parser::History;
use std::alloc::{AllocError, Global};

/// Whether these stands, one for each rank, show that no run of the job comes to its end, with whatever library. A stand
/// is how many of its commands a rank carries out at most, the unwritten `waitall` at its end among them. Where they show
/// nothing, nothing is known of the job; so it is where a contribution is empty, for which a library needn't wait. For each
/// request that a rank's next command names, the cost is linear in the requests of all ranks.
pub fn always_stalls(alloc: Global, history: &History, stands: &[usize]) -> Result<bool, AllocError>
    ensures { IfOk result (λ is_shown. IsTrue is_shown → StallsAlways history.now) }
{
    always_stalls_by(alloc, history, stands, &Library::Any)
}

/// The same of the runs with such a library, which waits for empty contributions too. The cost is linear in its tables too.
pub fn always_stalls_by(
    alloc: Global,
    history: &History,
    stands: &[usize],
    library: &Library,
) -> Result<bool, AllocError>
    ensures { IfOk result (λ is_shown. IsTrue is_shown → AlwaysFor library.now history.now) }
{
    match stand_all(alloc, history, stands)? {
        Some(ranks) => Ok(are_final(library, history, history.groups(), &ranks)),
        None => Ok(false),
    }
}

/// Whether no rank can go on from its stand, one isn't at its end, and no empty contribution is one for which a library needn't
/// wait.
fn are_final(library: &Library, history: &History, groups: &[Vec<u8>], ranks: &[Stood]) -> bool
    requires stood { AreStood history.now ranks.now }
    requires same { rows_view groups.now ≡ history.now.groups }
    ensures { IsTrue result → AlwaysFor library.now history.now }
{
    if !all_issue(library, groups, history.commands()) {
        return false;
    }
    let view = View {
        library,
        ranks,
        groups,
    };
    one_is_short(ranks) && all_stay(&view)
}

/// Whether this order of ranks shows that no run of the job stalls, with whatever library: each time that a rank is named it
/// carries its next command out, and none waits. Where it shows nothing, nothing is known of the job. For each request that
/// a command waits for, the cost is linear in the members; for each that is made, in those that its rank made before.
pub fn never_stalls(alloc: Global, history: &History, order: &[u8]) -> Result<bool, AllocError>
    ensures { IfOk result (λ is_shown. IsTrue is_shown → StallsNever history.now) }
{
    never_stalls_by(alloc, history, order, &Library::Any)
}

/// The same of the runs with such a library. The cost is linear in its tables too.
pub fn never_stalls_by(
    alloc: Global,
    history: &History,
    order: &[u8],
    library: &Library,
) -> Result<bool, AllocError>
    ensures { IfOk result (λ is_shown. IsTrue is_shown → NeverFor library.now history.now) }
{
    let stands = vec![in alloc; 0usize; history.ranks() as usize]?;
    match stand_all(alloc, history, &stands)? {
        Some(ranks) => all_pass(library, history, history.groups(), ranks, order),
        None => Ok(false),
    }
}

/// Whether these ranks, each at its beginning, come to their ends in that order.
fn all_pass(
    library: &Library,
    history: &History,
    groups: &[Vec<u8>],
    mut ranks: Vec<Stood>,
    order: &[u8],
) -> Result<bool, AllocError>
    requires stood { AreStood history.now ranks.items }
    requires same { rows_view groups.now ≡ history.now.groups }
    ensures { IfOk result (λ is_shown. IsTrue is_shown → NeverFor library.now history.now) }
{
    if !are_apart(groups) {
        return Ok(false);
    }
    if !are_at_beginnings(&ranks) {
        return Ok(false);
    }
    for rank in order {
        if !pass(library, &mut ranks, groups, *rank)? {
            return Ok(false);
        }
    }
    Ok(are_at_ends(&ranks))
}
