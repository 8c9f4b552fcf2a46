//! For whom the requests of a job wait in this engine, as tables by which a verdict is checked.

ghost use Rattle.std.specs.Prelude.{◌≤◌, IfOk};
ghost use Rattle.coll_verdict.specs.Code.{AreAllTrue, AreTrue};
ghost use Rattle.coll_plans.specs.Hearings.{hears_here};

use crate::collectives::Collective;
use crate::hearing::heard;
use coll_kinds::{MAX_RANKS, Refusal, Signature};
use coll_verdict::HeardRows;
use std::alloc::Global;

/// The table of each of these collectives, in their order. For each the cost is linear in its members and in the actions of all their
/// schedules.
///
/// # Errors
///
/// `NoMemory`, and what `plan` of `coll_plans` refuses.
pub fn tables_of(alloc: Global, collectives: &[Collective]) -> Result<Vec<HeardRows>, Refusal>
    ensures { IfOk result (λ tables. AreAllTrue hears_here tables.items) }
{
    let mut tables = Vec::new(alloc);
    for collective in collectives {
        let size = collective.size.min(MAX_RANKS as u8);
        tables.push(table_of(alloc, collective.sig, size)?)?;
    }
    Ok(tables)
}

/// The table of a collective among `n` members.
fn table_of(alloc: Global, sig: Signature, n: u8) -> Result<HeardRows, Refusal>
    requires { n ≤ 64 }
    ensures { IfOk result (AreTrue hears_here) }
{
    let rows = heard(alloc, sig, n)?;
    Ok(HeardRows { sig, rows })
}
