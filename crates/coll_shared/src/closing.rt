ghost use Rattle.std.specs.Prelude.{◌≡◌, ◌<◌, ℕ, length, sum_by, vec_len, IfErr, IfOk};
ghost use Rattle.coll_traced.specs.Closings.{AreEnds, IsBalanced, IsObjected};

use crate::engine::Engine;
use coll_kinds::{Refusal, Refused};
use coll_report::Report;
use coll_traced::{Entries, Spent};
use std::sync::Wait;
use std::sync::ledger::Share;

/// Closes an engine whose ports have ended, and returns the report of all calls that it accepted.
/// Idle requests may remain. `spents` are the ends of the ports, in any order. The close holds the
/// lock once for all of this, so the state that it checks is the state that it takes.
///
/// # Errors
///
/// StillActive with the lowest rank that has an active request. Else Torn, unless `spents` are the
/// ends of all ports of this engine. The engine and the ends are handed back.
pub fn close<L: Entries, R: Wait>(
    rt: &R,
    engine: Engine<L>,
    spents: Vec<Spent<L>>,
) -> Result<Report, Refused<(Engine<L>, Vec<Spent<L>>)>>
    requires { L.parts ≡ L.setting.ranks }
    ensures all { IfOk result (λ report. report.setting ≡ L.setting) }
    ensures idle { IfOk result (λ report. (r : ℕ) → r < L.setting.ranks → IsBalanced r report.entries) }
    ensures each { IfOk result (λ report. AreEnds L.setting.ranks report.entries spents.items) }
    ensures total { IfOk result (λ report. sum_by (λ spent. spent.1) spents.items ≡ length report.entries) }
    ensures back { IfErr result (λ refused. refused.back.1 ≡ spents) }
    ensures refused { IfErr result (λ refused. IsObjected L.setting spents.items refused.why) }
{
    let Engine {
        combiner,
        replacement,
    } = engine;
    let mut held = combiner.enter(rt);
    if let Some(why) = held.locked.traced.objection(&spents) {
        combiner.release(held);
        let engine = Engine {
            combiner,
            replacement,
        };
        return Err(Refused {
            why,
            back: (engine, spents),
        });
    }
    let mut all = merged(spents);
    let report = held.locked.traced.take_report(replacement, &mut all);
    combiner.release(held);
    Ok(report)
}

/// Joins the shares of all ports into one.
fn merged<L: Entries>(mut spents: Vec<Spent<L>>) -> Share<L>
    requires { 0 < vec_len spents }
    ensures parts { result.parts ≡ vec_len spents }
    ensures amount { result.amount ≡ sum_by (λ spent. spent.1) spents.items }
{
    let Some(last) = spents.pop() else {
        unreachable!()
    };
    let mut all = last.into_share();
    while let Some(spent) = spents.pop() {
        all.merge(spent.into_share());
    }
    all
}
