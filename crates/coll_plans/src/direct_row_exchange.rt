ghost use Rattle.std.specs.Prelude.{◌≡◌, ◌++◌, ◌<◌, ◌≤◌, ◌^◌, IfOk, OnOk, IsOkUnless};
ghost use Rattle.coll_kinds.specs.Lengths.{row_len, total};
ghost use Rattle.coll_plans.specs.declared.direct_pattern.Pattern.TheVariants.{ToAll};
ghost use Rattle.coll_plans.specs.DirectExchange.{sends, recvs};
ghost use Rattle.coll_plans.specs.DirectFamilies.{own_row, row_at, row_exchange};

use crate::direct_pattern::Pattern;
use coll_kinds::{Refusal, Signature};
use coll_sched::{Action, Region, Round};
use std::alloc::Global;

/// The round in which member `r` of an allgatherv sends its row, which lies at `own`, to each other member, copies it to
/// its place among all rows, and receives the others. All rows lie packed at the front, in member order. The cost is
/// linear in `n`.
pub(crate) fn row_exchange(
    alloc: Global,
    sig: &Signature,
    n: u8,
    r: u8,
    own: Region,
) -> Result<Round, Refusal>
    requires member { r < n }
    requires few { n ≤ 64 }
    requires small { total (row_len sig.now) n ≤ 2 ^ 24 }
    requires own { own ≡ own_row (row_len sig.now) n r }
    ensures ok { IfOk result (λ round. round ≡ row_exchange (row_len sig.now) n r) }
    ensures refusal { IsOkUnless result Refusal.NoMemory }
{
    let mut round = Round::with_capacity(alloc, Pattern::ToAll.most_actions(n, r))?;
    push_sends(own, n, r, &mut round)?;
    let into = Region {
        at: sig.rows_len(r) as u32,
        len: own.len,
    };
    round.push(Action::Copy { from: own, into })?;
    push_recvs(sig, n, r, &mut round)?;
    Ok(round)
}

// Sends the row of member r, which lies at `own`, to each other member.
fn push_sends(own: Region, n: u8, r: u8, round: &mut Round) -> Result<(), Refusal>
    ensures ok { OnOk result (round.new ≡ round.old ++ sends ToAll (λ p. own) r 0 n) }
    ensures refusal { IsOkUnless result Refusal.NoMemory }
{
    for p in 0..n {
        if Pattern::ToAll.crosses(r, p) {
            round.push(Action::Send { to: p, from: own })?;
        }
    }
    Ok(())
}

// Receives the row of each other member, which begins where the rows of those before it end.
fn push_recvs(sig: &Signature, n: u8, r: u8, round: &mut Round) -> Result<(), Refusal>
    requires { total (row_len sig.now) n ≤ 2 ^ 24 }
    ensures ok { OnOk result (round.new ≡ round.old ++ recvs ToAll (row_at (row_len sig.now)) r 0 n) }
    ensures refusal { IsOkUnless result Refusal.NoMemory }
{
    let mut at = 0;
    for q in 0..n {
        let len = sig.row_len(q) as u32;
        if Pattern::ToAll.crosses(q, r) {
            round.push(Action::Recv {
                of: q,
                into: Region { at, len },
            })?;
        }
        at += len;
    }
    Ok(())
}
