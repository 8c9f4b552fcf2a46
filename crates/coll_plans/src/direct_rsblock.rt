ghost use Rattle.std.specs.Prelude.{◌≡◌, ◌++◌, ◌-◌, ◌<◌, ◌≤◌, ◌^◌, None, IfOk, OnOk, IsOkUnless};
ghost use Rattle.coll_kinds.specs.declared.kind.Kind.TheVariants.{Rsblock};
ghost use Rattle.coll_kinds.specs.Checks.{broken};
ghost use Rattle.coll_trees.specs.Columns.{rounds_of};
ghost use Rattle.coll_plans.specs.DirectFamilies.{IsDirectFor, combines_below, combine_at, rsblock_family};
ghost use Rattle.coll_trees.specs.Depths.{direct_bound};

use crate::direct_blocks::Blocks;
use crate::direct_exchange::Exchange;
use crate::direct_pattern::Pattern;
use crate::layout::{all_blocks, all_bytes, block_bytes, first_round};
use coll_kinds::{Datatype, Op, Refusal, Signature};
use coll_sched::{Action, Region, Round, Schedule};
use std::alloc::Global;

/// Member `r`'s schedule of a reduce-scatter of equal blocks among `n` members (MPI 4.1, 6.10.1): each sends each its
/// block in one round, in which it also copies its own, and then combines the n blocks that it got in n - 1
/// local rounds, in member order. They lie after the n blocks that it gives. Refuses [`Refusal::NoMemory`]
/// alone.
pub fn rsblock(alloc: Global, sig: Signature, n: u8, r: u8) -> Result<Schedule, Refusal>
    requires kind { sig.kind ≡ Rsblock }
    requires checked { broken sig n ≡ None }
    requires member { r < n }
    requires few { n ≤ 64 }
    ensures schedule { IfOk result (λ s. s ≡ rsblock_family sig n r) }
    ensures family { IsDirectFor sig n (rsblock_family sig n) (direct_bound n) }
    ensures refusal { IsOkUnless result Refusal.NoMemory }
{
    let Some(op) = sig.op else { unreachable!() };
    let len = block_bytes(sig, n);
    let half = all_bytes(n, len);
    let got = Blocks::each(half, len);
    let exchange = Exchange {
        pattern: Pattern::ToAll,
        from: Blocks::each(0, len),
        into: got,
        n,
    };
    let round = exchange.round(alloc, r)?;
    let mut rounds = first_round(alloc, usize::from(n), round)?;
    push_combines(alloc, op, sig.ty, got, n, &mut rounds)?;
    let input = all_blocks(0, n, len);
    let output = Region { at: half, len };
    Ok(Schedule::of_lawful_rounds(half + half, input, output, rounds))
}

// Appends the rounds that combine n blocks, from the last one down to the first, which are alike at all members.
fn push_combines(
    alloc: Global,
    op: Op,
    ty: Datatype,
    blocks: Blocks,
    n: u8,
    rounds: &mut Vec<Round>,
) -> Result<(), Refusal>
    requires some { 0 < n }
    requires few { n ≤ 64 }
    requires near { blocks.at < 2 ^ 31 }
    requires short { blocks.step ≤ 2 ^ 24 }
    ensures ok { OnOk result (rounds.new.items ≡ rounds.old.items ++ rounds_of (combines_below op ty blocks (n - 1)) 0) }
    ensures refusal { IsOkUnless result Refusal.NoMemory }
{
    for done in 1..n {
        let round = combine_at(alloc, op, ty, blocks, n - 1 - done)?;
        rounds.push(round)?;
    }
    Ok(())
}

// The round that combines block k with the one after it.
fn combine_at(alloc: Global, op: Op, ty: Datatype, blocks: Blocks, k: u8) -> Result<Round, Refusal>
    requires few { k < 63 }
    requires near { blocks.at < 2 ^ 31 }
    requires short { blocks.step ≤ 2 ^ 24 }
    ensures ok { IfOk result (λ round. round ≡ combine_at op ty blocks k 0) }
    ensures refusal { IsOkUnless result Refusal.NoMemory }
{
    let block = blocks.place(k);
    let mut round = Round::new(alloc);
    round.push(Action::Combine {
        op,
        ty,
        left: block,
        right: blocks.place(k + 1),
        into: block,
    })?;
    Ok(round)
}
