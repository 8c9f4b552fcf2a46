//! Principle: a direct exchange. In one round each member sends straight to each member that it has bytes for, copies what it
//! has for itself, and receives of each that has bytes for it. Gather, scatter, alltoall and reduce-scatter of equal blocks
//! use it; `direct_row_exchange` is the same of rows that differ in length, for allgatherv.
//!
//! Rounds: one, which is an exchange if there are two members. A reduce-scatter adds n - 1 of a member's own, which combine.
//! Messages: n - 1 together for gather and scatter, each of a block's B bytes, and n (n - 1) for the others.
//!
//! Cost, with a latency L for each exchange and G for each byte: L + (n - 1) B G for a member that sends to all or receives
//! of all.

ghost use Rattle.std.specs.Prelude.{◌≡◌, ◌++◌, ◌<◌, ◌≤◌, ◌^◌, IfOk, OnOk, IsOkUnless};

use crate::direct_blocks::Blocks;
use crate::direct_pattern::Pattern;
use coll_kinds::Refusal;
use coll_sched::{Action, Round};
use std::alloc::Global;

/// One round in which each member sends straight to those whom its bytes are for.
#[derive(Clone, Copy, Debug)]
pub(crate) struct Exchange {
    pub pattern: Pattern,
    /// What a member gives, by receiver.
    pub from: Blocks,
    /// What it gets, by sender.
    pub into: Blocks,
    /// How many members there are.
    pub n: u8,
    ghost few: { n ≤ 64 },
    ghost from_near: { from.at < 2 ^ 31 },
    ghost from_short: { from.step ≤ 2 ^ 24 },
    ghost into_near: { into.at < 2 ^ 31 },
    ghost into_short: { into.step ≤ 2 ^ 24 },
}

impl Exchange {
    ghost use Rattle.coll_plans.specs.DirectExchange.{place, sends, keeps, recvs, exchange};

    /// The round of member `r`: its sends, in the order of their receivers, the copy of what it keeps, and its
    /// receives, in the order of their senders.
    pub fn round(self, alloc: Global, r: u8) -> Result<Round, Refusal>
        requires { r < self.n }
        ensures ok { IfOk result (λ round. round ≡ exchange self.pattern self.from self.into self.n r) }
        ensures refusal { IsOkUnless result Refusal.NoMemory }
    {
        let mut round = Round::with_capacity(alloc, self.pattern.most_actions(self.n, r))?;
        self.push_sends(r, &mut round)?;
        self.push_kept(r, &mut round)?;
        self.push_recvs(r, &mut round)?;
        Ok(round)
    }

    fn push_sends(self, r: u8, round: &mut Round) -> Result<(), Refusal>
        ensures ok { OnOk result (round.new ≡ round.old ++ sends self.pattern (place self.from) r 0 self.n) }
        ensures refusal { IsOkUnless result Refusal.NoMemory }
    {
        for p in 0..self.n {
            if self.pattern.crosses(r, p) {
                round.push(Action::Send {
                    to: p,
                    from: self.from.place(p),
                })?;
            }
        }
        Ok(())
    }

    fn push_kept(self, r: u8, round: &mut Round) -> Result<(), Refusal>
        requires { r < self.n }
        ensures ok { OnOk result (round.new ≡ round.old ++ keeps self.pattern (place self.from) (place self.into) r) }
        ensures refusal { IsOkUnless result Refusal.NoMemory }
    {
        if self.pattern.carries(r, r) {
            round.push(Action::Copy {
                from: self.from.place(r),
                into: self.into.place(r),
            })?;
        }
        Ok(())
    }

    fn push_recvs(self, r: u8, round: &mut Round) -> Result<(), Refusal>
        ensures ok { OnOk result (round.new ≡ round.old ++ recvs self.pattern (place self.into) r 0 self.n) }
        ensures refusal { IsOkUnless result Refusal.NoMemory }
    {
        for q in 0..self.n {
            if self.pattern.crosses(q, r) {
                round.push(Action::Recv {
                    of: q,
                    into: self.into.place(q),
                })?;
            }
        }
        Ok(())
    }
}
