//! The rounds of a barrier.

use coll_kinds::{Datatype, Kind, Mode, Op, Signature};
use coll_plans::barrier;
use coll_sched::{Action, Region, Round};
use std::test::Fail;

pub const BARRIER: Signature = Signature {
    kind: Kind::Barrier,
    mode: Mode::Once,
    root: 0,
    op: None,
    ty: Datatype::Byte,
    count: 0,
    each: None,
};

// The rounds of member 0 of three: it sends to member 1 and receives from member 2, and then sends to member 2 and receives from member 1.
const BARRIER_ROUNDS: &[&[Action]] = &[
    &[
        Action::Send {
            to: 1,
            from: Region::EMPTY,
        },
        Action::Recv {
            of: 2,
            into: Region::EMPTY,
        },
    ],
    &[
        Action::Send {
            to: 2,
            from: Region::EMPTY,
        },
        Action::Recv {
            of: 1,
            into: Region::EMPTY,
        },
    ],
];

/// Whether the rounds of a schedule have these actions.
pub fn are_rounds(rounds: &[Round], want: &[&[Action]]) -> bool {
    if rounds.len() != want.len() {
        return false;
    }
    for (round, actions) in rounds.iter().zip(want.iter()) {
        if round.actions() != *actions {
            return false;
        }
    }
    true
}

#[test]
fn barrier_rounds(rt: HostRuntime) -> Result<(), Fail> {
    let schedule = barrier(rt.alloc(), BARRIER, 3, 0)?;
    assert!(rt; are_rounds(schedule.rounds(), BARRIER_ROUNDS));
    Ok(())
}
