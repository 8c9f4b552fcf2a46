//! Which schedules of one member are accepted.

use coll_kinds::{Datatype, Op, Refusal};
use coll_sched::{Action, Region, Round, Schedule};
use std::alloc::Global;
use std::test::Fail;

/// A region: where it begins, and its length.
pub type BufferPart = (u32, u32);

/// An action in a short form.
#[derive(Clone, Copy)]
pub enum Short {
    Send(u8, BufferPart),
    Copy(BufferPart, BufferPart),
    /// A sum of that type, of a left and a right operand, into a place.
    Sum(Datatype, BufferPart, BufferPart, BufferPart),
    Recv(u8, BufferPart),
}

pub fn region((at, len): BufferPart) -> Region {
    Region { at, len }
}

pub fn action(short: Short) -> Action {
    match short {
        Short::Send(to, from) => Action::Send {
            to,
            from: region(from),
        },
        Short::Copy(from, into) => Action::Copy {
            from: region(from),
            into: region(into),
        },
        Short::Sum(ty, left, right, into) => Action::Combine {
            op: Op::Sum,
            ty,
            left: region(left),
            right: region(right),
            into: region(into),
        },
        Short::Recv(of, into) => Action::Recv {
            of,
            into: region(into),
        },
    }
}

/// A round of these actions.
pub fn round_of(alloc: Global, shorts: &[Short]) -> Result<Round, Refusal> {
    let mut round = Round::with_capacity(alloc, shorts.len())?;
    for short in shorts {
        round.push(action(*short))?;
    }
    Ok(round)
}

/// A schedule of two rounds, the first of them empty; None if it isn't accepted.
pub fn schedule_of(
    alloc: Global,
    size: u32,
    (input, output): (BufferPart, BufferPart),
    shorts: &[Short],
) -> Result<Option<Schedule>, Refusal> {
    let round = round_of(alloc, shorts)?;
    let mut rounds = Vec::new(alloc);
    rounds.push(Round::new(alloc))?;
    rounds.push(round)?;
    Ok(Schedule::of_rounds(size, region(input), region(output), rounds))
}

/// The number of a buffer's bytes, its input and its output, the actions of a round, and whether the schedule is accepted.
type ScheduleRow = (u32, (BufferPart, BufferPart), &'static [Short], bool);

/// The whole of a buffer of four bytes.
const FOUR: BufferPart = (0, 4);

/// Four bytes from byte 2 on, which don't fit into a buffer of four.
const PAST: BufferPart = (2, 4);

const ENDS: (BufferPart, BufferPart) = ((0, 4), (28, 4));

const ROWS: &[ScheduleRow] = &[
    (4, (FOUR, FOUR), &[Short::Send(1, FOUR)], true),
    (4, (PAST, FOUR), &[Short::Send(1, FOUR)], false),
    (4, (FOUR, PAST), &[Short::Send(1, FOUR)], false),
    (4, (FOUR, FOUR), &[Short::Send(1, PAST)], false),
    (
        32,
        ENDS,
        &[Short::Recv(0, (0, 4)), Short::Send(1, (4, 4))],
        false,
    ),
    (
        32,
        ENDS,
        &[Short::Send(1, (0, 4)), Short::Send(1, (4, 4))],
        false,
    ),
    (32, ENDS, &[Short::Copy((2, 4), (30, 4))], false),
    (
        32,
        ENDS,
        &[Short::Sum(Datatype::I32, (0, 4), (4, 4), (0, 4))],
        true,
    ),
];

/// The index of the first row that is accepted although it says otherwise, or isn't although it should be; None if there is none.
fn first_misfit(alloc: Global, rows: &[ScheduleRow]) -> Result<Option<usize>, Refusal> {
    for (index, (size, ends, shorts, accepted)) in rows.iter().enumerate() {
        if schedule_of(alloc, *size, *ends, shorts)?.is_some() != *accepted {
            return Ok(Some(index));
        }
    }
    Ok(None)
}

#[test]
fn schedules_refused(rt: HostRuntime) -> Result<(), Fail> {
    assert!(rt; first_misfit(rt.alloc(), ROWS)?.is_none());
    Ok(())
}
