//! What is timed.

use coll_kinds::{Datatype, Kind, Mode, Op, Signature};
use std::fmt;
use std::fmt::Write;

/// What each rank does, over and over.
#[derive(Clone, Copy, Debug, PartialEq, Eq)]
pub enum Measure {
    Barrier,
    SmallAllreduce,
    /// Starts of one persistent allreduce, one after the other.
    Starts,
    /// Many allreduces that are posted before the first is waited for.
    Outstanding,
    ShortBcast,
    LongBcast,
    LongAllreduce,
    ShortAllreduce,
    ShortAllgather,
    LongAllgather,
}

impl Measure {
    /// All measures, in the order in which they are run.
    pub const ALL: [Measure; 10] = [
        Measure::Barrier,
        Measure::SmallAllreduce,
        Measure::Starts,
        Measure::Outstanding,
        Measure::ShortBcast,
        Measure::LongBcast,
        Measure::LongAllreduce,
        Measure::ShortAllreduce,
        Measure::ShortAllgather,
        Measure::LongAllgather,
    ];

    /// The signature of the collective.
    pub fn signature(self) -> Signature {
        let (kind, ty, count) = match self {
            Measure::Barrier => (Kind::Barrier, Datatype::Byte, 0),
            Measure::SmallAllreduce | Measure::Starts | Measure::Outstanding => {
                (Kind::Allreduce, Datatype::I32, 1)
            }
            Measure::ShortBcast => (Kind::Bcast, Datatype::Byte, 65_536),
            Measure::LongBcast => (Kind::Bcast, Datatype::I64, 65_536),
            Measure::LongAllreduce => (Kind::Allreduce, Datatype::I64, 65_536),
            Measure::ShortAllreduce => (Kind::Allreduce, Datatype::I64, 8_192),
            Measure::ShortAllgather => (Kind::Allgather, Datatype::Byte, 65_536),
            Measure::LongAllgather => (Kind::Allgather, Datatype::I64, 65_536),
        };
        Signature {
            kind,
            mode: match self {
                Measure::Starts => Mode::Persistent,
                _ => Mode::Once,
            },
            root: 0,
            op: if kind.has_operation() {
                Some(Op::Sum)
            } else {
                None
            },
            ty,
            count,
            each: None,
        }
    }

    /// How many samples are taken. The trace keeps the bytes of each post and each outcome, so long collectives have
    /// few.
    pub fn samples(self) -> u32 {
        match self {
            Measure::Barrier | Measure::SmallAllreduce | Measure::Starts => 60,
            Measure::Outstanding => 20,
            Measure::ShortBcast | Measure::ShortAllreduce => 60,
            Measure::LongBcast | Measure::LongAllreduce | Measure::ShortAllgather => 20,
            Measure::LongAllgather => 10,
        }
    }

    /// How many slots the engine has: a few more than there are live requests at one time, as a program with such a load would
    /// open it. Slots are given out in turn, so the more there are, the longer ago a request's memory was used last.
    pub fn slots(self, ranks: u8) -> u32 {
        match self {
            Measure::Outstanding => 4_096,
            _ => 4 * u32::from(ranks),
        }
    }

    /// How many collectives a sample has: each rank's live requests are at most this number at one time.
    pub fn turns(self, ranks: u8) -> u32 {
        match self {
            Measure::Barrier | Measure::SmallAllreduce | Measure::Starts => 200,
            Measure::Outstanding if ranks > 4 => 500,
            Measure::Outstanding => 1_000,
            Measure::ShortBcast | Measure::ShortAllreduce => 5,
            Measure::LongBcast
            | Measure::LongAllreduce
            | Measure::ShortAllgather
            | Measure::LongAllgather => 1,
        }
    }
}

impl fmt::Display for Measure {
    fn fmt<W: Write>(&self, f: &mut fmt::Formatter<W>) -> fmt::Result {
        f.write_str(match self {
            Measure::Barrier => "barrier",
            Measure::SmallAllreduce => "allreduce of one i32",
            Measure::Starts => "persistent allreduce of one i32",
            Measure::Outstanding => "outstanding allreduces of one i32",
            Measure::ShortBcast => "bcast of 64 KiB",
            Measure::LongBcast => "bcast of 512 KiB",
            Measure::LongAllreduce => "allreduce of 512 KiB",
            Measure::ShortAllreduce => "allreduce of 64 KiB",
            Measure::ShortAllgather => "allgather of 64 KiB",
            Measure::LongAllgather => "allgather of 512 KiB",
        })
    }
}
