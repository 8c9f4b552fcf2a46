//! Runs `combine` over every operation and type, on rows of 1 MiB, and prints a checksum of each result; or times 256 turns of
//! each on rows of 64 KiB, in microseconds. `bench/combine.py` compares both with the same loops in C, whose checksums are also
//! stored beside this program.

use crate::rows::MixedRows;
use coll_kinds::{Datatype, Op};
use std::time::Instant;

/// How often each operation is timed.
const TURNS: u32 = 256;

/// Blocks of eight bytes in a row of 64 KiB, and of 1 MiB.
const TIMED_BLOCKS: u32 = 8_192;

const LONG_BLOCKS: u32 = 131_072;

/// Runs each operation on each type that it is allowed on.
pub fn run(rt: &HostRuntime, is_timed: bool) -> anyhow::Result<()> {
    for op in Op::ALL {
        for ty in Datatype::ALL {
            if op.is_allowed_on(ty) && is_timed {
                time(rt, op, ty)?;
            } else if op.is_allowed_on(ty) {
                show(rt, op, ty)?;
            }
        }
    }
    Ok(())
}

/// Prints the checksum of one combination of long rows.
fn show(rt: &HostRuntime, op: Op, ty: Datatype) -> anyhow::Result<()> {
    let checksum = MixedRows::new(rt.alloc(), LONG_BLOCKS)?.combine(op, ty);
    println!(rt; "{op} {ty} {checksum}")?;
    Ok(())
}

/// Prints the checksum of one combination, the time of many, and the checksum after them.
fn time(rt: &HostRuntime, op: Op, ty: Datatype) -> anyhow::Result<()> {
    let mut rows = MixedRows::new(rt.alloc(), TIMED_BLOCKS)?;
    let checksum = rows.combine(op, ty);
    let start = Instant::now(rt)?;
    for _ in 0..TURNS {
        rows.turn(op, ty);
    }
    let took = start.elapsed(rt)?;
    println!(rt;
        "{op} {ty} {checksum} {} {}",
        took.as_micros(),
        rows.checksum()
    )?;
    Ok(())
}
