ghost use Rattle.std.specs.Prelude.{◌≡◌, ◌≤◌, [], length};
ghost use Rattle.coll_sched.specs.Families.{laid_in};
ghost use Rattle.coll_sched.specs.Regions.{Inside, written};

use coll_bytes::{FEW, copy_few};
use coll_sched::{Region, Schedule};
use std::marker::Model;

/// The bytes of a buffer of up to `FEW` bytes, in place.
#[derive(Debug, Drop)]
pub(crate) struct Row {
    /// An empty array, which aligns the bytes as words, so that they are moved as words.
    words: [u64; 0],
    row: [u8; FEW],
    len: u8,
}

impl Model for Row {
    ghost use Rattle.std.specs.Prelude.{List, ℕ, ◌≤◌, length, take};
    ghost use Rattle.coll_bytes.specs.declared.bytes.TheConstants.{FEW};

    ghost Value = { List ℕ };

    ghost view = { λ r. take r.len r.row };

    ghost invariant = { λ r. (r.len ≤ FEW) × (r.len ≤ length r.row) };
}

/// Writes a few bytes into a region.
#[inline(always)]
fn write_few(into: Region, bytes: &[u8], buf: &mut [u8])
    requires inside { Inside (length buf.old) into }
    requires same { length bytes.now ≡ into.len }
    ensures { buf.new ≡ written buf.old into bytes.now }
{
    let at = into.at as usize;
    copy_few(bytes, &mut buf[at..at + bytes.len()]);
}

impl Row {
    /// Returns an empty row.
    pub(crate) fn empty() -> Row
        ensures { result ≡ [] }
    {
        Row {
            words: [],
            row: [0; FEW],
            len: 0,
        }
    }

    /// Makes the schedule's buffer: the contribution in its input region, zeros elsewhere.
    #[inline(always)]
    pub(crate) fn lay_in(schedule: &Schedule, bytes: &[u8]) -> Row
        requires few { schedule.now.size ≤ FEW }
        requires input { length bytes.now ≡ schedule.now.input.len }
        ensures { result ≡ laid_in schedule.now bytes.now }
    {
        let len = schedule.size() as u8;
        let mut row = [0; FEW];
        schedule.lay_in_again(bytes, &mut row[..len as usize]);
        Row {
            words: [],
            row,
            len,
        }
    }

    /// Replaces a region's bytes.
    #[inline(always)]
    pub(crate) fn write(&mut self, into: Region, bytes: &[u8])
        requires inside { Inside (length self.old) into }
        requires same { length bytes.now ≡ into.len }
        ensures { self.new ≡ written self.old into bytes.now }
    {
        write_few(into, bytes, &mut self.row[..self.len as usize]);
    }

    /// Returns the bytes.
    #[inline(always)]
    pub(crate) fn as_slice(&self) -> &[u8]
        ensures value { result.now ≡ self.now }
        ensures few { length self.now ≤ FEW }
    {
        &self.row[..self.len as usize]
    }
}
