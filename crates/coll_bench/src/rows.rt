use coll_kinds::{Datatype, Op};
use coll_ops::combine;
use std::alloc::{AllocError, Global};

/// Two rows of bytes that are mixed well, and a third for their combination.
#[derive(Drop)]
pub(crate) struct MixedRows {
    left: Vec<u8>,
    right: Vec<u8>,
    out: Vec<u8>,
}

impl MixedRows {
    /// Rows of this number of blocks of eight bytes.
    pub(crate) fn new(alloc: Global, blocks: u32) -> Result<Self, AllocError> {
        Ok(MixedRows {
            left: row(alloc, blocks, 1)?,
            right: row(alloc, blocks, 2)?,
            out: row(alloc, blocks, 3)?,
        })
    }

    /// Combines the rows once, and returns the checksum of the result.
    pub(crate) fn combine(&mut self, op: Op, ty: Datatype) -> u32 {
        self.turn(op, ty);
        self.checksum()
    }

    /// Combines the rows once, and changes the left one by the result, so that each turn differs from the one before.
    pub(crate) fn turn(&mut self, op: Op, ty: Datatype) {
        if !op.is_allowed_on(ty)
            || self.right.len() != self.left.len()
            || self.out.len() != self.left.len()
            || self.left.len() % ty.width() != 0
        {
            return;
        }
        combine(op, ty, &self.left, &self.right, &mut self.out);
        if let (Some(first), Some(last)) = (self.left.first_mut(), self.out.last()) {
            *first ^= *last;
        }
    }

    /// A number that depends on every byte of the result.
    pub(crate) fn checksum(&self) -> u32 {
        let mut sum = 0u32;
        for byte in &self.out {
            sum = sum.wrapping_mul(31).wrapping_add(u32::from(*byte));
        }
        sum
    }
}

/// A row of this number of blocks of eight bytes, made from the seed by a linear congruence.
fn row(alloc: Global, blocks: u32, seed: u64) -> Result<Vec<u8>, AllocError> {
    let mut row = Vec::new(alloc);
    let mut x = seed;
    for _ in 0..blocks {
        x = x
            .wrapping_mul(6_364_136_223_846_793_005)
            .wrapping_add(1_442_695_040_888_963_407);
        row.extend_from_slice(&x.to_be_bytes())?;
    }
    Ok(row)
}
