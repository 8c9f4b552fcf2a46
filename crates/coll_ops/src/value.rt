ghost use Rattle.std.specs.Prelude.{◌≡◌, ◌<◌, ◌≤◌, ◌+◌, length, map, unwrap_or, None, IfOk, IsTrue, IsOkUnless};
ghost use Rattle.std.specs.List.{flat_map};
ghost use Rattle.coll_kinds.specs.Checks.{broken, reduces};
ghost use Rattle.coll_kinds.specs.Lengths.{block_len};
ghost use Rattle.coll_ops.specs.Combinations.{combination};
ghost use Rattle.coll_ops.specs.Contributions.{rows_of, AreGiven, HaveParts};
ghost use Rattle.coll_ops.specs.Values.{part, all_rows, value};

use crate::rows::combine;
use coll_kinds::{Datatype, Kind, Op, Refusal, Signature};
use std::alloc::Global;
use std::mem;

/// The value of a collective at member `r` of `n`, computed directly from what all members gave,
/// in member order, with no rounds and no messages (MPI 4.1, 6.4 to 6.11). Refuses
/// [`Refusal::NoMemory`] alone. The cost is linear in the bytes that the value is made of.
pub fn plain_value(
    alloc: Global,
    sig: Signature,
    n: u8,
    given: &[Vec<u8>],
    r: u8,
) -> Result<Vec<u8>, Refusal>
    requires checked { broken sig n ≡ None }
    requires member { r < n }
    requires given { AreGiven sig n (rows_of given.now) }
    ensures ok { IfOk result (λ bytes. bytes.items ≡ value sig (rows_of given.now) r) }
    ensures refusal { IsOkUnless result Refusal.NoMemory }
{
    let block = sig.block_len();
    let own = usize::from(r) * block;
    let root = usize::from(sig.root);
    match sig.kind {
        Kind::Barrier => Ok(Vec::new(alloc)),
        Kind::Bcast => Ok(Vec::from_slice(alloc, part(&given[root], 0, block))?),
        Kind::Gather => {
            if r == sig.root {
                joined(alloc, given, 0, block)
            } else {
                Ok(Vec::new(alloc))
            }
        }
        Kind::Scatter => Ok(Vec::from_slice(alloc, part(&given[root], own, block))?),
        Kind::Allgather => joined(alloc, given, 0, block),
        Kind::Allgatherv => whole(alloc, given),
        Kind::Alltoall => joined(alloc, given, own, block),
        Kind::Reduce => {
            if r == sig.root {
                combined(alloc, sig, given, 0)
            } else {
                Ok(Vec::new(alloc))
            }
        }
        Kind::Allreduce => combined(alloc, sig, given, 0),
        Kind::Rsblock => combined(alloc, sig, given, own),
        Kind::Scan => combined(alloc, sig, &given[..usize::from(r) + 1], 0),
        Kind::Exscan => {
            if r == 0 {
                Ok(Vec::new(alloc))
            } else {
                combined(alloc, sig, &given[..usize::from(r)], 0)
            }
        }
    }
}

/// The blocks that stand at byte `at` of each row, combined from the last row to the first.
fn combined(alloc: Global, sig: Signature, rows: &[Vec<u8>], at: usize) -> Result<Vec<u8>, Refusal>
    requires reduces { IsTrue (reduces sig.op sig.ty) }
    requires some { 0 < length rows.now }
    requires parts { HaveParts at (block_len sig) (rows_of rows.now) }
    ensures ok { IfOk result (λ bytes. bytes.items ≡
        combination (unwrap_or sig.op Op.Sum) sig.ty (map (part at (block_len sig)) (rows_of rows.now))) }
    ensures refusal { IsOkUnless result Refusal.NoMemory }
{
    let Some(op) = sig.op else { unreachable!() };
    let block = sig.block_len();
    let last = rows.len() - 1;
    let mut sum = Vec::from_slice(alloc, part(&rows[last], at, block))?;
    let mut next = vec![in alloc; 0; block]?;
    for i in (0..last).rev() {
        combine(
            op,
            sig.ty,
            part(&rows[i], at, block),
            sum.as_slice(),
            next.as_mut_slice(),
        );
        mem::swap(&mut sum, &mut next);
    }
    Ok(sum)
}

/// The `len` bytes that stand at byte `at` of each row, one row after the other.
fn joined(alloc: Global, rows: &[Vec<u8>], at: usize, len: usize) -> Result<Vec<u8>, Refusal>
    requires { HaveParts at len (rows_of rows.now) }
    ensures ok { IfOk result (λ bytes. bytes.items ≡ flat_map (part at len) (rows_of rows.now)) }
    ensures refusal { IsOkUnless result Refusal.NoMemory }
{
    let mut bytes = Vec::new(alloc);
    for row in rows {
        bytes.extend_from_slice(part(row, at, len))?;
    }
    Ok(bytes)
}

/// The rows, one after the other.
fn whole(alloc: Global, rows: &[Vec<u8>]) -> Result<Vec<u8>, Refusal>
    ensures ok { IfOk result (λ bytes. bytes.items ≡ all_rows (rows_of rows.now)) }
    ensures refusal { IsOkUnless result Refusal.NoMemory }
{
    let mut bytes = Vec::new(alloc);
    for row in rows {
        bytes.extend_from_slice(row)?;
    }
    Ok(bytes)
}

/// `len` bytes of a row, from byte `at` on.
fn part(row: &Vec<u8>, at: usize, len: usize) -> &[u8]
    requires { at + len ≤ length row.now.items }
    ensures { result.now ≡ part at len row.now.items }
{
    &row.as_slice()[at..at + len]
}
