ghost use Rattle.std.specs.Prelude.{◌≡◌, ℕ, ◌+◌, ◌-◌, ◌<◌, ◌%◌, length, slice_index, map, take, unwrap_or, None, IfOk, IsTrue, IsOkUnless};
ghost use Rattle.std.specs.List.{range_with_len};
ghost use Rattle.coll_kinds.specs.Checks.{broken, allowed, reduces};
ghost use Rattle.coll_kinds.specs.Elements.{width};
ghost use Rattle.coll_kinds.specs.Lengths.{block_len};
ghost use Rattle.coll_ops.specs.Combinations.{combination, combined};
ghost use Rattle.coll_ops.specs.Contributions.{rows_of, AreGiven};
ghost use Rattle.coll_ops.specs.Values.{row_of, value};

use crate::rows::combine;
use crate::value::plain_value;
use coll_kinds::{Datatype, Kind, Op, Refusal, Signature};
use std::alloc::Global;

/// The values of a collective at all `n` members, in member order, each as [`plain_value`] has it
/// (MPI 4.1, 6.4 to 6.11). `given` has a row of bytes for each member, in member order. Refuses
/// [`Refusal::NoMemory`] alone. The cost is linear in the bytes that all members give and get
/// together: an allreduce combines the rows once, and a scan makes each value of the one before it.
pub fn plain_values(
    alloc: Global,
    sig: Signature,
    n: u8,
    given: &[Vec<u8>],
) -> Result<Vec<Vec<u8>>, Refusal>
    requires checked { broken sig n ≡ None }
    requires given { AreGiven sig n (rows_of given.now) }
    ensures ok { IfOk result (λ values. rows_of values.items ≡ map (value sig (rows_of given.now)) (range_with_len 0 n)) }
    ensures refusal { IsOkUnless result Refusal.NoMemory }
{
    match sig.kind {
        Kind::Allreduce if n > 0 => copies(alloc, &plain_value(alloc, sig, n, given, 0)?, n),
        Kind::Scan => prefixes(alloc, sig, given),
        Kind::Exscan => exclusive_prefixes(alloc, sig, given),
        _ => each_value(alloc, sig, n, given),
    }
}

/// The values, one by one. Linear for a kind no two of whose values combine the same bytes.
fn each_value(
    alloc: Global,
    sig: Signature,
    n: u8,
    given: &[Vec<u8>],
) -> Result<Vec<Vec<u8>>, Refusal>
    requires checked { broken sig n ≡ None }
    requires given { AreGiven sig n (rows_of given.now) }
    ensures ok { IfOk result (λ values. rows_of values.items ≡ map (value sig (rows_of given.now)) (range_with_len 0 n)) }
    ensures refusal { IsOkUnless result Refusal.NoMemory }
{
    let mut values = Vec::new(alloc);
    for r in 0..n {
        values.push(plain_value(alloc, sig, n, given, r)?)?;
    }
    Ok(values)
}

/// A row, `n` times.
fn copies(alloc: Global, row: &Vec<u8>, n: u8) -> Result<Vec<Vec<u8>>, Refusal>
    ensures ok { IfOk result (λ rows. rows_of rows.items ≡ map (λ r. row.now.items) (range_with_len 0 n)) }
    ensures refusal { IsOkUnless result Refusal.NoMemory }
{
    let mut rows = Vec::new(alloc);
    for _member in 0..n {
        rows.push(Vec::from_slice(alloc, row)?)?;
    }
    Ok(rows)
}

/// For each row the combination of the rows from the first to this one, each made of the one
/// before it.
fn prefixes(alloc: Global, sig: Signature, rows: &[Vec<u8>]) -> Result<Vec<Vec<u8>>, Refusal>
    requires reduces { IsTrue (reduces sig.op sig.ty) }
    requires long { (i : ℕ) → i < length rows.now → length (row_of (rows_of rows.now) i) ≡ block_len sig }
    ensures ok { IfOk result (λ sums. rows_of sums.items ≡
        map (λ r. combination (unwrap_or sig.op Op.Sum) sig.ty (take (r + 1) (rows_of rows.now))) (range_with_len 0 (length rows.now))) }
    ensures refusal { IsOkUnless result Refusal.NoMemory }
{
    let Some(op) = sig.op else { unreachable!() };
    let mut sums: Vec<Vec<u8>> = Vec::new(alloc);
    for row in rows {
        let sum = next_prefix(alloc, op, sig.ty, &sums, row.as_slice())?;
        sums.push(sum)?;
    }
    Ok(sums)
}

/// The combination of the rows up to `row`, where `sums` has those of the rows before it. The
/// clause `bytes` gives the caller's proof what the row's type says.
fn next_prefix(
    alloc: Global,
    op: Op,
    ty: Datatype,
    sums: &[Vec<u8>],
    row: &[u8],
) -> Result<Vec<u8>, Refusal>
    requires allowed { IsTrue (allowed op ty) }
    requires whole { length row.now % width ty ≡ 0 }
    requires alike { (i : ℕ) → i < length sums.now → length (row_of (rows_of sums.now) i) ≡ length row.now }
    ensures first { length sums.now ≡ 0 → IfOk result (λ sum. sum.items ≡ row.now) }
    ensures next { 0 < length sums.now → IfOk result (λ sum. sum.items ≡
        combined op ty (row_of (rows_of sums.now) (length sums.now - 1)) row.now) }
    ensures bytes { (i : ℕ) → slice_index row.now i < 256 }
    ensures refusal { IsOkUnless result Refusal.NoMemory }
{
    let mut sum = Vec::from_slice(alloc, row)?;
    if let Some(prefix) = sums.last() {
        combine(op, ty, prefix.as_slice(), row, sum.as_mut_slice());
    }
    Ok(sum)
}

/// For each row the combination of the rows before it; the first has none, and gets no bytes.
fn exclusive_prefixes(
    alloc: Global,
    sig: Signature,
    rows: &[Vec<u8>],
) -> Result<Vec<Vec<u8>>, Refusal>
    requires reduces { IsTrue (reduces sig.op sig.ty) }
    requires long { (i : ℕ) → i < length rows.now → length (row_of (rows_of rows.now) i) ≡ block_len sig }
    ensures ok { IfOk result (λ sums. rows_of sums.items ≡
        map (λ r. combination (unwrap_or sig.op Op.Sum) sig.ty (take r (rows_of rows.now))) (range_with_len 0 (length rows.now))) }
    ensures refusal { IsOkUnless result Refusal.NoMemory }
{
    if rows.is_empty() {
        return Ok(Vec::new(alloc));
    }
    let mut sums = prefixes(alloc, sig, &rows[..rows.len() - 1])?;
    sums.insert(0, Vec::new(alloc))?;
    Ok(sums)
}
