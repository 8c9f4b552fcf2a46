ghost use Rattle.std.specs.Prelude.{◌≡◌, ◌<◌, ◌≤◌, length, map, None, IfOk, IsOkUnless};
ghost use Rattle.std.specs.List.{range_with_len};
ghost use Rattle.coll_kinds.specs.Checks.{broken};
ghost use Rattle.coll_ops.specs.Contributions.{AreGiven};
ghost use Rattle.coll_ops.specs.Values.{row_of, value};
ghost use Rattle.coll_parser.specs.Code.{rows_view};
ghost use Rattle.coll_script.specs.Outcomes.{is_shared, members_view};

use coll_kinds::{Kind, Refusal, Signature};
use coll_ops::{plain_value, plain_values};
use std::alloc::Global;

/// The values of all members of a communicator at a start, in member order. A value that all members get is kept once.
#[derive(Debug, Drop)]
pub(crate) enum MemberValues {
    /// The value that each of `members` members gets.
    Same { value: Vec<u8>, members: u8 },
    /// A value for each member, in member order.
    Each(Vec<Vec<u8>>),
}

impl MemberValues {
    /// The values of all `n` members, from what they give. Linear in the bytes that are given, and in those that are got by
    /// members with different values.
    pub(crate) fn new(
        alloc: Global,
        sig: Signature,
        n: u8,
        given: &[Vec<u8>],
    ) -> Result<MemberValues, Refusal>
        requires checked { broken sig n ≡ None }
        requires given { AreGiven sig n (rows_view given.now) }
        ensures ok { IfOk result (λ values. members_view values ≡ map (value sig (rows_view given.now)) (range_with_len 0 n)) }
        ensures refusal { IsOkUnless result Refusal.NoMemory }
    {
        if n > 0 && is_shared(sig.kind) {
            return Ok(MemberValues::Same {
                value: plain_value(alloc, sig, n, given, 0)?,
                members: n,
            });
        }
        Ok(MemberValues::Each(plain_values(alloc, sig, n, given)?))
    }

    /// The value of a member.
    pub(crate) fn of(&self, member: usize) -> &[u8]
        requires { member < length (members_view self.now) }
        ensures { result.now ≡ row_of (members_view self.now) member }
    {
        match self {
            MemberValues::Same { value, .. } => value,
            MemberValues::Each(rows) => &rows[member],
        }
    }
}

/// Whether all members get the same value (MPI 4.1, 6.3, 6.4, 6.7, 6.9.6).
fn is_shared(kind: Kind) -> bool
    ensures { result ≡ is_shared kind }
{
    match kind {
        Kind::Barrier => true,
        Kind::Bcast => true,
        Kind::Allgather => true,
        Kind::Allgatherv => true,
        Kind::Allreduce => true,
        Kind::Gather => false,
        Kind::Scatter => false,
        Kind::Alltoall => false,
        Kind::Reduce => false,
        Kind::Rsblock => false,
        Kind::Scan => false,
        Kind::Exscan => false,
    }
}
