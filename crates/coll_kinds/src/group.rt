//! The group of a communicator: the ranks that are its members, in the order of their member numbers
//! (MPI 4.1, 7.2.1).

ghost use Rattle.std.specs.Prelude.{◌≡◌};
ghost use Rattle.coll_kinds.specs.Groups.{member_of};

/// The number that a rank has among the members, or none where it isn't one. Linear in the group.
pub fn member_of(rank: u8, group: &[u8]) -> Option<usize>
    ensures { result ≡ member_of rank group.now }
{
    group.iter().position(|member| *member == rank)
}
