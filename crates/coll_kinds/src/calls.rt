//! The signature of each of MPI's calls, with the root, the operation, the type and the count that the call takes. It is that of
//! the nonblocking call; [`Signature::persistent`] makes it that of the persistent one. Whether it is lawful is decided by
//! [`Signature::check`].

ghost use Rattle.std.specs.Prelude.{◌≡◌, None, Some};
ghost use Rattle.coll_kinds.specs.Calls.{call, counted_call, persistent};

use crate::datatype::Datatype;
use crate::kind::{Kind, Mode};
use crate::limits::MAX_RANKS;
use crate::operation::Op;
use crate::signature::Signature;

impl Signature {
    /// `MPI_Ibarrier` (MPI 4.1, 6.12.1). Its type has no effect; a job text gives it the same one.
    pub fn barrier() -> Signature
        ensures { result ≡ call Kind.Barrier 0 None Datatype.Byte 0 }
    {
        call(Kind::Barrier, 0, None, Datatype::Byte, 0)
    }

    /// `MPI_Ibcast` (6.12.2): member `root` gives `count` elements to all.
    pub fn bcast(root: u8, ty: Datatype, count: u32) -> Signature
        ensures { result ≡ call Kind.Bcast root None ty count }
    {
        call(Kind::Bcast, root, None, ty, count)
    }

    /// `MPI_Igather` (6.12.3): each member gives `count` elements to member `root`.
    pub fn gather(root: u8, ty: Datatype, count: u32) -> Signature
        ensures { result ≡ call Kind.Gather root None ty count }
    {
        call(Kind::Gather, root, None, ty, count)
    }

    /// `MPI_Iscatter` (6.12.4): member `root` gives `count` elements to each.
    pub fn scatter(root: u8, ty: Datatype, count: u32) -> Signature
        ensures { result ≡ call Kind.Scatter root None ty count }
    {
        call(Kind::Scatter, root, None, ty, count)
    }

    /// `MPI_Iallgather` (6.12.5): each member gives `count` elements to all.
    pub fn allgather(ty: Datatype, count: u32) -> Signature
        ensures { result ≡ call Kind.Allgather 0 None ty count }
    {
        call(Kind::Allgather, 0, None, ty, count)
    }

    /// `MPI_Iallgatherv` (6.12.5): member `i` gives `each[i]` elements to all, and 0 stands after the last member.
    pub fn allgatherv(ty: Datatype, each: [u32; MAX_RANKS]) -> Signature
        ensures { result ≡ counted_call ty each }
    {
        let uncounted = call(Kind::Allgatherv, 0, None, ty, 0);
        Signature {
            each: Some(each),
            ..uncounted
        }
    }

    /// `MPI_Ialltoall` (6.12.6): each member gives `count` elements to each.
    pub fn alltoall(ty: Datatype, count: u32) -> Signature
        ensures { result ≡ call Kind.Alltoall 0 None ty count }
    {
        call(Kind::Alltoall, 0, None, ty, count)
    }

    /// `MPI_Ireduce` (6.12.7): member `root` gets the combination of what all give.
    pub fn reduce(root: u8, op: Op, ty: Datatype, count: u32) -> Signature
        ensures { result ≡ call Kind.Reduce root (Some op) ty count }
    {
        call(Kind::Reduce, root, Some(op), ty, count)
    }

    /// `MPI_Iallreduce` (6.12.8): all get the combination of what all give.
    pub fn allreduce(op: Op, ty: Datatype, count: u32) -> Signature
        ensures { result ≡ call Kind.Allreduce 0 (Some op) ty count }
    {
        call(Kind::Allreduce, 0, Some(op), ty, count)
    }

    /// `MPI_Ireduce_scatter_block` (6.12.9): each member gets its block of the combination, `count` elements.
    pub fn rsblock(op: Op, ty: Datatype, count: u32) -> Signature
        ensures { result ≡ call Kind.Rsblock 0 (Some op) ty count }
    {
        call(Kind::Rsblock, 0, Some(op), ty, count)
    }

    /// `MPI_Iscan` (6.12.11): each member gets the combination of what the members up to it give.
    pub fn scan(op: Op, ty: Datatype, count: u32) -> Signature
        ensures { result ≡ call Kind.Scan 0 (Some op) ty count }
    {
        call(Kind::Scan, 0, Some(op), ty, count)
    }

    /// `MPI_Iexscan` (6.12.12): each member gets the combination of what the members before it give.
    pub fn exscan(op: Op, ty: Datatype, count: u32) -> Signature
        ensures { result ≡ call Kind.Exscan 0 (Some op) ty count }
    {
        call(Kind::Exscan, 0, Some(op), ty, count)
    }

    /// The persistent form of the same call (MPI 4.1, 6.13), which an init takes.
    pub fn persistent(self) -> Signature
        ensures { result ≡ persistent self }
    {
        Signature {
            mode: Mode::Persistent,
            ..self
        }
    }
}

fn call(kind: Kind, root: u8, op: Option<Op>, ty: Datatype, count: u32) -> Signature
    ensures { result ≡ call kind root op ty count }
{
    Signature {
        kind,
        mode: Mode::Once,
        root,
        op,
        ty,
        count,
        each: None,
    }
}
