ghost use Rattle.std.specs.Prelude.{◌≡◌};

use std::fmt;

/// A collective operation (MPI 4.1, 6.12).
#[derive(Clone, Copy, Debug, PartialEq, Eq)]
pub enum Kind {
    /// `MPI_Ibarrier`: nobody completes before everybody has called it (MPI 4.1, 6.12.1).
    Barrier,
    /// `MPI_Ibcast`: every member gets the root's block (MPI 4.1, 6.12.2).
    Bcast,
    /// `MPI_Igather`: the root gets every member's block, in member order (MPI 4.1, 6.12.3).
    Gather,
    /// `MPI_Iscatter`: each member gets its block of the root's n (MPI 4.1, 6.12.4).
    Scatter,
    /// `MPI_Iallgather`: every member gets every member's block (MPI 4.1, 6.12.5).
    Allgather,
    /// `MPI_Iallgatherv`: every member gets every member's row, in member order; a row is as long as its member's count
    /// says (MPI 4.1, 6.12.5).
    Allgatherv,
    /// `MPI_Ialltoall`: member r gets block r of each member's n (MPI 4.1, 6.12.6).
    Alltoall,
    /// `MPI_Ireduce`: the root gets the combination of all blocks (MPI 4.1, 6.12.7).
    Reduce,
    /// `MPI_Iallreduce`: every member gets the combination of all blocks (MPI 4.1, 6.12.8).
    Allreduce,
    /// `MPI_Ireduce_scatter_block`: member r gets block r of the combination of all rows of n
    /// blocks (MPI 4.1, 6.12.9).
    Rsblock,
    /// `MPI_Iscan`: member r gets the combination of the blocks of 0 to r (MPI 4.1, 6.12.11).
    Scan,
    /// `MPI_Iexscan`: member r gets the combination of the blocks of 0 to r - 1, and member 0
    /// nothing (MPI 4.1, 6.12.12).
    Exscan,
}

impl Kind {
    ghost use Rattle.coll_kinds.specs.Checks.{has_root, has_operation, has_counts};
    ghost use Rattle.coll_kinds.specs.Words.{kind_of, kind_word};

    /// All kinds, in the order of their table.
    pub const ALL: [Kind; 12] = [
        Kind::Barrier,
        Kind::Bcast,
        Kind::Gather,
        Kind::Scatter,
        Kind::Allgather,
        Kind::Allgatherv,
        Kind::Alltoall,
        Kind::Reduce,
        Kind::Allreduce,
        Kind::Rsblock,
        Kind::Scan,
        Kind::Exscan,
    ];

    /// Whether one member is the root.
    pub fn has_root(self) -> bool
        ensures { result ≡ has_root self }
    {
        matches!(
            self,
            Kind::Bcast | Kind::Gather | Kind::Scatter | Kind::Reduce
        )
    }

    /// Whether the collective combines rows by an operation.
    pub fn has_operation(self) -> bool
        ensures { result ≡ has_operation self }
    {
        matches!(
            self,
            Kind::Reduce | Kind::Allreduce | Kind::Rsblock | Kind::Scan | Kind::Exscan
        )
    }

    /// Whether each member's elements are counted.
    pub fn has_counts(self) -> bool
        ensures { result ≡ has_counts self }
    {
        matches!(self, Kind::Allgatherv)
    }

    /// Its word in a job text and in messages.
    pub fn word(self) -> &'static str
        ensures { result.now ≡ kind_word self }
    {
        match self {
            Kind::Barrier => "barrier",
            Kind::Bcast => "bcast",
            Kind::Gather => "gather",
            Kind::Scatter => "scatter",
            Kind::Allgather => "allgather",
            Kind::Allgatherv => "allgatherv",
            Kind::Alltoall => "alltoall",
            Kind::Reduce => "reduce",
            Kind::Allreduce => "allreduce",
            Kind::Rsblock => "rsblock",
            Kind::Scan => "scan",
            Kind::Exscan => "exscan",
        }
    }

    /// The kind that has that word.
    pub fn from_word(word: &[u8]) -> Option<Kind>
        ensures { result ≡ kind_of word.now }
    {
        Kind::ALL
            .iter()
            .copied()
            .find(|kind| word == kind.word().as_bytes())
    }
}

impl fmt::Display for Kind {
    fn fmt<W: fmt::Write>(&self, f: &mut fmt::Formatter<W>) -> fmt::Result {
        f.write_str(self.word())
    }
}

/// Whether a collective is posted once, or initialised and then started many times
/// (MPI 4.1, 6.13).
#[derive(Clone, Copy, Debug, PartialEq, Eq)]
pub enum Mode {
    Once,
    Persistent,
}
