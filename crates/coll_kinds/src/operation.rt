ghost use Rattle.std.specs.Prelude.{◌≡◌};

use crate::datatype::Datatype;
use std::fmt;

/// A reduction operation on two elements (MPI 4.1, 6.9.2).
#[derive(Clone, Copy, Debug, PartialEq, Eq)]
pub enum Op {
    /// `MPI_MAX`: the greater.
    Max,
    /// `MPI_MIN`: the lesser.
    Min,
    /// `MPI_SUM`: the sum, wrapped to the type's bits.
    Sum,
    /// `MPI_PROD`: the product, wrapped to the type's bits.
    Prod,
    /// `MPI_LAND`: 1 where both are nonzero, else 0.
    Land,
    /// `MPI_LOR`: 1 where one is nonzero, else 0.
    Lor,
    /// `MPI_LXOR`: 1 where exactly one is nonzero, else 0.
    Lxor,
    /// `MPI_BAND`, bit by bit.
    Band,
    /// `MPI_BOR`, bit by bit.
    Bor,
    /// `MPI_BXOR`, bit by bit.
    Bxor,
    /// The second where it isn't 0, else the first. It stands for the operations that users make
    /// (MPI 4.1, 6.9.5): associative, but not commutative.
    LastNz,
    /// `MPI_MAXLOC`: the pair with the greater value; of equals, the one with the lesser index (MPI 4.1, 6.9.4).
    MaxLoc,
    /// `MPI_MINLOC`: the pair with the lesser value; of equals, the one with the lesser index (MPI 4.1, 6.9.4).
    MinLoc,
}

impl Op {
    ghost use Rattle.coll_kinds.specs.Checks.{allowed};
    ghost use Rattle.coll_kinds.specs.Words.{operation_of, operation_word};

    /// All operations, in the order of their table.
    pub const ALL: [Op; 13] = [
        Op::Max,
        Op::Min,
        Op::Sum,
        Op::Prod,
        Op::Land,
        Op::Lor,
        Op::Lxor,
        Op::Band,
        Op::Bor,
        Op::Bxor,
        Op::LastNz,
        Op::MaxLoc,
        Op::MinLoc,
    ];

    /// Whether the operation may be used on elements of that type (MPI 4.1, 6.9.2 and 6.9.4).
    pub fn is_allowed_on(self, ty: Datatype) -> bool
        ensures { result ≡ allowed self ty }
    {
        match self {
            Op::MaxLoc | Op::MinLoc => ty.is_pair(),
            Op::Band | Op::Bor | Op::Bxor => !ty.is_pair(),
            _ => ty.is_integer(),
        }
    }

    /// Its word in a job text and in messages.
    pub fn word(self) -> &'static str
        ensures { result.now ≡ operation_word self }
    {
        match self {
            Op::Max => "max",
            Op::Min => "min",
            Op::Sum => "sum",
            Op::Prod => "prod",
            Op::Land => "land",
            Op::Lor => "lor",
            Op::Lxor => "lxor",
            Op::Band => "band",
            Op::Bor => "bor",
            Op::Bxor => "bxor",
            Op::LastNz => "lastnz",
            Op::MaxLoc => "maxloc",
            Op::MinLoc => "minloc",
        }
    }

    /// The operation that has that word.
    pub fn from_word(word: &[u8]) -> Option<Op>
        ensures { result ≡ operation_of word.now }
    {
        Op::ALL
            .iter()
            .copied()
            .find(|op| word == op.word().as_bytes())
    }
}

impl fmt::Display for Op {
    fn fmt<W: fmt::Write>(&self, f: &mut fmt::Formatter<W>) -> fmt::Result {
        f.write_str(self.word())
    }
}
