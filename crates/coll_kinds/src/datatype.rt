ghost use Rattle.std.specs.Prelude.{◌≡◌};

use std::fmt;

/// The type of an element: a whole number, kept little-endian in two's complement
/// (MPI 4.1, 3.2.2), or a pair of two.
#[derive(Clone, Copy, Debug, PartialEq, Eq)]
pub enum Datatype {
    /// `MPI_INT8_T`, one byte.
    I8,
    /// `MPI_INT16_T`, two bytes.
    I16,
    /// `MPI_INT32_T`, four bytes.
    I32,
    /// `MPI_INT64_T`, eight bytes.
    I64,
    /// `MPI_UINT8_T`, one byte.
    U8,
    /// `MPI_UINT16_T`, two bytes.
    U16,
    /// `MPI_UINT32_T`, four bytes.
    U32,
    /// `MPI_UINT64_T`, eight bytes.
    U64,
    /// `MPI_BYTE`, eight bits that are no number to MPI; its text is that of `U8`.
    Byte,
    /// `MPI_2INT`, eight bytes: two `I32`, the value and then its index (MPI 4.1, 6.9.4).
    Pair,
}

impl Datatype {
    ghost use Rattle.coll_kinds.specs.Elements.{width, is_signed, is_integer, is_pair, limit};
    ghost use Rattle.coll_kinds.specs.Words.{datatype_of, datatype_word};

    /// All types, in the order of their table.
    pub const ALL: [Datatype; 10] = [
        Datatype::I8,
        Datatype::I16,
        Datatype::I32,
        Datatype::I64,
        Datatype::U8,
        Datatype::U16,
        Datatype::U32,
        Datatype::U64,
        Datatype::Byte,
        Datatype::Pair,
    ];

    /// The bytes of one element.
    pub fn width(self) -> usize
        ensures { result ≡ width self }
    {
        match self {
            Datatype::I8 | Datatype::U8 | Datatype::Byte => 1,
            Datatype::I16 | Datatype::U16 => 2,
            Datatype::I32 | Datatype::U32 => 4,
            Datatype::I64 | Datatype::U64 | Datatype::Pair => 8,
        }
    }

    /// Whether the type is one of numbers of which some are negative.
    pub fn is_signed(self) -> bool
        ensures { result ≡ is_signed self }
    {
        matches!(
            self,
            Datatype::I8 | Datatype::I16 | Datatype::I32 | Datatype::I64
        )
    }

    /// Whether the type is one of MPI's integer types (MPI 4.1, 6.9.2).
    pub fn is_integer(self) -> bool
        ensures { result ≡ is_integer self }
    {
        !matches!(self, Datatype::Byte | Datatype::Pair)
    }

    /// Whether an element is a value with its index (MPI 4.1, 6.9.4).
    pub fn is_pair(self) -> bool
        ensures { result ≡ is_pair self }
    {
        matches!(self, Datatype::Pair)
    }

    /// The least whole number above the type's range. The numbers go from minus that, or from 0
    /// where the type has no sign, up to one less. Of a pair it is asked for the number that its bits are.
    pub fn limit(self) -> u128
        ensures { result ≡ limit self }
    {
        match self {
            Datatype::I8 => 1 << 7,
            Datatype::I16 => 1 << 15,
            Datatype::I32 => 1 << 31,
            Datatype::I64 => 1 << 63,
            Datatype::U8 | Datatype::Byte => 1 << 8,
            Datatype::U16 => 1 << 16,
            Datatype::U32 => 1 << 32,
            Datatype::U64 | Datatype::Pair => 1 << 64,
        }
    }

    /// Its word in a job text and in messages.
    pub fn word(self) -> &'static str
        ensures { result.now ≡ datatype_word self }
    {
        match self {
            Datatype::I8 => "i8",
            Datatype::I16 => "i16",
            Datatype::I32 => "i32",
            Datatype::I64 => "i64",
            Datatype::U8 => "u8",
            Datatype::U16 => "u16",
            Datatype::U32 => "u32",
            Datatype::U64 => "u64",
            Datatype::Byte => "byte",
            Datatype::Pair => "2int",
        }
    }

    /// The type that has that word.
    pub fn from_word(word: &[u8]) -> Option<Datatype>
        ensures { result ≡ datatype_of word.now }
    {
        Datatype::ALL
            .iter()
            .copied()
            .find(|ty| word == ty.word().as_bytes())
    }
}

impl fmt::Display for Datatype {
    fn fmt<W: fmt::Write>(&self, f: &mut fmt::Formatter<W>) -> fmt::Result {
        f.write_str(self.word())
    }
}
