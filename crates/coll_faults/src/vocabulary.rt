//! The words of the format, and what other words may be meant to be.

use crate::words::shown;
use coll_kinds::{Datatype, Kind, Op};
use std::alloc::{AllocError, Global};
use strsim::damerau_levenshtein;

/// The first words of lines.
pub(crate) static VERBS: [&str; 12] = [
    "ranks", "comm", "rank", "post", "init", "start", "wait", "test", "free", "waitany",
    "waitsome", "waitall",
];

/// MPI's and C's names of types, without `MPI_`.
static TYPES: [(&str, &str); 24] = [
    ("int8_t", "i8"),
    ("int16_t", "i16"),
    ("int32_t", "i32"),
    ("int64_t", "i64"),
    ("uint8_t", "u8"),
    ("uint16_t", "u16"),
    ("uint32_t", "u32"),
    ("uint64_t", "u64"),
    ("char", "i8"),
    ("signed_char", "i8"),
    ("short", "i16"),
    ("int", "i32"),
    ("long", "i64"),
    ("long_long", "i64"),
    ("unsigned_char", "u8"),
    ("unsigned_short", "u16"),
    ("unsigned", "u32"),
    ("uint", "u32"),
    ("unsigned_long", "u64"),
    ("unsigned_long_long", "u64"),
    ("integer", "i32"),
    ("integer4", "i32"),
    ("integer8", "i64"),
    ("byte", "byte"),
];

/// Names of types of numbers with a fraction.
static FRACTIONS: [&str; 8] = [
    "f32",
    "f64",
    "float",
    "double",
    "real",
    "double_precision",
    "long_double",
    "real8",
];

/// The most bytes of a word that others are compared with.
const LONGEST: usize = 32;

/// The word that another word may be meant to be, and the help for a user.
#[derive(Drop)]
pub(crate) struct Meant {
    pub word: &'static str,
    pub help: String,
}

/// A word in small letters, as ASCII.
fn lowered(alloc: Global, word: &[u8]) -> Result<String, AllocError> {
    let mut lowered = String::new(alloc);
    for byte in word {
        let byte = byte.to_ascii_lowercase();
        lowered.push(if byte.is_ascii_graphic() {
            char::from(byte)
        } else {
            '?'
        })?;
    }
    Ok(lowered)
}

/// A name of MPI's, in small letters, without `mpi_` before and `_init` after it.
fn bare(name: &str) -> &str {
    let name = name.strip_prefix("mpi_").unwrap_or(name);
    name.strip_suffix("_init").unwrap_or(name)
}

/// The one of these words that stands here for MPI's name.
fn of_mpi(name: &str, words: &[&'static str]) -> Option<&'static str> {
    let name = bare(name);
    let without = name.strip_prefix("i").unwrap_or(name);
    let block = if without == "reduce_scatter_block" {
        "rsblock"
    } else {
        without
    };
    let ty = TYPES
        .iter()
        .find(|(mpi, _)| *mpi == name)
        .map(|(_, word)| *word);
    words.iter().copied().find(|word| *word == name || *word == block || Some(*word) == ty)
}

/// The one of these words that is nearest to a word, if one is near enough.
fn nearest(
    alloc: Global,
    word: &str,
    words: &[&'static str],
) -> Result<Option<&'static str>, AllocError> {
    let most = (word.len() / 3).max(1);
    let mut best: Option<(&'static str, usize)> = None;
    for candidate in words {
        let distance = damerau_levenshtein(alloc, word, candidate)?;
        let is_nearer = match best {
            Some((_, least)) => distance < least,
            None => distance <= most,
        };
        if is_nearer {
            best = Some((*candidate, distance));
        }
    }
    Ok(best.map(|(word, _)| word))
}

/// The one of these words that a word may be meant to be.
pub(crate) fn word_meant(
    alloc: Global,
    word: &[u8],
    words: &[&'static str],
) -> Result<Option<Meant>, AllocError> {
    if word.len() > LONGEST {
        return Ok(None);
    }
    let name = lowered(alloc, word)?;
    if let Some(same) = words.iter().copied().find(|known| *known == name.as_str()) {
        let help = format!(in alloc; "words are written in small letters: `{same}`")?;
        return Ok(Some(Meant { word: same, help }));
    }
    if let Some(known) = of_mpi(name.as_str(), words) {
        let written = shown(alloc, word)?;
        let help = format!(in alloc; "MPI's `{written}` is `{known}` here")?;
        return Ok(Some(Meant { word: known, help }));
    }
    let Some(near) = nearest(alloc, name.as_str(), words)? else {
        return Ok(None);
    };
    let help = format!(in alloc; "did you mean `{near}`?")?;
    Ok(Some(Meant { word: near, help }))
}

/// Whether a word names a type of numbers with a fraction.
pub(crate) fn is_fraction(alloc: Global, word: &[u8]) -> Result<bool, AllocError> {
    let name = lowered(alloc, word)?;
    let name = bare(name.as_str());
    Ok(FRACTIONS.iter().any(|fraction| *fraction == name))
}

/// The words of all collectives.
pub(crate) fn kind_words(alloc: Global) -> Result<Vec<&'static str>, AllocError> {
    Kind::ALL.iter().map(|kind| kind.word()).collect(alloc)
}

/// The words of all operations.
pub(crate) fn operation_words(alloc: Global) -> Result<Vec<&'static str>, AllocError> {
    Op::ALL.iter().map(|op| op.word()).collect(alloc)
}

/// The words of the operations that are allowed on a type.
pub(crate) fn allowed_words(alloc: Global, ty: Datatype) -> Result<Vec<&'static str>, AllocError> {
    Op::ALL
        .iter()
        .filter(|op| op.is_allowed_on(ty))
        .map(|op| op.word())
        .collect(alloc)
}

/// The words of all types.
pub(crate) fn type_words(alloc: Global) -> Result<Vec<&'static str>, AllocError> {
    Datatype::ALL.iter().map(|ty| ty.word()).collect(alloc)
}

/// Words with commas between.
pub(crate) fn listed(alloc: Global, words: &[&'static str]) -> Result<String, AllocError> {
    let mut list = String::new(alloc);
    for word in words {
        if !list.is_empty() {
            list.push_str(", ")?;
        }
        list.push_str(word)?;
    }
    Ok(list)
}
