//! What is known of faults, as objects of JSON, each with its fields in their order. They follow the line and the cause of a fault.

use serde::Serialize;

/// A fault of a line, or one of which nothing more is known.
#[derive(Drop, Serialize)]
pub(crate) struct OfLine<'e> {
    pub word: Option<usize>,
    pub column: Option<usize>,
    pub length: Option<usize>,
    pub found: Option<&'e str>,
    pub label: Option<&'e str>,
    pub notes: Vec<&'e str>,
    pub help: Vec<&'e str>,
    pub replace: Vec<Replaced>,
}

/// Lines in place of one.
#[derive(Drop, Serialize)]
pub(crate) struct Replaced {
    pub line: u32,
    pub by: Vec<String>,
}

/// A place at which members have different requests.
#[derive(Drop, Serialize)]
pub(crate) struct OfMismatch<'e> {
    pub comm: usize,
    pub place: usize,
    pub first: PostedObject<'e>,
    pub differs: Differing<'e>,
    pub members: Vec<Member>,
}

/// A place that some members lack.
#[derive(Drop, Serialize)]
pub(crate) struct OfMissingPlace<'e> {
    pub comm: usize,
    pub place: usize,
    pub first: PostedObject<'e>,
    pub lacking: Vec<Lacking>,
    pub help: Vec<&'e str>,
    pub replace: Vec<Replaced>,
}

/// A place whose members start it different numbers of times.
#[derive(Drop, Serialize)]
pub(crate) struct OfMissingStart<'e> {
    pub comm: usize,
    pub place: usize,
    pub members: Vec<Started<'e>>,
}

#[derive(Drop, Serialize)]
pub(crate) struct PostedObject<'e> {
    pub rank: u8,
    pub line: u32,
    pub text: &'e str,
}

#[derive(Drop, Serialize)]
pub(crate) struct Differing<'e> {
    pub rank: u8,
    pub line: u32,
    pub text: &'e str,
    #[serde(rename = "in")]
    pub fields: Vec<&'static str>,
}

#[derive(Drop, Serialize)]
pub(crate) struct Member {
    pub rank: u8,
    pub line: u32,
    pub agrees: bool,
}

#[derive(Drop, Serialize)]
pub(crate) struct Lacking {
    pub rank: u8,
    pub has: usize,
}

#[derive(Drop, Serialize)]
pub(crate) struct Started<'e> {
    pub rank: u8,
    pub line: u32,
    pub starts: &'e [u32],
}
