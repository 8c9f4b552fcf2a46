use crate::place_faults::PlaceFault;
use crate::suggestion::Suggestion;
use coll_script::Fault;

/// A fault of a text, and what is known of it.
#[derive(Debug, Drop)]
pub struct Finding {
    pub fault: Fault,
    pub detail: Detail,
}

/// What is known of a fault.
#[derive(Debug, Drop)]
pub enum Detail {
    /// The words of its line that break the rule.
    Words(Marked),
    /// Requests at one place that don't belong together.
    Place {
        fault: PlaceFault,
        suggestion: Option<Suggestion>,
    },
    /// Nothing more is known.
    Bare,
}

/// Words of a line that break a rule.
#[derive(Debug, Drop)]
pub struct Marked {
    /// The index of the first of them; if a word is missing, the index after the last word.
    pub word: usize,
    /// The number of bytes before it in its line.
    pub start: usize,
    /// The number of bytes from there to the end of the last of them.
    pub len: usize,
    /// What is known of them.
    pub label: String,
    pub notes: Vec<String>,
    pub suggestion: Option<Suggestion>,
}
