use crate::patch::{Patch, copied};
use std::alloc::{AllocError, Global};

/// What is known of a faulty line.
#[derive(Drop)]
pub(crate) struct Remark {
    /// The index of the first word that is meant; if a word is missing, the index after the last word.
    pub word: usize,
    /// How many words are meant.
    pub count: usize,
    pub label: String,
    pub notes: Vec<String>,
    /// What the line may be meant to be, the likeliest first.
    pub proposals: Vec<Proposal>,
}

/// A change that hasn't been tried.
#[derive(Drop)]
pub(crate) struct Proposal {
    pub help: String,
    pub patches: Vec<Patch>,
    /// Whether it only makes the line readable, and may not be what was meant.
    pub is_guess: bool,
}

impl Remark {
    /// A remark on one word.
    pub(crate) fn new(alloc: Global, word: usize, label: String) -> Remark {
        Remark {
            word,
            count: 1,
            label,
            notes: Vec::new(alloc),
            proposals: Vec::new(alloc),
        }
    }

    /// A remark on one word, with a constant label.
    pub(crate) fn of(alloc: Global, word: usize, label: &str) -> Result<Remark, AllocError> {
        Ok(Remark::new(alloc, word, String::from_str(alloc, label)?))
    }

    pub(crate) fn note(&mut self, note: String) -> Result<(), AllocError> {
        self.notes.push(note)?;
        Ok(())
    }

    pub(crate) fn propose(&mut self, help: String, patches: Vec<Patch>) -> Result<(), AllocError> {
        self.proposals.push(Proposal {
            help,
            patches,
            is_guess: false,
        })?;
        Ok(())
    }

    /// Proposes a change that only makes the line readable.
    pub(crate) fn guess(&mut self, help: String, patches: Vec<Patch>) -> Result<(), AllocError> {
        self.proposals.push(Proposal {
            help,
            patches,
            is_guess: true,
        })?;
        Ok(())
    }
}

impl Proposal {
    /// A copy of the proposal.
    pub(crate) fn copied(&self, alloc: Global) -> Result<Proposal, AllocError> {
        Ok(Proposal {
            help: String::from_str(alloc, self.help.as_str())?,
            patches: copied(alloc, &self.patches)?,
            is_guess: self.is_guess,
        })
    }

    /// Whether the proposal replaces that line by one line, and changes no other.
    pub(crate) fn changes_alone(&self, line: u32) -> bool {
        match self.patches.as_slice() {
            [patch] => patch.line == line && !patch.block.contains(&b'\n'),
            _ => false,
        }
    }
}
