use crate::accepting::accepted;
use crate::draft::MendedText;
use crate::patch::Patch;
use crate::remark::Remark;
use crate::scene::Scene;
use crate::words::{Word, push_word, shown, spliced, words_of};
use coll_kinds::{Signature, member_of, read_number};
use coll_parser::{Command, History, Request};
use std::alloc::{AllocError, Global};

/// A faulty line, and what the lines before it have said.
#[derive(Drop)]
pub(crate) struct Site<'s> {
    pub alloc: Global,
    pub line: u32,
    pub words: Vec<Word<'s>>,
    pub draft: &'s MendedText<'s>,
    pub scene: &'s Scene,
}

/// What a signature requires of the rank whose line has it.
#[derive(Clone, Copy)]
pub(crate) struct Due<'h> {
    pub sig: &'h Signature,
    /// The rank's number in the communicator.
    pub member: u8,
    /// How many values it gives.
    pub values: usize,
}

impl<'s> Site<'s> {
    pub(crate) fn new(
        alloc: Global,
        draft: &'s MendedText<'s>,
        scene: &'s Scene,
        line: u32,
    ) -> Result<Site<'s>, AllocError> {
        Ok(Site {
            alloc,
            line,
            words: words_of(alloc, draft.line(line))?,
            draft,
            scene,
        })
    }

    /// The bytes of a word; empty if there is no such word.
    pub(crate) fn word(&self, index: usize) -> &'s [u8] {
        match self.words.get(index) {
            Some(word) => word.bytes,
            None => b"",
        }
    }

    /// A word as it is shown.
    pub(crate) fn shown(&self, index: usize) -> Result<String, AllocError> {
        shown(self.alloc, self.word(index))
    }

    /// The value of a word that is a number.
    pub(crate) fn number(&self, index: usize) -> Option<u128> {
        read_number(self.word(index))
    }

    /// Whether the first word is this one.
    pub(crate) fn begins(&self, word: &str) -> bool {
        self.word(0) == word.as_bytes()
    }

    /// The patch that puts these lines in place of the line.
    pub(crate) fn patch(&self, block: Vec<u8>) -> Result<Vec<Patch>, AllocError> {
        let mut patches = Vec::new(self.alloc);
        patches.push(Patch {
            line: self.line,
            block,
        })?;
        Ok(patches)
    }

    /// The patch that leaves the line out.
    pub(crate) fn dropped(&self) -> Result<Vec<Patch>, AllocError> {
        self.patch(Vec::from_slice(self.alloc, b"#")?)
    }

    /// The patch that puts a line before this one.
    pub(crate) fn behind(&self, line: &str) -> Result<Vec<Patch>, AllocError> {
        let mut block = Vec::from_slice(self.alloc, line.as_bytes())?;
        block.push(b'\n')?;
        block.extend_from_slice(&spliced(self.alloc, &self.words, 0, 0, b"")?)?;
        self.patch(block)
    }

    /// The patch that replaces some words of the line.
    pub(crate) fn spliced(
        &self,
        at: usize,
        removed: usize,
        by: &str,
    ) -> Result<Vec<Patch>, AllocError> {
        self.patch(spliced(self.alloc, &self.words, at, removed, by.as_bytes())?)
    }

    /// Proposes a word in place of others.
    pub(crate) fn propose(
        &self,
        remark: &mut Remark,
        help: String,
        at: usize,
        removed: usize,
        by: &str,
    ) -> Result<(), AllocError> {
        remark.propose(help, self.spliced(at, removed, by)?)
    }

    /// The requests of the section's rank.
    pub(crate) fn made(&self) -> Result<Vec<Request<'s>>, AllocError> {
        self.scene.made(self.alloc)
    }

    /// What the lines before this one say together with `line` in its place, if none of them has a fault.
    pub(crate) fn with_line(&self, line: Vec<u8>) -> Result<Option<History>, AllocError> {
        let front = self.draft.front(self.alloc, self.line, &self.patch(line)?)?;
        accepted(self.alloc, &front)
    }

    /// The number of words up to the end of the signature of a `post` or an `init`, and the history of the lines up to here
    /// with an `init` of that signature in place of this line. None if the signature can't be read.
    pub(crate) fn signed(&self) -> Result<Option<(usize, History)>, AllocError> {
        let mut line = Vec::from_slice(self.alloc, b"init")?;
        let mut end: usize = 1;
        for word in self.words.iter().skip(1) {
            push_word(&mut line, word.bytes)?;
            end = end.saturating_add(1);
            if end > 2 {
                let line = Vec::from_slice(self.alloc, &line)?;
                if let Some(history) = self.with_line(line)? {
                    return Ok(Some((end, history)));
                }
            }
            if end > LONGEST {
                break;
            }
        }
        Ok(None)
    }

    /// What a signature on a communicator requires of the section's rank.
    pub(crate) fn due<'h>(&self, comm: u8, sig: &'h Signature) -> Due<'h> {
        let group = self.scene.group(u128::from(comm));
        let rank = self.scene.rank().unwrap_or(0);
        let member = member_of(rank, group).unwrap_or(0).min(255) as u8;
        let n = group.len().min(255) as u8;
        Due {
            sig,
            member,
            values: sig.given_len(n, member) / sig.ty.width(),
        }
    }
}

/// The most words up to the end of a signature.
const LONGEST: usize = 80;

/// The communicator and the signature of the last command, if it is an `init`.
pub(crate) fn last_signed(history: &History) -> Option<(u8, &Signature)> {
    match &history.commands().last()?.command {
        Command::Init { comm, sig } => Some((*comm, sig.sig())),
        _ => None,
    }
}
