use crate::accepting::accepted;
use crate::draft::MendedText;
use crate::words::{first_word, words_of};
use coll_kinds::read_number;
use coll_parser::{Command, History, Request};
use std::alloc::{AllocError, Global};

/// What the lines before a faulty one have said.
#[derive(Drop)]
pub(crate) struct Scene {
    history: History,
    /// The rank whose section is open.
    rank: Option<u8>,
}

impl Scene {
    /// What the lines before that one have said; None if one of them has a fault.
    pub(crate) fn before(
        alloc: Global,
        draft: &MendedText<'_>,
        line: u32,
    ) -> Result<Option<Scene>, AllocError> {
        let front = draft.front(alloc, line.saturating_sub(1), &[])?;
        let Some(history) = accepted(alloc, &front)? else {
            return Ok(None);
        };
        Ok(Some(Scene {
            history,
            rank: opened(alloc, &front)?,
        }))
    }

    pub(crate) fn has_ranks(&self) -> bool {
        self.history.has_ranks()
    }

    pub(crate) fn ranks(&self) -> u8 {
        self.history.ranks()
    }

    pub(crate) fn rank(&self) -> Option<u8> {
        self.rank
    }

    pub(crate) fn groups(&self) -> &[Vec<u8>] {
        self.history.groups()
    }

    /// The members of a communicator; empty if it isn't known.
    pub(crate) fn group(&self, comm: u128) -> &[u8] {
        match usize::try_from(comm)
            .ok()
            .and_then(|comm| self.groups().get(comm))
        {
            Some(group) => group,
            None => &[],
        }
    }

    /// The requests of the rank whose section is open. Linear in the commands.
    pub(crate) fn made(&self, alloc: Global) -> Result<Vec<Request<'_>>, AllocError> {
        let Some(rank) = self.rank else {
            return Ok(Vec::new(alloc));
        };
        let ranks = self.history.requests(alloc)?;
        let requests = ranks.into_iter().nth(usize::from(rank));
        Ok(requests.unwrap_or(Vec::new(alloc)))
    }

    /// The line that freed a request of the rank whose section is open, if one did. Linear in the commands.
    pub(crate) fn freed_in(&self, request: usize) -> Option<u32> {
        let rank = self.rank?;
        self.history
            .commands()
            .iter()
            .find(|issued| issued.rank == rank && frees(&issued.command, request))
            .map(|issued| issued.line)
    }
}

fn frees(command: &Command, request: usize) -> bool {
    matches!(command, Command::Free(req) if *req as usize == request)
}

/// The rank whose section is open after these lines, none of which has a fault.
fn opened(alloc: Global, front: &[u8]) -> Result<Option<u8>, AllocError> {
    let mut rank = None;
    for line in front.split(|b| *b == b'\n') {
        if first_word(line) == b"rank".as_slice() {
            let words = words_of(alloc, line)?;
            if let Some(word) = words.get(1) {
                rank = read_number(word.bytes).and_then(|number| u8::try_from(number).ok());
            }
        }
    }
    Ok(rank)
}
