//! The collectives of a job, each once.

use coll_kinds::{MAX_RANKS, Signature};
use indexmap::IndexMap;
use std::alloc::{AllocError, Global};

/// A collective among the members of a communicator.
#[derive(Clone, Copy, Debug)]
pub struct Collective {
    pub sig: Signature,
    /// How many members there are.
    pub size: u8,
}

/// Collectives, each once, in the order in which they were named first.
#[derive(Debug, Drop)]
pub(crate) struct Collectives {
    alloc: Global,
    all: Vec<Collective>,
    /// The indices of those with the same count and size: a collective is compared with these alone.
    alike: IndexMap<(u32, u8), Vec<usize>>,
}

impl Collectives {
    pub(crate) fn new(alloc: Global) -> Collectives {
        Collectives {
            alloc,
            all: Vec::new(alloc),
            alike: IndexMap::new(alloc),
        }
    }

    /// The index of the collective among `n` members, which is added if it isn't there. Linear in those of the same count and size.
    pub(crate) fn index_of(&mut self, sig: Signature, n: usize) -> Result<usize, AllocError> {
        let size = n.min(MAX_RANKS) as u8;
        match self.found(&sig, size) {
            Some(index) => Ok(index),
            None => self.add(Collective { sig, size }),
        }
    }

    pub(crate) fn into_all(self) -> Vec<Collective> {
        self.all
    }

    fn found(&self, sig: &Signature, size: u8) -> Option<usize> {
        let alike = self.alike.get(&(sig.count, size))?;
        alike.iter().copied().find(|index| self.has(*index, sig))
    }

    /// Whether the collective of that index has this signature.
    fn has(&self, index: usize, sig: &Signature) -> bool {
        match self.all.get(index) {
            Some(collective) => collective.sig.is_same(sig),
            None => false,
        }
    }

    fn add(&mut self, collective: Collective) -> Result<usize, AllocError> {
        let index = self.all.len();
        self.all.push(collective)?;
        let key = (collective.sig.count, collective.size);
        let alike = self.alike.entry(key)?.or_insert(Vec::new(self.alloc));
        alike.push(index)?;
        Ok(index)
    }
}
