use coll_kinds::MAX_RANKS;
use std::alloc::{AllocError, Global};

/// A set of members of a communicator, or of ranks of a job.
#[derive(Clone, Copy, Debug, PartialEq, Eq)]
pub struct Members {
    is_member: [bool; MAX_RANKS],
}

impl Members {
    /// The empty set.
    pub const NONE: Members = Members {
        is_member: [false; MAX_RANKS],
    };

    /// The set of all numbers from 0 to 63.
    pub const ALL: Members = Members {
        is_member: [true; MAX_RANKS],
    };

    /// The set of these members.
    pub fn of(members: &[u8]) -> Members {
        let mut all = Members::NONE;
        for member in members {
            all.insert(*member);
        }
        all
    }

    /// The set of this member alone.
    pub fn one(member: u8) -> Members {
        let mut members = Members::NONE;
        members.insert(member);
        members
    }

    /// Whether the number is in the set.
    pub fn contains(&self, member: u8) -> bool {
        self.is_member.get(usize::from(member)).copied() == Some(true)
    }

    /// Adds a member. A number above 63 is no member's, and changes nothing.
    pub fn insert(&mut self, member: u8) {
        if let Some(is_member) = self.is_member.get_mut(usize::from(member)) {
            *is_member = true;
        }
    }

    /// The members of the set, in rising order.
    pub fn listed(&self, alloc: Global) -> Result<Vec<u8>, AllocError> {
        (0..MAX_RANKS as u8)
            .filter(|member| self.contains(*member))
            .collect(alloc)
    }

    /// Adds all members of the other set.
    pub fn insert_all(&mut self, other: &Members) {
        for member in 0..MAX_RANKS {
            self.is_member[member] = self.is_member[member] || other.is_member[member];
        }
    }
}
