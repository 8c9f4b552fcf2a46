use coll_core::Config;
use coll_kinds::Refusal;
use std::alloc::Global;

/// The configuration of a row's engine.
#[derive(Clone, Copy)]
pub struct PortSetup {
    pub ranks: u8,
    /// The ranks of each communicator; communicator 0 has all ranks.
    pub groups: &'static [&'static [u8]],
    pub slots: u32,
    pub places: u32,
    pub trace: u32,
}

impl PortSetup {
    /// The engine's configuration.
    pub fn config(&self, alloc: Global) -> Result<Config, Refusal> {
        let mut groups = Vec::new(alloc);
        for group in self.groups {
            groups.push(Vec::from_slice(alloc, group)?)?;
        }
        Ok(Config {
            ranks: self.ranks,
            groups,
            slots: self.slots,
            places: self.places,
            wear: 8,
            starts: 8,
            trace: self.trace,
        })
    }
}

/// An engine of one rank.
pub const LONE: PortSetup = PortSetup {
    ranks: 1,
    groups: &[&[0]],
    slots: 4,
    places: 8,
    trace: 8,
};

/// An engine of two ranks in one communicator.
pub const PAIR: PortSetup = PortSetup {
    ranks: 2,
    groups: &[&[0, 1]],
    slots: 4,
    places: 8,
    trace: 16,
};

/// An engine of two ranks: communicator `BOTH` has both, and `ALONE` has rank 0.
pub const TWO_GROUPS: PortSetup = PortSetup {
    ranks: 2,
    groups: &[&[0, 1], &[0]],
    slots: 8,
    places: 8,
    trace: 64,
};

pub const BOTH: u32 = 0;

pub const ALONE: u32 = 1;
