use coll_core::Config;
use coll_kinds::Refusal;
use std::alloc::Global;

/// The configuration of a row's engine.
#[derive(Clone, Copy)]
pub struct CoreSetup {
    pub ranks: u8,
    /// The ranks of each communicator; communicator 0 has all ranks.
    pub groups: &'static [&'static [u8]],
    pub slots: u32,
    pub places: u32,
    pub wear: u32,
    pub starts: u32,
    pub trace: u32,
}

impl CoreSetup {
    /// The engine's configuration.
    pub fn config(&self, alloc: Global) -> Result<Config, Refusal> {
        let mut groups = Vec::new(alloc);
        for group in self.groups {
            groups.push(Vec::from_slice(alloc, group)?)?;
        }
        Ok(Config {
            ranks: self.ranks,
            groups,
            slots: self.slots,
            places: self.places,
            wear: self.wear,
            starts: self.starts,
            trace: self.trace,
        })
    }
}

pub const ALONE: CoreSetup = CoreSetup {
    ranks: 1,
    groups: &[&[0]],
    slots: 8,
    places: 4,
    wear: 8,
    starts: 4,
    trace: 64,
};

pub const PAIR: CoreSetup = CoreSetup {
    ranks: 2,
    groups: &[&[0, 1]],
    ..ALONE
};

pub const THREE: CoreSetup = CoreSetup {
    ranks: 3,
    groups: &[&[0, 1, 2]],
    ..ALONE
};

pub const FIVE: CoreSetup = CoreSetup {
    ranks: 5,
    groups: &[&[0, 1, 2, 3, 4]],
    ..ALONE
};
