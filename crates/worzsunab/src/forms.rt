//! Requests and configurations as C gives them.

ghost use Rattle.std.specs.Prelude.{◌≡◌, IfErr, IfOk};
ghost use Rattle.coll_core.specs.Configs.{setting_by};
ghost use Rattle.coll_core.specs.Communicators.{groups_seen};
ghost use Rattle.worzsunab.specs.Forms.{about_of, named_by, request_of};
ghost use Rattle.worzsunab.specs.Openings.{DeniesGroups, IsCut, setting_of};

use coll_complete::Request as Held;
use coll_core::{About as Told, Config};
use coll_kinds::{ConfigField, Mode, Refusal, Ticket};
use std::alloc::Global;

/// What names a request.
#[repr(C)]
#[derive(Clone, Copy)]
pub struct Request {
    pub slot: u32,
    pub generation: u32,
}

/// What a request is.
#[repr(C)]
#[derive(Clone, Copy)]
pub struct About {
    /// The world rank whose request it is.
    pub rank: u8,
    pub persistent: bool,
    pub comm: u32,
    /// Its index in its member's posting list on the communicator.
    pub place: u32,
    /// How often it was started.
    pub starts: u32,
}

/// What an engine is opened with, but its communicators.
#[repr(C)]
#[derive(Clone, Copy)]
pub struct Limits {
    pub ranks: u32,
    pub slots: u32,
    pub places: u32,
    pub wear: u32,
    pub starts: u32,
}

/// The greatest length of a trace that a configuration names; here there is none.
const MOST_ENTRIES: u32 = 1_048_576;

const MISFIT: Refusal = Refusal::BadConfig {
    field: ConfigField::Groups,
};

impl Request {
    /// A null one is all 0.
    pub fn of(held: &Held) -> Request
        ensures { result ≡ request_of held.now }
    {
        match held.ticket() {
            Some(ticket) => Request {
                slot: ticket.slot,
                generation: ticket.generation,
            },
            None => Request {
                slot: 0,
                generation: 0,
            },
        }
    }

    /// No request has generation 0.
    pub fn held(&self) -> Held
        ensures { result ≡ named_by self.now }
    {
        if self.generation == 0 {
            return Held::null();
        }
        Held::of(Ticket {
            slot: self.slot,
            generation: self.generation,
        })
    }
}

impl About {
    pub fn of(told: &Told) -> About
        ensures { result ≡ about_of told.now }
    {
        About {
            rank: told.rank,
            persistent: matches!(told.mode, Mode::Persistent),
            comm: told.comm,
            place: told.place,
            starts: told.starts,
        }
    }
}

impl Limits {
    /// The configuration; more ranks than a byte counts are as many as it does, which are too many too. No trace is kept.
    pub fn config(self, groups: Vec<Vec<u8>>) -> Config
        ensures { setting_by result ≡ setting_of self (groups_seen groups.items) }
    {
        Config {
            ranks: u8::try_from(self.ranks).unwrap_or(u8::MAX),
            groups,
            slots: self.slots,
            places: self.places,
            wear: self.wear,
            starts: self.starts,
            trace: MOST_ENTRIES,
        }
    }
}

/// The communicators: the members of one after those of the other, as many as its size.
///
/// # Errors
///
/// BadConfig where there are more or fewer members than the sizes say, and NoMemory.
pub fn groups_of(alloc: Global, sizes: &[u8], members: &[u8]) -> Result<Vec<Vec<u8>>, Refusal>
    ensures cut { IfOk result (λ groups. IsCut sizes.now members.now (groups_seen groups.items)) }
    ensures refused { IfErr result (DeniesGroups sizes.now members.now) }
{
    let mut groups = Vec::new(alloc);
    let mut rest = members;
    for size in sizes {
        let Some((group, after)) = rest.split_at_checked(usize::from(*size)) else {
            return Err(MISFIT);
        };
        groups.push(Vec::from_slice(alloc, group)?)?;
        rest = after;
    }
    if !rest.is_empty() {
        return Err(MISFIT);
    }
    Ok(groups)
}
