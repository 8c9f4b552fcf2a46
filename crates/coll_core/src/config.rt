ghost use Rattle.std.specs.Prelude.{◌≡◌, ◌<◌, ◌≤◌, ◌↔◌, IsTrue, IsNone, IfSome, IfErr, OnOk, length, slice_index, Some, All};
ghost use Rattle.coll_kinds.specs.Groups.{member_of};
ghost use Rattle.coll_core.specs.Configs.{Fits, FitBefore, IsConfig, IsFullGroup, IsMisfit, IsRefused};
ghost use Rattle.coll_kinds.specs.declared.refusal.ConfigField.TheVariants.{Groups};

use coll_kinds::{ConfigField, Refusal, member_of};

/// What an engine is opened with.
#[derive(Debug, Drop)]
pub struct Config {
    /// The number of world ranks, 1 to 64. The ranks are the numbers below it.
    pub ranks: u8,
    /// The world ranks of each communicator, in the order of their member numbers. There are 1 to
    /// 16 communicators, each with at least one rank and none twice.
    pub groups: Vec<Vec<u8>>,
    /// The most live requests at one time, 1 to 4,096.
    pub slots: u32,
    /// The most posts and initialisations of one member on one communicator, 1 to 65,536.
    pub places: u32,
    /// How many requests may use one slot, one after the other: 1 or more.
    pub wear: u32,
    /// The most starts of one request, 1 to 1,048,576.
    pub starts: u32,
    /// The most entries of the trace, 2 to 1,048,576.
    pub trace: u32,
}

impl Config {
    /// Checks the fields in the order of their declaration.
    ///
    /// # Errors
    ///
    /// BadConfig with the first field that is out of its range.
    pub fn check(&self) -> Result<(), Refusal>
        ensures ok { OnOk result (IsConfig self.now) }
        ensures refused { IfErr result (IsRefused self.now) }
    {
        match self.misfit() {
            Some(field) => Err(Refusal::BadConfig { field }),
            None => Ok(()),
        }
    }

    /// Returns the first field that is out of its range.
    fn misfit(&self) -> Option<ConfigField>
        ensures none { IsNone result → IsConfig self.now }
        ensures some { IfSome result (IsMisfit self.now) }
    {
        if self.ranks < 1 || self.ranks > 64 {
            return Some(ConfigField::Ranks);
        }
        if !self.are_groups() {
            return Some(ConfigField::Groups);
        }
        if self.slots < 1 || self.slots > 4_096 {
            return Some(ConfigField::Slots);
        }
        if self.places < 1 || self.places > 65_536 {
            return Some(ConfigField::Places);
        }
        if self.wear < 1 {
            return Some(ConfigField::Wear);
        }
        if self.starts < 1 || self.starts > 1_048_576 {
            return Some(ConfigField::Starts);
        }
        if self.trace < 2 || self.trace > 1_048_576 {
            return Some(ConfigField::Trace);
        }
        None
    }

    /// Tells whether there are 1 to 16 groups and each is a group.
    fn are_groups(&self) -> bool
        ensures { IsTrue result ↔ Fits self.now Groups }
    {
        (1..=16).contains(&self.groups.len())
            && self.groups.iter().all(|group| is_group(self.ranks, group))
    }
}

/// Tells whether `group` lists at least one rank, only ranks below `ranks`, and no rank twice.
/// Quadratic in the group.
fn is_group(ranks: u8, group: &[u8]) -> bool
    ensures { IsTrue result ↔ IsFullGroup ranks group.now }
{
    if group.is_empty() || group.len() > 64 {
        return false;
    }
    for member in 0..group.len() {
        if group[member] >= ranks || member_of(group[member], group) != Some(member) {
            return false;
        }
    }
    true
}
