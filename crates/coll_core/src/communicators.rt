//! The groups of communicators.

ghost use Rattle.std.specs.Prelude.{◌≡◌, ◌<◌, ◌≤◌, Some, length, IfErr, IfOk};
ghost use Rattle.std.specs.Result.{result_err};
ghost use Rattle.coll_kinds.specs.Groups.{member_of};
ghost use Rattle.coll_machine.specs.Refusals.{unseated};
ghost use Rattle.coll_machine.specs.Settings.{group_in};
ghost use Rattle.coll_core.specs.Communicators.{groups_seen};
ghost use Rattle.coll_core.specs.Configs.{IsConfig, setting_by};

use crate::config::Config;
use coll_kinds::{Refusal, member_of};
use std::alloc::Global;
use std::marker::Model;

/// A rank's membership in a communicator.
#[derive(Clone, Copy, Debug, PartialEq, Eq)]
pub struct Seat {
    /// The number of members.
    pub size: u8,
    /// The rank's member number, below `size`.
    pub member: u8,
}

/// The world ranks of each communicator, in the order of their member numbers. Contracts see them
/// as lists.
#[derive(Drop)]
pub struct Communicators {
    groups: Vec<Vec<u8>>,
}

impl Model for Communicators {
    ghost use Rattle.std.specs.Prelude.{ℕ, List};
    ghost use Rattle.coll_core.specs.Communicators.{AreFew, groups_seen};

    ghost Value = { List (List ℕ) };

    ghost view = { λ c. groups_seen c.groups.items };

    ghost invariant = { λ c. AreFew (groups_seen c.groups.items) };
}

/// Copies the groups. Takes time and memory linear in all members.
///
/// # Errors
///
/// NoMemory.
pub fn copied_groups(alloc: Global, groups: &[Vec<u8>]) -> Result<Vec<Vec<u8>>, Refusal>
    ensures groups { IfOk result (λ copy. groups_seen copy.items ≡ groups_seen groups.now) }
    ensures refused { IfErr result (λ why. why ≡ Refusal.NoMemory) }
{
    let mut copy = Vec::new(alloc);
    for group in groups {
        copy.push(Vec::from_slice(alloc, group)?)?;
    }
    Ok(copy)
}

/// Returns the members of a communicator.
fn group_of(groups: &[Vec<u8>], comm: u32) -> &[u8]
    requires { comm < length groups.now }
    ensures { result.now ≡ group_in (groups_seen groups.now) comm }
{
    &groups[comm as usize]
}

impl Communicators {
    /// Takes the communicators of a configuration. Linear in all members, in time and memory.
    ///
    /// # Errors
    ///
    /// NoMemory.
    pub fn of(alloc: Global, config: &Config) -> Result<Communicators, Refusal>
        requires { IsConfig config.now }
        ensures groups { IfOk result (λ communicators. communicators ≡ (setting_by config.now).groups) }
        ensures refused { IfErr result (λ why. why ≡ Refusal.NoMemory) }
    {
        let groups = copied_groups(alloc, &config.groups)?;
        Ok(Communicators { groups })
    }

    /// Copies the communicators. Linear in all members, in time and memory.
    ///
    /// # Errors
    ///
    /// NoMemory.
    pub fn copy(&self, alloc: Global) -> Result<Communicators, Refusal>
        ensures same { IfOk result (λ copy. copy ≡ self.now) }
        ensures refused { IfErr result (λ why. why ≡ Refusal.NoMemory) }
    {
        let groups = copied_groups(alloc, &self.groups)?;
        Ok(Communicators { groups })
    }

    /// Returns a rank's membership in a communicator. Linear in the group.
    ///
    /// # Errors
    ///
    /// BadComm if there is no such communicator, then NotMember if the rank isn't in its group.
    pub fn seat(&self, comm: u32, rank: u8) -> Result<Seat, Refusal>
        ensures size { IfOk result (λ seat. seat.size ≡ length (group_in self.now comm)) }
        ensures member { IfOk result (λ seat. member_of rank (group_in self.now comm) ≡ Some seat.member) }
        ensures low { IfOk result (λ seat. seat.member < seat.size) }
        ensures few { IfOk result (λ seat. seat.size ≤ 64) }
        ensures refused { result_err result ≡ unseated self.now rank comm }
    {
        if comm as usize >= self.groups.len() {
            return Err(Refusal::BadComm { comm });
        }
        let group = group_of(&self.groups, comm);
        match member_of(rank, group) {
            Some(member) => Ok(Seat {
                size: group.len() as u8,
                member: member as u8,
            }),
            None => Err(Refusal::NotMember { rank }),
        }
    }
}
