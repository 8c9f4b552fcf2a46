ghost use Rattle.std.specs.Prelude.{◌≡◌};

use crate::arrow::Arrow;
use crate::mark::Mark;
use coll_sched::Action;

/// An action of a schedule, with its round and its member.
#[derive(Clone, Copy, Debug, PartialEq, Eq)]
pub struct DrawnAction {
    /// The round, from 0 on.
    pub round: usize,
    /// The member's number.
    pub member: u8,
    pub action: Action,
}

impl DrawnAction {
    ghost use Rattle.coll_draw.specs.Drawings.{arrow_of, combination_of, copy_of};

    /// The message, if the action is a Send. That of a Recv is drawn at its sender.
    pub fn arrow(&self) -> Option<Arrow>
        ensures { result ≡ arrow_of self.now }
    {
        match self.action {
            Action::Send { to, from } => Some(Arrow {
                round: self.round,
                sender: self.member,
                receiver: to,
                len: from.len,
            }),
            Action::Copy { .. } | Action::Combine { .. } | Action::Recv { .. } => None,
        }
    }

    /// The mark, if the action is a Combine.
    pub fn combination(&self) -> Option<Mark>
        ensures { result ≡ combination_of self.now }
    {
        match self.action {
            Action::Combine { into, .. } => Some(Mark {
                round: self.round,
                member: self.member,
                len: into.len,
            }),
            Action::Send { .. } | Action::Copy { .. } | Action::Recv { .. } => None,
        }
    }

    /// The mark, if the action is a Copy.
    pub fn copy(&self) -> Option<Mark>
        ensures { result ≡ copy_of self.now }
    {
        match self.action {
            Action::Copy { into, .. } => Some(Mark {
                round: self.round,
                member: self.member,
                len: into.len,
            }),
            Action::Send { .. } | Action::Combine { .. } | Action::Recv { .. } => None,
        }
    }
}
