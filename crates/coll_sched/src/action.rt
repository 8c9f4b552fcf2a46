ghost use Rattle.std.specs.Prelude.{◌≡◌, ◌↔◌, ◌∷◌, [], length, IsTrue, All, IfOk, IsOkUnless, OnOk, OnErr};

use crate::region::Region;
use coll_kinds::{Datatype, Op, Refusal};
use coll_ops::combine;
use std::alloc::Global;

/// One step of one member, over its own buffer.
///
/// An action reads all that it reads before it writes, so its own regions may overlap.
#[derive(Clone, Copy, Debug, PartialEq, Eq)]
pub enum Action {
    /// Copies a region into the message of this round to a member.
    Send {
        /// The receiver's member number.
        to: u8,
        from: Region,
    },
    /// Copies a region to another of equal length.
    Copy {
        from: Region,
        into: Region,
    },
    /// Writes the combination of `left` and `right`, in this order, into `into`.
    Combine {
        op: Op,
        ty: Datatype,
        left: Region,
        right: Region,
        into: Region,
    },
    /// Copies the message of this round from a member into a region of its length.
    Recv {
        /// The sender's member number.
        of: u8,
        into: Region,
    },
}

/// A Send of no bytes to member 0, which fills the unused places of a round's actions.
impl Default for Action {
    ghost use Rattle.coll_sched.specs.declared.action.Action.TheVariants.{Send};

    ghost is_default = { λ action. action ≡ Send 0 (record { at = 0; len = 0 }) };

    fn default() -> Self {
        Action::Send {
            to: 0,
            from: Region::default(),
        }
    }
}

impl Action {
    ghost use Rattle.coll_sched.specs.Actions.{Fits, Follows, OtherPeer, AllApart, order, reads, writes, wrote, message_of, IsCombine, IsLocal, IsSend, Takes};
    ghost use Rattle.coll_sched.specs.Schedules.{has_peer};

    /// Carries out a Copy or a Combine over `buf`. A Combine takes memory for its result; where that
    /// is refused, `buf` is unchanged. A Copy takes none, and can't be refused.
    pub fn local(self, alloc: Global, buf: &mut [u8]) -> Result<(), Refusal>
        requires local { IsLocal self }
        requires fits { Fits (length buf.old) self }
        ensures ok { OnOk result (buf.new ≡ wrote (λ p. []) buf.old self buf.old) }
        ensures err { OnErr result (buf.new ≡ buf.old) }
        ensures refusal { IsOkUnless result Refusal.NoMemory }
        ensures copy { OnErr result (IsCombine self) }
    {
        match self {
            Action::Copy { from, into } => {
                from.copy(into, buf);
                Ok(())
            }
            Action::Combine {
                op,
                ty,
                left,
                right,
                into,
            } => {
                let mut out = vec![in alloc; 0; into.len as usize]?;
                combine(op, ty, left.read(buf), right.read(buf), &mut out);
                into.write(&out, buf);
                Ok(())
            }
            Action::Send { .. } | Action::Recv { .. } => unreachable!(),
        }
    }

    /// The message of a Send, a copy of its region; it takes memory for that.
    pub fn message(self, alloc: Global, buf: &[u8]) -> Result<Vec<u8>, Refusal>
        requires sends { IsSend self }
        requires fits { Fits (length buf.now) self }
        ensures ok { IfOk result (λ message. message.items ≡ message_of self buf.now) }
        ensures refusal { IsOkUnless result Refusal.NoMemory }
    {
        let Action::Send { from, .. } = self else {
            unreachable!()
        };
        Ok(Vec::from_slice(alloc, from.read(buf))?)
    }

    /// Writes the message of a Recv, which has its region's length, into `buf`. It takes no memory.
    pub fn accept(self, msg: &[u8], buf: &mut [u8])
        requires takes { Takes self (length msg.now) }
        requires fits { Fits (length buf.old) self }
        ensures { buf.new ≡ wrote (λ p. msg.now) buf.old self buf.old }
    {
        let Action::Recv { into, .. } = self else {
            unreachable!()
        };
        into.write(msg, buf);
    }

    /// Whether the action is a Send or a Recv.
    pub fn has_peer(self) -> bool
        ensures { result ≡ has_peer self }
    {
        matches!(self, Action::Send { .. } | Action::Recv { .. })
    }

    /// Whether a schedule whose buffer has `size` bytes may have the action: its regions lie in the buffer,
    /// those of a Copy or a Combine have one length, and a Combine's operation is allowed on its type,
    /// whose width divides that length.
    pub fn fits(self, size: u32) -> bool
        ensures { IsTrue result ↔ Fits size self }
    {
        match self {
            Action::Send { from, .. } => from.is_inside(size),
            Action::Copy { from, into } => {
                from.is_inside(size) && into.is_inside(size) && from.len == into.len
            }
            Action::Combine {
                op,
                ty,
                left,
                right,
                into,
            } => {
                left.is_inside(size)
                    && right.is_inside(size)
                    && into.is_inside(size)
                    && left.len == into.len
                    && right.len == into.len
                    && op.is_allowed_on(ty)
                    && into.len as usize % ty.width() == 0
            }
            Action::Recv { into, .. } => into.is_inside(size),
        }
    }

    // Whether all of these may follow this action in one round.
    pub(crate) fn may_precede_all(self, rest: &[Action]) -> bool
        ensures { IsTrue result ↔ All (Follows self) rest.now }
    {
        rest.iter().all(|later| self.may_precede(*later))
    }

    // Whether `later` may follow this action in one round.
    fn may_precede(self, later: Action) -> bool
        ensures { IsTrue result ↔ Follows self later }
    {
        self.order() <= later.order()
            && self.has_other_peer(later)
            && self.spares_reads(later)
            && later.spares_reads(self)
            && self.spares_writes(later)
    }

    // The place of the action's kind in a round.
    fn order(self) -> u8
        ensures { result ≡ order self }
    {
        match self {
            Action::Send { .. } => 0,
            Action::Copy { .. } => 1,
            Action::Combine { .. } => 2,
            Action::Recv { .. } => 3,
        }
    }

    // Not two sends to one member, nor two receives of one.
    fn has_other_peer(self, other: Action) -> bool
        ensures { IsTrue result ↔ OtherPeer self other }
    {
        match (self, other) {
            (Action::Send { to, .. }, Action::Send { to: other, .. }) => to != other,
            (Action::Recv { of, .. }, Action::Recv { of: other, .. }) => of != other,
            _ => true,
        }
    }

    // Whether the action writes no byte of what the other reads.
    fn spares_reads(self, other: Action) -> bool
        ensures { IsTrue result ↔ AllApart (writes self) (reads other) }
    {
        match other {
            Action::Send { from, .. } | Action::Copy { from, .. } => self.spares(from),
            Action::Combine { left, right, .. } => self.spares(left) && self.spares(right),
            Action::Recv { .. } => true,
        }
    }

    // Whether the action writes no byte of what the other writes.
    fn spares_writes(self, other: Action) -> bool
        ensures { IsTrue result ↔ AllApart (writes self) (writes other) }
    {
        match other {
            Action::Send { .. } => true,
            Action::Copy { into, .. } | Action::Combine { into, .. } | Action::Recv { into, .. } =>
                self.spares(into),
        }
    }

    // Whether the action writes no byte of the region.
    fn spares(self, region: Region) -> bool
        ensures { IsTrue result ↔ AllApart (writes self) (region ∷ []) }
    {
        match self {
            Action::Send { .. } => true,
            Action::Copy { into, .. } | Action::Combine { into, .. } | Action::Recv { into, .. } =>
                into.is_apart(region),
        }
    }
}
