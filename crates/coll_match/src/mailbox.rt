ghost use Rattle.std.specs.Prelude.{◌≡◌, [], None, Some, is_some, position, IfErr, OnErr, OnOk};
ghost use Rattle.std.specs.List.{list_any};
ghost use Rattle.coll_kinds.specs.declared.refusal.Refused.{Refused};
ghost use Rattle.coll_match.specs.Held.{put_sent, same_envelope, sent_in};

use crate::envelope::Envelope;
use crate::message::Message;
use coll_kinds::{Refusal, Refused};
use std::alloc::Global;
use std::marker::Model;

/// A message that wasn't taken yet.
#[derive(Debug, Drop)]
pub(crate) struct Unreceived {
    envelope: Envelope,
    bytes: Message,
}

/// What one member has sent and nobody has taken yet. To find a message is linear in these: one for each other member where
/// members exchange directly, one for each segment of a long bcast, and mostly one or two else.
#[derive(Debug, Drop)]
pub(crate) struct Mailbox {
    messages: Vec<Unreceived>,
}

impl Model for Mailbox {
    ghost use Rattle.std.specs.Prelude.{ℕ, List};
    ghost use Rattle.std.specs.List.{IsDistinct};
    ghost use Rattle.std.specs.Map.{keys_of};
    ghost use Rattle.coll_match.specs.Held.{same_envelope};
    ghost use Rattle.coll_match.specs.Messages.{messages_of};
    ghost use Rattle.coll_match.specs.declared.envelope.Envelope.{Envelope};

    ghost Value = { List (Envelope × List ℕ) };

    ghost view = { λ o. messages_of o.messages.items };

    ghost invariant = { λ o. IsDistinct same_envelope (keys_of (messages_of o.messages.items)) };
}

/// Where the message to a receiver for a round lies among these.
fn place_of(messages: &[Unreceived], envelope: Envelope) -> Option<usize>
    ensures { result ≡ position (λ unreceived. same_envelope envelope unreceived.envelope) messages.now }
{
    messages
        .iter()
        .position(|unreceived| envelope == unreceived.envelope)
}

/// Whether the message to a receiver for a round is among these.
fn has(messages: &[Unreceived], envelope: Envelope) -> bool
    ensures { result ≡ list_any (λ unreceived. same_envelope envelope unreceived.envelope) messages.now }
{
    messages
        .iter()
        .any(|unreceived| envelope == unreceived.envelope)
}

impl Mailbox {
    /// Without messages. It takes no memory.
    pub(crate) fn new(alloc: Global) -> Mailbox
        ensures { result ≡ [] }
    {
        Mailbox {
            messages: Vec::new(alloc),
        }
    }

    /// Drops all messages. Their row's memory stays.
    pub(crate) fn empty(&mut self)
        ensures { self.new ≡ [] }
    {
        self.messages.clear();
    }

    /// Keeps a message until it is taken. Only NoMemory is refused, and hands the message back.
    #[inline(always)]
    pub(crate) fn put(&mut self, envelope: Envelope, bytes: Message) -> Result<(), Refused<Message>>
        requires { sent_in self.old envelope.to envelope.round ≡ None }
        ensures sent { OnOk result (sent_in self.new ≡ put_sent (sent_in self.old) envelope.to envelope.round (Some bytes)) }
        ensures refused { IfErr result (λ refused. refused ≡ record { why = Refusal.NoMemory; back = bytes }) }
        ensures err { OnErr result (self.new ≡ self.old) }
    {
        if let Err(failed) = self.messages.push(Unreceived { envelope, bytes }) {
            let Unreceived { bytes, .. } = failed.value;
            return Err(Refused {
                why: Refusal::NoMemory,
                back: bytes,
            });
        }
        Ok(())
    }

    /// A message stands.
    pub(crate) fn is_ready(&self, envelope: Envelope) -> bool
        ensures { result ≡ is_some (sent_in self.now envelope.to envelope.round) }
    {
        has(&self.messages, envelope)
    }

    /// Takes a message out.
    #[inline(always)]
    pub(crate) fn take(&mut self, envelope: Envelope) -> Option<Message>
        ensures taken { result ≡ sent_in self.old envelope.to envelope.round }
        ensures sent { sent_in self.new ≡ put_sent (sent_in self.old) envelope.to envelope.round None }
    {
        let place = place_of(&self.messages, envelope)?;
        let Unreceived { bytes, .. } = self.messages.remove(place);
        Some(bytes)
    }
}
