ghost use Rattle.std.specs.Prelude.{◌≡◌, IfOk};
ghost use Rattle.coll_match.specs.MessageBytes.{bytes_of};
ghost use Rattle.coll_ops.specs.Values.{all_rows};

use coll_bytes::Bytes;
use std::alloc::{AllocError, Global};
use std::marker::Model;

/// Where the bytes of a message lie.
#[derive(Debug, Drop)]
pub enum MessageParts {
    /// In one piece.
    Whole(Bytes),
    /// In several pieces, one after the other.
    Several(Vec<Bytes>),
}

/// The bytes of a message, which the sender may go on to have. Contracts see the bytes, never in how many pieces they lie.
#[derive(Debug, Drop)]
pub struct Message {
    /// The bytes, if they lie in one piece. A field is moved as it is; an enum with these bytes in one of its variants would be
    /// packed and unpacked at each step of a short message.
    bytes: Bytes,
    /// The pieces, if there are several.
    pieces: Option<Box<Vec<Bytes>>>,
}

impl Model for Message {
    ghost use Rattle.std.specs.Prelude.{List, ℕ};
    ghost use Rattle.coll_match.specs.MessageBytes.{message_bytes};

    ghost Value = { List ℕ };

    ghost view = { λ m. message_bytes m.bytes m.pieces };
}

impl Message {
    /// A message in one piece.
    #[inline(always)]
    pub fn whole(bytes: Bytes) -> Message
        ensures { result ≡ bytes }
    {
        Message {
            bytes,
            pieces: None,
        }
    }

    /// A message in several pieces, so that a sender whose bytes don't lie together needs no copy of them.
    ///
    /// # Errors
    ///
    /// No memory.
    pub fn several(alloc: Global, parts: Vec<Bytes>) -> Result<Message, AllocError>
        ensures { IfOk result (λ message. message ≡ all_rows parts.items) }
    {
        match Box::new(alloc, parts) {
            Ok(pieces) => Ok(Message {
                bytes: Bytes::empty(),
                pieces: Some(pieces),
            }),
            Err(_) => Err(AllocError),
        }
    }

    /// The pieces.
    #[inline(always)]
    pub fn into_parts(self) -> MessageParts
        ensures { bytes_of result ≡ self }
    {
        let Message { bytes, pieces } = self;
        match pieces {
            None => MessageParts::Whole(bytes),
            Some(pieces) => MessageParts::Several(Box::into_inner(pieces)),
        }
    }
}
