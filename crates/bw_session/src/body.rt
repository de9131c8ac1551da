//! The body of a message that waits for its verdict.
ghost use Rattle.std.specs.Prelude.{◌≡◌, ◌≤◌, [], length, vec_capacity};
ghost use Rattle.sha2.specs.Sha256.{sha256};
ghost use Rattle.bw_model.specs.Wire.{message_body};
ghost use Rattle.bw_wire.specs.Bodies.{message_in};
ghost use Rattle.bw_wire.specs.Frames.{message_of};

use bw_wire::{Frame, Message, decode};
use std::marker::Model;

/// The body of a message, of at most 32,806 bytes, with its SHA-256 digest.
#[derive(Drop)]
pub(crate) struct HeldBody {
    bytes: Vec<u8>,
    digest: [u8; 32],
}

impl Model for HeldBody {
    ghost use Rattle.std.specs.Prelude.{List, ℕ};
    ghost use Rattle.bw_session.specs.Bodies.{IsHeldBody};

    ghost Value = { List ℕ };

    ghost view = { λ b. b.bytes.items };

    ghost invariant = { λ b. IsHeldBody b.bytes.items b.digest };
}

impl HeldBody {
    /// Copies a message's body into a buffer that has room for it.
    pub(crate) fn copy_to(room: Vec<u8>, message: &Message<'_>, digest: [u8; 32]) -> HeldBody
        requires empty { room.items ≡ [] }
        requires room { length (message_body (message_of message.now)) ≤ vec_capacity room }
        requires digest { digest ≡ sha256 (message_body (message_of message.now)) }
        ensures { result ≡ message_body (message_of message.now) }
    {
        let mut bytes = room;
        bytes.extend_from_slice(message.body()).unwrap();
        HeldBody { bytes, digest }
    }

    /// The message that it encodes.
    pub(crate) fn message(&self) -> Message<'_>
        ensures value { message_of result ≡ message_in self.now }
        ensures spelled { self.now ≡ message_body (message_of result) }
    {
        match decode(self.bytes.as_slice()) {
            Ok(Frame::Message(message)) => message,
            _ => unreachable!(),
        }
    }

    /// Its SHA-256 digest.
    pub(crate) fn digest(&self) -> &[u8; 32]
        ensures { result.now ≡ sha256 self.now }
    {
        &self.digest
    }
}
