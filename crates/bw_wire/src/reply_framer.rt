//! A stream of replies that comes in pieces.
ghost use Rattle.std.specs.Prelude.{◌≡◌, ◌+◌, ◌≤◌, length, IsOk, OnOk, OnErr};

use crate::fault::WireFault;
use crate::intake::{Intake, Phase};
use crate::reply::Reply;
use crate::reply_prefix::{ReplyPrefix, reply_prefix_of};
use std::alloc::{AllocError, Global};
use std::marker::Model;

/// Takes the replies of an exchange out of its bytes, which come in pieces of any size.
///
/// If all replies are taken out before the next piece is fed, little is held: at most 46 bytes, in
/// a block of at most 65,618.
#[derive(Drop)]
pub struct ReplyFramer {
    intake: Intake,
}

impl Model for ReplyFramer {
    ghost use Rattle.bw_wire.specs.FramerStates.{Pending};

    ghost Value = { Pending };

    ghost use Rattle.bw_wire.specs.Intakes.{pending_in, IsIntake};

    ghost view = { λ f. pending_in f.intake };

    ghost invariant = { λ f. IsIntake f.intake };
}

impl ReplyFramer {
    ghost use Rattle.bw_wire.specs.Codecs.{reply_codec};
    ghost use Rattle.bw_wire.specs.Held.{longest_rest, longest_piece, longest_stream};
    ghost use Rattle.bw_wire.specs.FramerStates.{fresh, with_piece, next_of, KeepsAtMost, HasBoundedBlock};
    ghost use Rattle.bw_wire.specs.FramerStates.{HoldsLittle, end_fault, IsOver};
    ghost use Rattle.bw_wire.specs.Replies.{reply_of};
    ghost use Rattle.bw_wire.specs.FramerAnswers.{reported_as, end_reported};

    /// A framer at the start of a stream.
    pub fn new(alloc: Global) -> ReplyFramer
        ensures { result ≡ fresh }
    {
        ReplyFramer {
            intake: Intake::new(alloc),
        }
    }

    /// How many bytes were fed, at most 2^62.
    pub fn fed(&self) -> u64
        ensures value { result ≡ self.now.fed }
        ensures range { result ≤ longest_stream }
    {
        self.intake.fed
    }

    /// Adds a piece of the stream, which has at most 2^62 bytes in all. After a fault the piece is
    /// dropped.
    ///
    /// If at most 46 bytes are held, as between two pieces, a piece of at most 65,536 bytes
    /// makes no block larger than 557,769.
    ///
    /// # Errors
    /// `AllocError` if memory was refused: nothing changed. It is never refused if there is room,
    /// the piece is empty, or the stream is over.
    ///
    /// # Not specified
    /// When a growth is refused.
    pub fn feed(&mut self, piece: &[u8]) -> Result<(), AllocError>
        requires { self.old.fed + length piece.now ≤ longest_stream }
        ensures ok { OnOk result (self.new ≡ with_piece self.old piece.now) }
        ensures err { OnErr result (self.new ≡ self.old) }
        ensures dropped { IsOver self.old → IsOk result }
        ensures room { self.old.held + length piece.now ≤ self.old.room → IsOk result }
        ensures empty { length piece.now ≡ 0 → IsOk result }
        ensures bounded { KeepsAtMost longest_rest self.old → length piece.now ≤ longest_piece →
            HasBoundedBlock self.new }
    {
        self.intake.feed(piece)
    }

    /// The first reply of the bytes that are left, which is used up; None if it isn't whole yet.
    ///
    /// Between two pieces at most 46 bytes are held, in a block of at most 65,618.
    ///
    /// # Errors
    /// `WireFault` if the bytes are no reply's frame: the first reason that holds, and the
    /// frame's offset. Nothing is held then, and the same fault is returned from then on.
    pub fn next_frame(&mut self) -> Result<Option<Reply>, WireFault>
        ensures left { self.new ≡ (next_of reply_codec self.old).1 }
        ensures reported { reported_as reply_of result ≡ (next_of reply_codec self.old).0 }
        ensures held { HoldsLittle reply_codec (next_of reply_codec self.old) }
    {
        let offset = self.intake.used;
        match self.intake.phase {
            Phase::Reading => {}
            Phase::Left => return Ok(None),
            Phase::Failed(reason) => return Err(WireFault { reason, offset }),
        }
        match reply_prefix_of(self.intake.bytes()) {
            ReplyPrefix::Partial => {
                self.intake.compact();
                Ok(None)
            }
            ReplyPrefix::Bad(reason) => {
                self.intake.finish(Phase::Failed(reason));
                Err(WireFault { reason, offset })
            }
            ReplyPrefix::Whole(reply, len) => {
                self.intake.use_up(len);
                Ok(Some(reply))
            }
        }
    }

    /// Whether the input may end here.
    ///
    /// # Errors
    /// The fault that was reported, or `Cut` if bytes are left, even whole frames. Its offset is
    /// where those bytes begin.
    pub fn end(&self) -> Result<(), WireFault>
        ensures { end_reported result ≡ end_fault self.now }
    {
        self.intake.end()
    }
}
