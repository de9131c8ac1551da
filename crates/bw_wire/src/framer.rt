//! A stream of frames that comes in pieces.
ghost use Rattle.std.specs.Prelude.{◌≡◌, ◌+◌, ◌≤◌, length, IfSome, IsOk, OnOk, OnErr};
ghost use Rattle.bw_wire.specs.BodyDigests.{first_body, held_bytes, IsDigestOf};
ghost use Rattle.bw_wire.specs.Framings.{is_decided};

use crate::body_digests::{BodyDigests, HeldBody, held_body, kept_digest, with_digest};
use crate::fault::WireFault;
use crate::frame_prefix::{FramePrefix, LONGEST_BODY, frame_prefix_of};
use crate::framing::{Framing, framing_of};
use crate::intake::{Intake, Phase};
use crate::message::{Ask, Frame, Message};
use std::alloc::{AllocError, Global};
use std::marker::Model;

/// Takes the frames of an exchange out of its bytes, which come in pieces of any size.
///
/// If all frames are taken out before the next piece is fed, little is held between two pieces: at
/// most 32,809 bytes, in a block of at most 65,618.
#[derive(Drop)]
pub struct Framer {
    intake: Intake,
    /// Digests of bodies in the block.
    digests: Option<BodyDigests>,
}

impl Model for Framer {
    ghost use Rattle.bw_wire.specs.FramerStates.{Pending};

    ghost Value = { Pending };

    ghost use Rattle.bw_wire.specs.Intakes.{pending_in, IsIntake};
    ghost use Rattle.bw_wire.specs.BodyDigests.{KeepsDigests};

    ghost view = { λ f. pending_in f.intake };

    ghost invariant = { λ f. IsIntake f.intake × KeepsDigests f.intake.buffer.bytes f.digests };
}

impl Framer {
    ghost use Rattle.std.specs.Borrow.{sem};
    ghost use Rattle.std.specs.Io.BufRead.{Rests};
    ghost use Rattle.bw_wire.specs.contracts.framer.Framer.{the_row};
    ghost use Rattle.bw_wire.specs.Codecs.{message_codec};
    ghost use Rattle.bw_wire.specs.Frames.{frame_of};
    ghost use Rattle.bw_wire.specs.Held.{longest_rest, longest_message_piece, longest_stream};
    ghost use Rattle.bw_wire.specs.FramerStates.{fresh, with_piece, next_of, KeepsAtMost, HasBoundedBlock};
    ghost use Rattle.bw_wire.specs.FramerStates.{HoldsLittle, end_fault, IsOver};
    ghost use Rattle.bw_wire.specs.FramerAnswers.{reported_as, end_reported};

    /// A framer at the start of a stream.
    pub fn new(alloc: Global) -> Framer
        ensures { result ≡ fresh }
    {
        Framer {
            intake: Intake::new(alloc),
            digests: None,
        }
    }

    /// How many bytes were fed, at most 2^62.
    pub fn fed(&self) -> u64
        ensures value { result ≡ self.now.fed }
        ensures range { result ≤ longest_stream }
    {
        self.intake.fed
    }

    /// Adds a piece of the stream, which has at most 2^62 bytes in all. After the end of the
    /// exchange or a fault the piece is dropped.
    ///
    /// If at most 32,809 bytes are held, as between two pieces, a piece of at most 524,960 bytes
    /// makes no block larger than 557,769.
    ///
    /// # Errors
    /// `AllocError` if memory was refused: nothing changed. It is never refused if there is room,
    /// the piece is empty, or the stream is over.
    ///
    /// # Not specified
    /// When a growth is refused.
    pub fn feed(&mut self, piece: &[u8]) -> Result<(), AllocError>
        requires { self.old.fed + length piece.now ≤ longest_stream }
        ensures ok { OnOk result (self.new ≡ with_piece self.old piece.now) }
        ensures err { OnErr result (self.new ≡ self.old) }
        ensures dropped { IsOver self.old → IsOk result }
        ensures room { self.old.held + length piece.now ≤ self.old.room → IsOk result }
        ensures empty { length piece.now ≡ 0 → IsOk result }
        ensures bounded { KeepsAtMost longest_rest self.old →
            length piece.now ≤ longest_message_piece → HasBoundedBlock self.new }
    {
        self.digests = None;
        self.intake.feed(piece)
    }

    /// Computes the digests of the bodies of up to eight whole frames that are held, at once, if none
    /// of those that are left is known and that is faster than one after another. Their messages are
    /// given with them.
    ///
    /// # Not specified
    /// Which digests are computed: a message's `digest` doesn't depend on it.
    pub fn hash_ahead(&mut self)
        ensures { self.new ≡ self.old }
    {
        if let Some(known) = &self.digests
            && known.reaches(self.intake.start)
        {
            return;
        }
        self.digests = BodyDigests::of(self.intake.buffer.as_slice(), self.intake.start);
    }

    /// Whether the first frame is decided: it is whole, or has a length that no frame has.
    pub fn is_decided(&self) -> bool
        ensures { result ≡ is_decided self.now.bytes }
    {
        match framing_of(self.intake.bytes(), LONGEST_BODY) {
            Framing::Partial => false,
            Framing::Bad => true,
            Framing::Body(_len) => true,
        }
    }

    /// The body of the frame at a place, if it is whole. Places count from the first byte that isn't
    /// used up.
    pub fn held_body(&self, from: usize) -> Option<HeldBody>
        ensures { result ≡ first_body self.now.bytes from }
    {
        held_body(self.intake.bytes(), from)
    }

    /// The bytes of a body.
    pub fn body_at(&self, body: HeldBody) -> &[u8]
        ensures { result.now ≡ held_bytes self.now.bytes body }
    {
        body.bytes_of(self.intake.bytes())
    }

    /// The digest of this body, if it is known.
    ///
    /// # Not specified
    /// When it is known: a message's `digest` doesn't depend on it.
    pub fn known_digest(&self, body: HeldBody) -> Option<[u8; 32]>
        ensures { IfSome result (IsDigestOf (held_bytes self.now.bytes body)) }
    {
        let at = self.intake.start.checked_add(body.at)?;
        kept_digest(&self.digests, at, body.len)
    }

    /// Keeps the digest of this body, which was computed elsewhere, for its message. Of more than
    /// eight some are left out.
    pub fn keep_digest(&mut self, body: HeldBody, digest: [u8; 32])
        requires { IsDigestOf (held_bytes self.old.bytes body) digest }
        ensures { self.new ≡ self.old }
    {
        let start = self.intake.start;
        if let Some(at) = start.checked_add(body.at) {
            self.digests = Some(with_digest(&self.digests, start, at, body.len, digest));
        }
    }

    /// The first frame of the bytes that are left, which is used up; None if it isn't whole yet.
    ///
    /// Between two pieces at most 32,809 bytes are held, in a block of at most 65,618.
    ///
    /// # Errors
    /// `WireFault` if the bytes are no frame: the first reason that holds of `Length`, `Kind`,
    /// `Name`, `Number` and `Payload`, and the frame's offset. Nothing is held then, and the same
    /// fault is returned from then on, as `Bye` is after `Bye`.
    pub fn next_frame(&mut self) -> Result<Option<Frame<'_>>, WireFault>
        ensures* left { sem 𝓛 (Rests the_row self.entry (λ new. new ≡ (next_of message_codec self.old).1)) }
        ensures reported { reported_as frame_of result ≡ (next_of message_codec self.old).0 }
        ensures held { HoldsLittle message_codec (next_of message_codec self.old) }
    {
        let offset = self.intake.used;
        match self.intake.phase {
            Phase::Reading => {}
            Phase::Left => return Ok(Some(Frame::Bye)),
            Phase::Failed(reason) => return Err(WireFault { reason, offset }),
        }
        let at = self.intake.start + 4;
        match frame_prefix_of(self.intake.bytes()) {
            FramePrefix::Partial => {
                self.digests = None;
                self.intake.compact();
                Ok(None)
            }
            FramePrefix::Bad(reason) => {
                self.digests = None;
                self.intake.finish(Phase::Failed(reason));
                Err(WireFault { reason, offset })
            }
            FramePrefix::Bye(len) => {
                self.digests = None;
                self.intake.use_up(len);
                self.intake.finish(Phase::Left);
                Ok(Some(Frame::Bye))
            }
            FramePrefix::Message(len) => {
                self.intake.use_up(len);
                let digest = kept_digest(&self.digests, at, len);
                let body = &self.intake.buffer.as_slice()[at..at + len];
                Ok(Some(Frame::Message(Message { body, digest })))
            }
            FramePrefix::Ask(len) => {
                self.intake.use_up(len);
                let body = &self.intake.buffer.as_slice()[at..at + len];
                Ok(Some(Frame::Ask(Ask { body })))
            }
        }
    }

    /// Whether the input may end here.
    ///
    /// # Errors
    /// The fault that was reported, or `Cut` if bytes are left, even whole frames. Its offset is
    /// where those bytes begin.
    pub fn end(&self) -> Result<(), WireFault>
        ensures { end_reported result ≡ end_fault self.now }
    {
        self.intake.end()
    }
}
