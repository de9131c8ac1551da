//! An exchange as a state machine without I/O: bytes go in, frames are answered, bytes come out.
ghost use Rattle.std.specs.Prelude.{◌≡◌, ◌+◌, ◌≤◌, [], length, take, drop, true, false, IfOk, OnOk};
ghost use Rattle.std.specs.Prelude.{OnErr, None, vec_len, vec_capacity, is_some, if◌then◌else◌};
ghost use Rattle.bw_wire.specs.BodyDigests.{held_bytes, IsDigestOf};
ghost use Rattle.bw_wire.specs.Codecs.{message_codec};
ghost use Rattle.bw_wire.specs.Held.{longest_rest, longest_message_piece};
ghost use Rattle.bw_wire.specs.FramerStates.{Nothing, next_of, KeepsAtMost, HasBoundedBlock};
ghost use Rattle.bw_exchange.specs.Bounds.{longest_reply_frame, longest_answer, most_waiting};
ghost use Rattle.bw_exchange.specs.Bounds.{most_held, most_before_answer};
ghost use Rattle.bw_exchange.specs.FeedResults.{IsFeeding};

use crate::outgoing::{drop_prefix, put_bad_frame};
use crate::step::{Step, StreamEnd, take_next};
use crate::turns::Turns;
use bw_wire::{Framer, HeldBody};
use std::alloc::{AllocError, Global};

/// The most bytes of unsent replies.
const MOST_WAITING: usize = 65_600;

/// The most unsent bytes with which a frame is still answered: its 17 replies fit after them, and
/// then the reply to a bad frame. Each reply is allotted 64 bytes; its frame has at most 47.
const MOST_BEFORE_ANSWER: usize = 64_448;

/// The most bytes of a stream.
const LONGEST_STREAM: u64 = 1 << 62;

/// Why a piece was not fed.
#[derive(Clone, Copy, Debug, PartialEq, Eq)]
pub enum FeedError {
    /// Memory was refused.
    Memory,
    /// More than 2^62 bytes would have been fed.
    TooLong,
}

/// One exchange with a recorder, between the pieces of its bytes.
///
/// While it wants to read it holds at most 32,809 bytes of frames, in a block of at most 65,618;
/// else at most 557,769, in a block that is no larger. It holds at most 65,600 bytes of replies.
/// While replies aren't taken, no more frames are answered, and so no more bytes are wanted.
#[derive(Drop)]
pub struct Exchange {
    framer: Framer,
    outgoing: Vec<u8>,
    end: Option<StreamEnd>,
    wants_read: bool,
    ghost capacity: { most_waiting ≤ vec_capacity outgoing },
    ghost waiting: { vec_len outgoing ≤ most_waiting },
    ghost room: { is_some end ≡ false → vec_len outgoing + longest_reply_frame ≤ most_waiting },
    ghost open: { wants_read ≡ true → is_some end ≡ false },
    ghost quiet: { wants_read ≡ true →
        ((next_of message_codec framer).0 ≡ Nothing) × KeepsAtMost longest_rest framer },
    ghost held: { framer.held ≤ most_held },
    ghost block: { HasBoundedBlock framer },
}

impl Exchange {
    ghost use Rattle.bw_exchange.specs.Parts.{wants_piece, end_of, waiting_in, pending_of};
    ghost use Rattle.bw_exchange.specs.Parts.{reply_room};
    ghost use Rattle.bw_exchange.specs.Done.{HasDone, DoesMore, AnswersSome, IsIdle};

    /// Creates an exchange that has been fed nothing.
    ///
    /// # Errors
    /// `AllocError` if memory was refused.
    ///
    /// # Not specified
    /// When memory is refused.
    pub fn new(alloc: Global) -> Result<Exchange, AllocError>
        ensures fresh { IfOk result (λ e. HasDone [] [] [] e) }
        ensures wants_read { IfOk result (λ e. wants_piece e ≡ true) }
        ensures waiting { IfOk result (λ e. waiting_in e ≡ []) }
        // The block has room for all replies that may wait.
        ensures small { IfOk result (λ e. reply_room e ≡ most_waiting) }
    {
        Ok(Exchange {
            framer: Framer::new(alloc),
            outgoing: Vec::with_capacity(alloc, MOST_WAITING)?,
            end: None,
            wants_read: true,
        })
    }

    /// Whether a piece may be fed: every whole frame has been answered, and the exchange isn't
    /// over.
    pub fn wants_read(&self) -> bool
        ensures value { result ≡ wants_piece self.now }
        ensures open { result ≡ true → end_of self.now ≡ None }
    {
        self.wants_read
    }

    /// Whether no frame can be answered, however much room there is, until a piece is fed, or ever.
    pub(crate) fn is_idle(&self) -> bool
        ensures idle { result ≡ true → IsIdle self.now }
        ensures fed { result ≡ false → self.now.wants_read ≡ false }
        ensures open { result ≡ false → is_some self.now.end ≡ false }
    {
        self.wants_read || self.end.is_some()
    }

    /// How it ended, or `None` if it isn't over.
    pub fn end(&self) -> Option<StreamEnd>
        ensures { result ≡ end_of self.now }
    {
        self.end
    }

    /// The bytes of replies that are still to be sent, at most 65,600.
    pub fn outgoing(&self) -> &[u8]
        ensures value { result.now ≡ waiting_in self.now }
        ensures len { length result.now ≤ most_waiting }
    {
        self.outgoing.as_slice()
    }

    /// The framer, with the bytes that were fed and not answered yet.
    pub fn framer(&self) -> &Framer
        ensures { result.now ≡ pending_of self.now }
    {
        &self.framer
    }

    /// Keeps the digest of a body that the framer holds, for its message.
    pub fn keep_digest(&mut self, body: HeldBody, digest: [u8; 32])
        requires { IsDigestOf (held_bytes (pending_of self.old).bytes body) digest }
        ensures { self.new ≡ self.old }
    {
        self.framer.keep_digest(body, digest);
    }

    /// Feeds the next piece, of at most 524,960 bytes, to an exchange that wants to read.
    ///
    /// # Errors
    /// `TooLong` if more than 2^62 bytes would have been fed; `Memory` if memory was refused, never
    /// if there is room. Nothing is changed then.
    ///
    /// # Not specified
    /// When a growth is refused.
    pub fn feed(&mut self, piece: &[u8]) -> Result<(), FeedError>
        requires wants_read { wants_piece self.old ≡ true }
        requires short { length piece.now ≤ longest_message_piece }
        ensures fed { OnOk result (DoesMore self.old piece.now [] [] self.new) }
        ensures busy { OnOk result (wants_piece self.new ≡ false) }
        ensures end { OnOk result (end_of self.new ≡ end_of self.old) }
        ensures waiting { OnOk result (waiting_in self.new ≡ waiting_in self.old) }
        ensures unchanged { OnErr result (self.new ≡ self.old) }
        ensures why { IsFeeding (pending_of self.old) piece.now result }
    {
        if piece.len() as u64 > LONGEST_STREAM - self.framer.fed() {
            return Err(FeedError::TooLong);
        }
        let Ok(()) = self.framer.feed(piece) else {
            return Err(FeedError::Memory);
        };
        self.wants_read = false;
        Ok(())
    }

    /// Has up to `turns` whole frames answered, as long as there is room for their replies. Returns
    /// how many were.
    ///
    /// Fewer than `turns` only if the exchange wants to read or is over, or more than 64,448 bytes
    /// are unsent.
    pub fn answer<T: Turns>(&mut self, server: &mut T, turns: usize) -> usize
        ensures { AnswersSome T.answers turns result server.old server.new self.old self.new }
    {
        for turn in 0..turns {
            if self.is_idle() || self.outgoing.len() > MOST_BEFORE_ANSWER {
                return turn;
            }
            if !self.answer_one(server) {
                return turn;
            }
        }
        turns
    }

    /// Has the next frame answered, if it is whole. Returns whether one was.
    pub(crate) fn answer_one<T: Turns>(&mut self, server: &mut T) -> bool
        requires room { vec_len self.old.outgoing ≤ most_before_answer }
        requires open { is_some self.old.end ≡ false }
        ensures answers { AnswersSome T.answers 1 (if result then 1 else 0) server.old server.new
            self.old self.new }
        ensures waiting { vec_len self.new.outgoing ≤ vec_len self.old.outgoing + longest_answer }
        ensures stops { result ≡ false → IsIdle self.new }
        ensures goes_on { result ≡ true → is_some (end_of self.new) ≡ false }
    {
        match take_next(server, &mut self.framer, &mut self.outgoing) {
            Step::WantsRead => {
                self.wants_read = true;
                false
            }
            Step::Answered => true,
            Step::Ended(end) => {
                self.end = Some(end);
                false
            }
        }
    }

    /// Ends the exchange, whose input has ended and which wants to read.
    pub fn finish(&mut self)
        requires wants_read { wants_piece self.old ≡ true }
        ensures done { DoesMore self.old [] [] [] self.new }
        ensures over { is_some (end_of self.new) ≡ true }
        ensures idle { wants_piece self.new ≡ false }
    {
        self.wants_read = false;
        match self.framer.end() {
            Ok(()) => self.end = Some(StreamEnd::EndOfInput),
            Err(fault) => {
                put_bad_frame(&mut self.outgoing, fault);
                self.end = Some(StreamEnd::BadFrame(fault));
            }
        }
    }

    /// Removes the first `count` of the unsent bytes: they were sent.
    pub fn consumed(&mut self, count: usize)
        requires { count ≤ length (waiting_in self.old) }
        ensures done { DoesMore self.old [] [] (take count (waiting_in self.old)) self.new }
        ensures left { waiting_in self.new ≡ drop count (waiting_in self.old) }
        ensures end { end_of self.new ≡ end_of self.old }
        ensures wants_read { wants_piece self.new ≡ wants_piece self.old }
        ensures kept { pending_of self.new ≡ pending_of self.old }
    {
        drop_prefix(&mut self.outgoing, count);
    }
}
