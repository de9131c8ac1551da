//! What a framer keeps of its stream, whatever it reads.
ghost use Rattle.std.specs.Prelude.{◌≡◌, ◌+◌, ◌≤◌, length, drop, IsOk, OnOk, OnErr};
ghost use Rattle.bw_wire.specs.Held.{nothing_held, without_prefix, longest_rest, longest_stream};
ghost use Rattle.bw_wire.specs.Held.{longest_message_piece};
ghost use Rattle.bw_wire.specs.FramerStates.{fresh, with_piece, KeepsAtMost, HasBoundedBlock, end_fault};
ghost use Rattle.bw_wire.specs.FramerStates.{IsOver};
ghost use Rattle.bw_wire.specs.Intakes.{pending_in, IsIntake};
ghost use Rattle.bw_wire.specs.FramerAnswers.{end_reported};

use crate::buffer::Buffer;
use crate::fault::WireFault;
use crate::reason::Reason;
use std::alloc::{AllocError, Global};

/// Whether more may come.
#[derive(Clone, Copy, Debug)]
pub(crate) enum Phase {
    Reading,
    Left,
    Failed(Reason),
}

/// The bytes of a stream that aren't used up, after used ones that weren't released yet.
#[derive(Drop)]
pub(crate) struct Intake {
    pub(crate) buffer: Buffer,
    /// The place in the buffer of the first byte that isn't used up.
    pub(crate) start: usize,
    /// How many bytes were used up.
    pub(crate) used: u64,
    /// How many bytes were fed.
    pub(crate) fed: u64,
    pub(crate) phase: Phase,
}

impl Intake {
    /// The start of a stream.
    pub(crate) fn new(alloc: Global) -> Intake
        ensures value { pending_in result ≡ fresh }
        ensures sound { IsIntake result }
    {
        Intake {
            buffer: Buffer::new(alloc),
            start: 0,
            used: 0,
            fed: 0,
            phase: Phase::Reading,
        }
    }

    /// Adds a piece of the stream, or drops it if nothing is read anymore.
    ///
    /// # Errors
    /// `AllocError` if memory was refused: nothing changed.
    pub(crate) fn feed(&mut self, piece: &[u8]) -> Result<(), AllocError>
        requires sound { IsIntake self.old }
        requires few { self.old.fed + length piece.now ≤ longest_stream }
        ensures ok { OnOk result (pending_in self.new ≡ with_piece (pending_in self.old) piece.now) }
        ensures err { OnErr result (self.new ≡ self.old) }
        ensures sound { IsIntake self.new }
        ensures dropped { IsOver (pending_in self.old) → IsOk result }
        ensures room { length self.old.buffer.bytes + length piece.now ≤ self.old.buffer.room →
            IsOk result }
        ensures empty { length piece.now ≡ 0 → IsOk result }
        ensures bounded { KeepsAtMost longest_rest (pending_in self.old) →
            length piece.now ≤ longest_message_piece → HasBoundedBlock (pending_in self.new) }
    {
        match self.phase {
            Phase::Reading => {
                self.buffer.append(piece)?;
                self.fed += piece.len() as u64;
                Ok(())
            }
            Phase::Left | Phase::Failed(_) => {
                self.fed += piece.len() as u64;
                Ok(())
            }
        }
    }

    /// The bytes that aren't used up.
    pub(crate) fn bytes(&self) -> &[u8]
        requires { IsIntake self.now }
        ensures { result.now ≡ drop self.now.start self.now.buffer.bytes }
    {
        self.buffer.bytes_from(self.start)
    }

    /// Releases the used bytes, and a block that is too large to be kept.
    pub(crate) fn compact(&mut self)
        requires sound { IsIntake self.old }
        requires short { length self.old.buffer.bytes ≤ self.old.start + longest_rest }
        ensures { self.new ≡ record self.old {
          buffer = without_prefix self.old.buffer self.old.start;
          start = 0;
        } }
    {
        self.buffer.drop_prefix(self.start);
        self.start = 0;
    }

    /// Releases all bytes: nothing is read anymore.
    pub(crate) fn finish(&mut self, phase: Phase)
        ensures { self.new ≡ record self.old { buffer = nothing_held; start = 0; phase = phase } }
    {
        self.buffer.clear();
        self.start = 0;
        self.phase = phase;
    }

    /// Uses up a length and a body of this many bytes.
    pub(crate) fn use_up(&mut self, len: usize)
        requires sound { IsIntake self.old }
        requires whole { self.old.start + 4 + len ≤ length self.old.buffer.bytes }
        ensures { self.new ≡ record self.old {
          start = self.old.start + 4 + len;
          used = self.old.used + (4 + len);
        } }
    {
        self.start += 4 + len;
        self.used += 4 + len as u64;
    }

    /// Whether the input may end here.
    ///
    /// # Errors
    /// The fault that was reported, or `Cut` if bytes are left.
    pub(crate) fn end(&self) -> Result<(), WireFault>
        requires { IsIntake self.now }
        ensures { end_reported result ≡ end_fault (pending_in self.now) }
    {
        match self.phase {
            Phase::Left => Ok(()),
            Phase::Failed(reason) => Err(WireFault {
                reason,
                offset: self.used,
            }),
            Phase::Reading => {
                if self.buffer.len() == self.start {
                    return Ok(());
                }
                Err(WireFault {
                    reason: Reason::Cut,
                    offset: self.used,
                })
            }
        }
    }
}
