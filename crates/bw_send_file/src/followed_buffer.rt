//! Samples that were read and aren't given yet.
ghost use Rattle.std.specs.Prelude.{◌≡◌, ℕ, List, [], ◌++◌, ◌≤◌, ◌<◌, true, Some, IfOk, OnOk, length, drop};
ghost use Rattle.bw_stream.specs.Moves.{failures_after};
ghost use Rattle.bw_send_file.specs.Samples.{HoldsMore};

use crate::followed_reading::read_on;
use bw_ports::Followed;
use bw_stream::IoFailed;
use std::alloc::{AllocError, Global};
use std::marker::Model;

/// Room for one block of samples, and how many bytes of it are held.
#[derive(Debug, Drop)]
pub(crate) struct SampleBuffer {
    room: Vec<u8>,
    held: usize,
}

impl Model for SampleBuffer {
    ghost use Rattle.std.specs.Prelude.{◌≤◌, take, vec_len};
    ghost use Rattle.bw_send_file.specs.Samples.{HeldSamples};

    ghost Value = { HeldSamples };

    ghost view = { λ b. record { size = vec_len b.room; held = take b.held b.room.items } };

    ghost invariant = { λ b. b.held ≤ vec_len b.room };
}

impl SampleBuffer {
    /// An empty buffer of this size.
    ///
    /// # Errors
    /// `AllocError` where memory was refused.
    pub(crate) fn new(alloc: Global, size: usize) -> Result<SampleBuffer, AllocError>
        ensures { IfOk result (λ b. b ≡ record { size = size; held = [] }) }
    {
        let room = vec![in alloc; 0; size]?;
        Ok(SampleBuffer { room, held: 0 })
    }

    /// What is held.
    pub(crate) fn bytes(&self) -> &[u8]
        ensures value { result.now ≡ self.now.held }
        ensures few { length result.now ≤ self.now.size }
    {
        &self.room[..self.held]
    }

    /// How many bytes a block has.
    pub(crate) fn size(&self) -> usize
        ensures { result ≡ self.now.size }
    {
        self.room.len()
    }

    /// Reads on until the buffer is full or no more is written yet.
    ///
    /// # Errors
    /// `IoFailed` if the file failed: what was read before is held.
    pub(crate) fn read_on<F: Followed>(&mut self, file: &mut F) -> Result<(), IoFailed>
        ensures count { F.failures file.new ≡ failures_after result (F.failures file.old) }
        ensures size { self.new.size ≡ self.old.size }
        ensures stays { F.is_complete file.old ≡ true → F.is_complete file.new ≡ true }
        ensures read { (xs : List ℕ) → F.to_come file.old ≡ Some xs →
            HoldsMore self.old xs self.new (F.to_come file.new) }
        ensures end { OnOk result (F.is_complete file.old ≡ true →
            length self.new.held < self.new.size →
            (xs : List ℕ) → F.to_come file.old ≡ Some xs → F.to_come file.new ≡ Some []) }
    {
        read_on(file, self.room.as_mut_slice(), &mut self.held)
    }

    /// Releases the first bytes.
    pub(crate) fn remove_prefix(&mut self, count: usize)
        requires { count ≤ length self.old.held }
        ensures { self.new ≡ record self.old { held = drop count self.old.held } }
    {
        self.room.copy_within(count..self.held, 0);
        self.held -= count;
    }
}
