//! Readers and writers over memory.
ghost use Rattle.std.specs.Prelude.{◌≡◌, ◌+◌, ◌≤◌, ◌++◌, true, length, Some, IfOk, IsOk, OnOk};
ghost use Rattle.std.specs.Prelude.{OnErr};
ghost use Rattle.bw_stream.specs.Moves.{failures_after};

use crate::sink::Sink;
use crate::source::{IoFailed, Source};

/// Reads a slice, and never fails.
#[derive(Drop)]
pub struct MemorySource<'a> {
    bytes: &'a [u8],
    moved: u64,
    calls: u64,
}

impl<'a> MemorySource<'a> {
    ghost use Rattle.bw_stream.specs.Shown.{memory_left, memory_moved, memory_reads};

    /// A reader of these bytes, at their start.
    pub fn new(bytes: &'a [u8]) -> MemorySource<'a>
        ensures bytes { memory_left result ≡ bytes.now }
        ensures moved { memory_moved result ≡ 0 }
        ensures calls { memory_reads result ≡ 0 }
    {
        MemorySource {
            bytes,
            moved: 0,
            calls: 0,
        }
    }
}

impl<'a> Source for MemorySource<'a> {
    ghost use Rattle.bw_stream.specs.Shown.{memory_left, memory_moved, memory_reads};

    ghost left = { λ s. Some (memory_left s) };

    ghost moved = { memory_moved };

    ghost calls = { memory_reads };

    ghost failures = { λ s. 0 };

    fn read(&mut self, buf: &mut [u8]) -> Result<usize, IoFailed> {
        let count = buf.len().min(self.bytes.len());
        let (piece, rest) = self.bytes.split_at(count);
        buf[..count].copy_from_slice(piece);
        self.bytes = rest;
        self.moved = self.moved.saturating_add(count as u64);
        self.calls = self.calls.saturating_add(1);
        Ok(count)
    }

    fn skip(&mut self, most: u64) -> Result<u64, IoFailed> {
        let count = most.min(self.bytes.len() as u64);
        self.bytes = &self.bytes[count as usize..];
        self.moved = self.moved.saturating_add(count);
        self.calls = self.calls.saturating_add(1);
        Ok(count)
    }
}

/// Appends to the bytes of a `Vec`, and fails only if memory for its growth is refused.
#[derive(Drop)]
pub struct MemorySink {
    bytes: Vec<u8>,
    failures: u64,
}

impl MemorySink {
    ghost use Rattle.bw_stream.specs.Shown.{memory_written, memory_refusals};

    /// A writer that appends to these bytes.
    pub fn new(bytes: Vec<u8>) -> MemorySink
        ensures bytes { memory_written result ≡ bytes.items }
        ensures failures { memory_refusals result ≡ 0 }
    {
        MemorySink { bytes, failures: 0 }
    }

    /// All bytes: those from the start, then those that were written.
    pub fn into_bytes(self) -> Vec<u8>
        ensures { result.items ≡ memory_written self }
    {
        self.bytes
    }
}

impl Sink for MemorySink {
    ghost use Rattle.bw_stream.specs.Shown.{memory_written, memory_room, memory_refusals};

    ghost written = { λ s. Some (memory_written s) };

    ghost failures = { memory_refusals };

    ghost is_flushed = { λ s. true };

    /// Appends all the bytes, or none.
    ///
    /// # Errors
    /// `IoFailed` if memory for the growth was refused, never if there is room: the bytes are as
    /// they were.
    ///
    /// # Not specified
    /// When a growth is refused.
    fn write(&mut self, bytes: &[u8]) -> Result<usize, IoFailed>
        ensures count { memory_refusals self.new
            ≡ failures_after result (memory_refusals self.old) }
        ensures all { IfOk result (λ n. n ≡ length bytes.now) }
        ensures ok { OnOk result (memory_written self.new ≡ memory_written self.old ++ bytes.now) }
        ensures err { OnErr result (memory_written self.new ≡ memory_written self.old) }
        ensures succeeds { length (memory_written self.old) + length bytes.now
            ≤ memory_room self.old → IsOk result }
    {
        let Ok(()) = self.bytes.extend_from_slice(bytes) else {
            self.failures = self.failures.saturating_add(1);
            return Err(IoFailed);
        };
        Ok(bytes.len())
    }

    /// Does nothing: no byte is held back.
    fn flush(&mut self) -> Result<(), IoFailed>
        ensures ok { IsOk result }
        ensures same { self.new ≡ self.old }
    {
        Ok(())
    }
}
