//! A writer that waits.
ghost use Rattle.std.specs.Prelude.{◌≡◌, ◌≤◌, ◌<◌};

use crate::{Pause, Stopwatch};
use bw_stream::{IoFailed, Sink};

/// A writer that takes at most a given number of bytes a second, if a rate is given: it takes those
/// of a tenth of a second at once, and before a write it waits until those that were written before
/// have had their time. What is written is what its own writer gets, at any rate.
#[derive(Drop)]
pub struct PacedSink<W, P, T> {
    inner: W,
    /// Bytes a second; None, and 0, for any number.
    rate: Option<u32>,
    pause: P,
    stopwatch: T,
    /// The microsecond from which on the next byte may be written.
    free: u64,
}

impl<W, P, T> PacedSink<W, P, T> {
    ghost use Rattle.bw_ports.specs.PacedSinks.{paced_writer, paced_rate, free_from};

    /// A writer over another one, to which nothing was written.
    pub fn new(inner: W, rate: Option<u32>, pause: P, stopwatch: T) -> PacedSink<W, P, T>
        ensures inner { paced_writer result ≡ inner }
        ensures rate { paced_rate result ≡ rate }
        ensures free { free_from result ≡ 0 }
    {
        PacedSink {
            inner,
            rate,
            pause,
            stopwatch,
            free: 0,
        }
    }
}

impl<W, P: Pause, T: Stopwatch> PacedSink<W, P, T> {
    /// Waits until the next byte may be written, if there is a rate.
    fn wait(&mut self)
        ensures { self.new.inner ≡ self.old.inner }
    {
        if self.rate.is_none() {
            return;
        }
        let now = self.stopwatch.look();
        let left = (self.free / 1_000).saturating_sub(now);
        if left > 0 {
            self.pause.pause(left.min(u64::from(u32::MAX)) as u32);
        }
    }

    /// How many of so many bytes are written at once: those of a tenth of a second, and at least one,
    /// so that the other end isn't left without a byte for long.
    fn piece_len(&self, len: usize) -> usize
        ensures within { result ≤ len }
        ensures some { 0 < len → 0 < result }
    {
        match self.rate {
            None => len,
            Some(rate) => len.min((rate as usize / 10).max(1)),
        }
    }

    /// Notes that so many bytes were written.
    fn note(&mut self, count: usize)
        ensures { self.new.inner ≡ self.old.inner }
    {
        let rate = match self.rate {
            None => return,
            Some(0) => return,
            Some(rate) => rate,
        };
        let now = self.stopwatch.look();
        let micros = (count as u64).saturating_mul(1_000_000) / u64::from(rate);
        let begun = self.free.max(now.saturating_mul(1_000));
        self.free = begun.saturating_add(micros);
    }
}

impl<W: Sink, P: Pause, T: Stopwatch> Sink for PacedSink<W, P, T> {
    ghost use Rattle.bw_ports.specs.PacedSinks.{paced_writer};

    ghost written = { λ s. W.written (paced_writer s) };

    ghost failures = { λ s. W.failures (paced_writer s) };

    ghost is_flushed = { λ s. W.is_flushed (paced_writer s) };

    fn write(&mut self, bytes: &[u8]) -> Result<usize, IoFailed> {
        let len = self.piece_len(bytes.len());
        self.wait();
        let count = self.inner.write(&bytes[..len])?;
        self.note(count);
        Ok(count)
    }

    fn flush(&mut self) -> Result<(), IoFailed> {
        self.inner.flush()
    }
}
