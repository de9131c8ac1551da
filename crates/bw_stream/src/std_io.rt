//! Readers and writers of std as a `Source` and a `Sink`.
ghost use Rattle.std.specs.Prelude.{◌≡◌, ◌<◌, ◌≤◌, length, take, true, false, IfOk, OnErr};
ghost use Rattle.bw_stream.specs.Moves.{one_more, failures_after, moved_after, Keeps, Reads, Skips};
ghost use Rattle.bw_stream.specs.Moves.{Writes};

use crate::sink::Sink;
use crate::source::{IoFailed, Source};
use std::io::{Read, Write};

/// A std reader or writer, with a count of its failures, of the reads, and of the bytes that were
/// read.
///
/// A write that takes no byte of a piece that has some counts as a failure.
#[derive(Drop)]
pub struct StdIo<T> {
    pub(crate) inner: T,
    pub(crate) moved: u64,
    /// How many calls read or passed over bytes; the count stays at 2^64 - 1.
    pub(crate) calls: u64,
    pub(crate) failures: u64,
    /// No byte was written since the last flush.
    is_flushed: bool,
}

impl<T: Drop> StdIo<T> {
    ghost use Rattle.bw_stream.specs.Shown.{std_inner, std_moved, std_reads};
    ghost use Rattle.bw_stream.specs.Shown.{std_failures, std_flushed};

    /// This reader or writer, which has not failed yet and holds nothing back.
    pub fn new(inner: T) -> StdIo<T>
        ensures inner { std_inner result ≡ inner }
        ensures moved { std_moved result ≡ 0 }
        ensures calls { std_reads result ≡ 0 }
        ensures failures { std_failures result ≡ 0 }
        ensures flushed { std_flushed result ≡ true }
    {
        StdIo {
            inner,
            moved: 0,
            calls: 0,
            failures: 0,
            is_flushed: true,
        }
    }

    /// The reader or writer of std itself.
    pub fn into_inner(self) -> T
        ensures { result ≡ std_inner self }
    {
        self.inner
    }
}

impl<T: Read> StdIo<T> {
    fn read_counted(&mut self, buf: &mut [u8]) -> Result<usize, IoFailed>
        ensures calls { self.new.calls ≡ one_more self.old.calls }
        ensures count { self.new.failures ≡ failures_after result self.old.failures }
        ensures moved { self.new.moved ≡ moved_after result self.old.moved }
        ensures within { IfOk result (λ n. n ≤ length buf.old) }
        ensures ok { IfOk result (λ n.
            Reads (T.remaining self.old.inner) (length buf.old) n
            buf.new (T.remaining self.new.inner)) }
        ensures err { OnErr result
            (Keeps (T.remaining self.old.inner) (T.remaining self.new.inner)) }
    {
        self.calls = self.calls.saturating_add(1);
        let Ok(count) = self.inner.read(buf) else {
            self.failures = self.failures.saturating_add(1);
            return Err(IoFailed);
        };
        self.moved = self.moved.saturating_add(count as u64);
        Ok(count)
    }

    /// Reads some of the next bytes, at most `most`, into a block, and drops them.
    pub(crate) fn read_past(&mut self, piece: &mut [u8], most: u64) -> Result<u64, IoFailed>
        requires { 0 < length piece.old }
        ensures calls { self.new.calls ≡ one_more self.old.calls }
        ensures count { self.new.failures ≡ failures_after result self.old.failures }
        ensures moved { self.new.moved ≡ moved_after result self.old.moved }
        ensures within { IfOk result (λ n. n ≤ most) }
        ensures ok { IfOk result (λ n.
            Skips (T.remaining self.old.inner) most n (T.remaining self.new.inner)) }
        ensures err { OnErr result
            (Keeps (T.remaining self.old.inner) (T.remaining self.new.inner)) }
    {
        let room = most.min(piece.len() as u64) as usize;
        let count = self.read_counted(&mut piece[..room])?;
        Ok(count as u64)
    }
}

impl<T: Read> Source for StdIo<T> {
    ghost use Rattle.bw_stream.specs.Shown.{std_inner, std_moved, std_reads, std_failures};

    ghost left = { λ s. T.remaining (std_inner s) };

    ghost moved = { std_moved };

    ghost calls = { std_reads };

    ghost failures = { std_failures };

    fn read(&mut self, buf: &mut [u8]) -> Result<usize, IoFailed> {
        self.read_counted(buf)
    }

    fn skip(&mut self, most: u64) -> Result<u64, IoFailed> {
        self.read_past(&mut [0; 65_536], most)
    }
}

impl<T: Write> Sink for StdIo<T> {
    ghost use Rattle.bw_stream.specs.Shown.{std_inner, std_failures, std_flushed};

    ghost written = { λ s. T.contents (std_inner s) };

    ghost failures = { std_failures };

    ghost is_flushed = { std_flushed };

    /// Writes with one call of std's writer, which may hold bytes back after it, also after an
    /// error.
    ///
    /// # Errors
    /// `IoFailed` if that call failed, or wrote none of some bytes.
    ///
    /// # Not specified
    /// What std's writer holds after an error, if it doesn't report its contents.
    fn write(&mut self, bytes: &[u8]) -> Result<usize, IoFailed>
        ensures count { std_failures self.new ≡ failures_after result (std_failures self.old) }
        ensures within { IfOk result (λ n. n ≤ length bytes.now) }
        ensures some { IfOk result (λ n. 0 < length bytes.now → 0 < n) }
        ensures ok { IfOk result (λ n.
            Writes (T.contents (std_inner self.old)) (take n bytes.now)
            (T.contents (std_inner self.new))) }
        ensures err { OnErr result
            (Keeps (T.contents (std_inner self.old)) (T.contents (std_inner self.new))) }
        ensures held { std_flushed self.new ≡ false }
    {
        self.is_flushed = false;
        match self.inner.write(bytes) {
            Ok(count) if count > 0 || bytes.is_empty() => Ok(count),
            _ => {
                self.failures = self.failures.saturating_add(1);
                Err(IoFailed)
            }
        }
    }

    fn flush(&mut self) -> Result<(), IoFailed> {
        let Ok(()) = self.inner.flush() else {
            self.failures = self.failures.saturating_add(1);
            return Err(IoFailed);
        };
        self.is_flushed = true;
        Ok(())
    }
}
