//! Where bytes are written, with a count of failures.
ghost use Rattle.std.specs.Prelude.{◌≡◌, ℕ, ◌≤◌, ◌<◌, Bool, true, List, length, take, Option, IfOk};
ghost use Rattle.std.specs.Prelude.{OnOk, OnErr};
ghost use Rattle.bw_stream.specs.Moves.{failures_after, Keeps, Writes, Begins};

use crate::source::IoFailed;

/// A writer: the bytes written so far, if it reports them, how often it failed, and whether it
/// holds none of them back.
pub trait Sink {
    /// All bytes written so far, if the writer reports them.
    ghost written: { Self → Option (List ℕ) };

    /// How many calls failed; the count stays at 2^64 - 1.
    ghost failures: { Self → ℕ };

    /// Whether none of the bytes is held back.
    ghost is_flushed: { Self → Bool };

    /// Writes some of the first bytes, at least one if there are any.
    ///
    /// # Errors
    /// `IoFailed` if the writer failed: no byte was written.
    ///
    /// # Not specified
    /// When the writer fails, and whether it holds bytes back then.
    fn write(&mut self, bytes: &[u8]) -> Result<usize, IoFailed>
        ensures count { failures self.new ≡ failures_after result (failures self.old) }
        ensures within { IfOk result (λ n. n ≤ length bytes.now) }
        ensures some { IfOk result (λ n. 0 < length bytes.now → 0 < n) }
        ensures ok { IfOk result (λ n.
            Writes (written self.old) (take n bytes.now) (written self.new)) }
        ensures err { OnErr result (Keeps (written self.old) (written self.new)) };

    /// Passes on the written bytes that were held back.
    ///
    /// # Errors
    /// `IoFailed` if the writer failed: some bytes may still be held back.
    ///
    /// # Not specified
    /// - When the writer fails, and what it holds back then.
    /// - That a writer that holds nothing back stays so.
    fn flush(&mut self) -> Result<(), IoFailed>
        ensures count { failures self.new ≡ failures_after result (failures self.old) }
        ensures kept { Keeps (written self.old) (written self.new) }
        ensures ok { OnOk result (is_flushed self.new ≡ true) };
}

/// Writes all the bytes, in as many pieces as the writer takes.
///
/// # Errors
/// `IoFailed` if the writer failed: a prefix of the bytes was written.
///
/// # Not specified
/// - That it succeeds if there are no bytes to write.
/// - After an error, how many bytes were written, if the writer doesn't report them.
pub fn write_all<W: Sink>(writer: &mut W, bytes: &[u8]) -> Result<(), IoFailed>
    ensures count { W.failures writer.new ≡ failures_after result (W.failures writer.old) }
    ensures ok { OnOk result (Writes (W.written writer.old) bytes.now (W.written writer.new)) }
    ensures err { OnErr result (Begins (W.written writer.old) bytes.now (W.written writer.new)) }
{
    let mut done = 0;
    while done < bytes.len() {
        let Ok(count) = writer.write(&bytes[done..]) else {
            return Err(IoFailed);
        };
        done += count;
    }
    Ok(())
}
