//! Where bytes are read from: forward, once, with a count of failures.
ghost use Rattle.std.specs.Prelude.{◌≡◌, ℕ, ◌≤◌, List, length, Option, IfOk, OnErr};
ghost use Rattle.bw_stream.specs.Moves.{one_more, failures_after, moved_after, Keeps, Reads, Skips};

/// A reader or a writer failed.
///
/// The error carries no number and no text. How often a reader or a writer failed is known in
/// contracts alone: no call returns it.
#[derive(Clone, Copy, PartialEq, Eq, Debug, Drop)]
pub struct IoFailed;

/// A reader: the bytes that it has left, if it reports them, how many it gave or passed over, how
/// many calls came, and how many of them failed.
pub trait Source {
    /// The bytes that are still to come, if the reader reports them.
    ghost left: { Self → Option (List ℕ) };

    /// How many bytes were given or passed over; the count stays at 2^64 - 1.
    ghost moved: { Self → ℕ };

    /// How many calls there were; the count stays at 2^64 - 1.
    ghost calls: { Self → ℕ };

    /// How many calls failed; the count stays at 2^64 - 1.
    ghost failures: { Self → ℕ };

    /// Reads some of the next bytes into the prefix of `buf`, at least one unless there are no more
    /// or `buf` is empty.
    ///
    /// # Errors
    /// `IoFailed` if the reader failed: no byte was used up.
    ///
    /// # Not specified
    /// - When the reader fails.
    /// - What `buf` holds after an error, and after the bytes that were read.
    /// - If the reader doesn't report its bytes: that 0 is returned only at their end.
    fn read(&mut self, buf: &mut [u8]) -> Result<usize, IoFailed>
        ensures calls { calls self.new ≡ one_more (calls self.old) }
        ensures count { failures self.new ≡ failures_after result (failures self.old) }
        ensures moved { moved self.new ≡ moved_after result (moved self.old) }
        ensures within { IfOk result (λ n. n ≤ length buf.old) }
        ensures ok { IfOk result (λ n.
            Reads (left self.old) (length buf.old) n buf.new (left self.new)) }
        ensures err { OnErr result (Keeps (left self.old) (left self.new)) };

    /// Passes over some of the next bytes, at most `most`, and at least one unless there are no
    /// more or `most` is 0.
    ///
    /// # Errors
    /// `IoFailed` if the reader failed: no byte was used up.
    ///
    /// # Not specified
    /// - When the reader fails.
    /// - If the reader doesn't report its bytes: that 0 is returned only at their end.
    fn skip(&mut self, most: u64) -> Result<u64, IoFailed>
        ensures calls { calls self.new ≡ one_more (calls self.old) }
        ensures count { failures self.new ≡ failures_after result (failures self.old) }
        ensures moved { moved self.new ≡ moved_after result (moved self.old) }
        ensures within { IfOk result (λ n. n ≤ most) }
        ensures ok { IfOk result (λ n. Skips (left self.old) most n (left self.new)) }
        ensures err { OnErr result (Keeps (left self.old) (left self.new)) }
    {
        let mut piece = [0; 4096];
        let room = most.min(4096) as usize;
        let count = self.read(&mut piece[..room])?;
        Ok(count as u64)
    }
}
