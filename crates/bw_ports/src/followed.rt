//! A file that another program is still writing.
ghost use Rattle.std.specs.Prelude.{◌≡◌, ℕ, ◌≤◌, ◌<◌, List, [], Bool, true, Option, Some, IfOk, OnErr, length, take, drop};
ghost use Rattle.bw_stream.specs.Moves.{failures_after, Keeps};

use bw_stream::IoFailed;
use std::io;

/// Reads a file up to where it ends at the moment. Bytes are only added to it, and it is complete
/// once its writer has said so.
///
/// It may say beforehand which bytes are still to come until the file is complete, as one over
/// memory does.
pub trait Followed {
    /// The bytes that are still to come, those that aren't written yet among them, if they are
    /// known.
    ghost to_come: { Self → Option (List ℕ) };

    /// Whether its writer has written all of it.
    ghost is_complete: { Self → Bool };

    /// How many calls failed; the count stays at 2^64 - 1.
    ghost failures: { Self → ℕ };

    /// Whether the writer has said that the file is complete.
    ///
    /// # Errors
    /// If the system failed.
    ///
    /// # Not specified
    /// - When it fails, and the kind of the error.
    /// - How long it takes until `true` is returned for a complete file.
    fn has_ended(&mut self) -> io::Result<bool>
        ensures count { failures self.new ≡ failures_after result (failures self.old) }
        ensures kept { to_come self.new ≡ to_come self.old }
        ensures stays { is_complete self.old ≡ true → is_complete self.new ≡ true }
        ensures ok { IfOk result (λ ended. ended ≡ true → is_complete self.new ≡ true) };

    /// Reads some of the next bytes into the start of `buf`, and returns how many: 0 where none is
    /// written yet.
    ///
    /// # Errors
    /// `IoFailed` if the reader failed: no byte was used up.
    ///
    /// # Not specified
    /// - When the reader fails.
    /// - What `buf` holds after an error, and after the bytes that were read.
    /// - For a file that isn't complete: when 0 is returned.
    fn read_more(&mut self, buf: &mut [u8]) -> Result<usize, IoFailed>
        ensures count { failures self.new ≡ failures_after result (failures self.old) }
        ensures within { IfOk result (λ n. n ≤ length buf.old) }
        ensures stays { is_complete self.old ≡ true → is_complete self.new ≡ true }
        ensures ok { IfOk result (λ n. (xs : List ℕ) → to_come self.old ≡ Some xs →
            (n ≤ length xs) × (take n buf.new ≡ take n xs)
            × (to_come self.new ≡ Some (drop n xs))) }
        ensures end { IfOk result (λ n. is_complete self.old ≡ true → n ≡ 0 →
            0 < length buf.old → (xs : List ℕ) → to_come self.old ≡ Some xs → xs ≡ []) }
        ensures err { OnErr result (Keeps (to_come self.old) (to_come self.new)) };
}
