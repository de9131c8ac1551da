//! What a sender asks of the outside for its state: a file.
ghost use Rattle.std.specs.Prelude.{◌≡◌, ℕ, List, Option, Some, IfOk, OnOk, OnErr, take};
ghost use Rattle.bw_stream.specs.Moves.{failures_after, Begins, Keeps, Writes};

use std::io;

/// A state's file, to which bytes are appended.
pub trait StateLog {
    /// The bytes of the file, if they are reported.
    ghost written: { Self → Option (List ℕ) };

    /// How many calls failed; the count stays at 2^64 - 1.
    ghost failures: { Self → ℕ };

    /// Writes bytes at the end of the file.
    ///
    /// # Errors
    /// If the system failed: a prefix of them was written.
    ///
    /// # Not specified
    /// When it fails, and the kind of the error.
    fn append(&mut self, bytes: &[u8]) -> io::Result<()>
        ensures count { failures self.new ≡ failures_after result (failures self.old) }
        ensures ok { OnOk result (Writes (written self.old) bytes.now (written self.new)) }
        ensures err { OnErr result (Begins (written self.old) bytes.now (written self.new)) };

    /// Asks that the file survive a loss of power.
    ///
    /// # Errors
    /// If the system failed.
    ///
    /// # Not specified
    /// When it fails, and the kind of the error.
    fn sync(&mut self) -> io::Result<()>
        ensures count { failures self.new ≡ failures_after result (failures self.old) }
        ensures kept { written self.new ≡ written self.old };
}

/// The files of states: their bytes at each path, if they are reported, and how often a call
/// failed.
pub trait StateFiles {
    /// Appends to a state's file.
    type Log: StateLog + Drop;

    /// The bytes of the file at each path, if they are reported; none where there is no file.
    ghost state_at: { Self → List ℕ → Option (List ℕ) };

    /// How many calls failed; the count stays at 2^64 - 1.
    ghost failures: { Self → ℕ };

    /// The first bytes of the file at a path, at most `most`; none where there is no file.
    ///
    /// # Errors
    /// If the system failed.
    ///
    /// # Not specified
    /// When it fails, and the kind of the error.
    fn read(&mut self, path: &str, most: usize) -> io::Result<Vec<u8>>
        ensures count { failures self.new ≡ failures_after result (failures self.old) }
        ensures kept { state_at self.new ≡ state_at self.old }
        ensures ok { IfOk result (λ found. (xs : List ℕ) → state_at self.old path.now ≡ Some xs →
            found.items ≡ take most xs) };

    /// Puts a file with just these bytes at a path, and asks that it survive a loss of power. What
    /// was there is lost.
    ///
    /// # Errors
    /// If the system failed.
    ///
    /// # Not specified
    /// - When it fails, and the kind of the error.
    /// - What is at the path then.
    fn begin(&mut self, path: &str, bytes: &[u8]) -> io::Result<Self::Log>
        ensures count { failures self.new ≡ failures_after result (failures self.old) }
        ensures ok { IfOk result (λ log. (xs : List ℕ) →
            Self.Log.written log ≡ Some xs → xs ≡ bytes.now) };

    /// Opens the file at a path, to write at its end.
    ///
    /// # Errors
    /// If the system failed: nothing was written.
    ///
    /// # Not specified
    /// When it fails, and the kind of the error.
    fn go_on(&mut self, path: &str) -> io::Result<Self::Log>
        ensures count { failures self.new ≡ failures_after result (failures self.old) }
        ensures ok { IfOk result (λ log. Keeps (state_at self.old path.now) (Self.Log.written log)) };
}
