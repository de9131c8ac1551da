//! What the keeper of markers asks of the outside: three files.
ghost use Rattle.std.specs.Prelude.{◌≡◌, ◌≢◌, ℕ, List, Option, Some, IfOk, OnOk, OnErr, length, take};
ghost use Rattle.bw_stream.specs.Moves.{Begins, Writes};

use std::io;

/// Files that are read, measured and appended to: their bytes at each path, if they are reported.
pub trait MarkFiles {
    /// The bytes of the file at each path, if they are reported; none where there is no file.
    ghost bytes_at: { Self → List ℕ → Option (List ℕ) };

    /// The first bytes of the file at a path, at most `most`; none where there is no file.
    ///
    /// # Errors
    /// If the system failed.
    ///
    /// # Not specified
    /// When it fails, and the kind of the error.
    fn read(&mut self, path: &str, most: usize) -> io::Result<Vec<u8>>
        ensures kept { bytes_at self.new ≡ bytes_at self.old }
        ensures ok { IfOk result (λ found. (xs : List ℕ) → bytes_at self.old path.now ≡ Some xs →
            found.items ≡ take most xs) };

    /// How many bytes the file at a path has.
    ///
    /// # Errors
    /// If the system failed.
    ///
    /// # Not specified
    /// When it fails, and the kind of the error.
    fn len(&mut self, path: &str) -> io::Result<u64>
        ensures kept { bytes_at self.new ≡ bytes_at self.old }
        ensures ok { IfOk result (λ len. (xs : List ℕ) → bytes_at self.old path.now ≡ Some xs →
            len ≡ length xs) };

    /// Writes bytes at the end of the file at a path, which is made if it isn't there, and asks that
    /// they survive a loss of power.
    ///
    /// # Errors
    /// If the system failed: a prefix of them was written.
    ///
    /// # Not specified
    /// When it fails, and the kind of the error.
    fn append(&mut self, path: &str, bytes: &[u8]) -> io::Result<()>
        ensures others { (other : List ℕ) → other ≢ path.now →
            bytes_at self.new other ≡ bytes_at self.old other }
        ensures ok { OnOk result
            (Writes (bytes_at self.old path.now) bytes.now (bytes_at self.new path.now)) }
        ensures err { OnErr result
            (Begins (bytes_at self.old path.now) bytes.now (bytes_at self.new path.now)) };
}
