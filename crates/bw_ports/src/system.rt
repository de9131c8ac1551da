//! What the program asks of the system that it runs on, besides its streams.
ghost use Rattle.std.specs.Prelude.{◌≡◌, ℕ, List, Option, map, string_bytes, IfOk};
ghost use Rattle.bw_stream.specs.Moves.{failures_after, Keeps};

use bw_stream::Source;
use std::io;

/// A system: the words of the command line and the bytes at each path, if it reports them, and how
/// often it failed.
pub trait System {
    /// Reads an opened file.
    type File: Source + Drop;

    /// The words of the command line, if the system reports them.
    ghost words: { Self → Option (List (List ℕ)) };

    /// The bytes of the file at each path, if the system reports them.
    ghost file_at: { Self → List ℕ → Option (List ℕ) };

    /// How many calls failed; the count stays at 2^64 - 1.
    ghost failures: { Self → ℕ };

    /// The words of the command line, the program's own name first.
    ///
    /// # Errors
    /// If the system failed; `InvalidData` if a word isn't UTF-8. Files are as they were.
    ///
    /// # Not specified
    /// - When it fails, and the kind of the error.
    /// - What the words are after a call.
    fn words(&mut self) -> io::Result<Vec<String>>
        ensures count { failures self.new ≡ failures_after result (failures self.old) }
        ensures files { file_at self.new ≡ file_at self.old }
        ensures ok { IfOk result (λ found. (reported : List (List ℕ)) →
            words self.old ≡ Some reported → map string_bytes found.items ≡ reported) };

    /// Opens the file at a path, at its start.
    ///
    /// # Errors
    /// If the system failed.
    ///
    /// # Not specified
    /// - When it fails, and the kind of the error.
    /// - That the words and other files stay as they were.
    fn open(&mut self, path: &str) -> io::Result<Self::File>
        ensures count { failures self.new ≡ failures_after result (failures self.old) }
        ensures ok { IfOk result (λ file.
            Keeps (file_at self.old path.now) (Self.File.left file)) };
}
