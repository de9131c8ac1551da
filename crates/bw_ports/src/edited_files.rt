//! Files that are changed in place.
ghost use Rattle.std.specs.Prelude.{◌≡◌, ℕ, List, Option, IfOk, OnOk, OnErr};
ghost use Rattle.bw_stream.specs.Moves.{failures_after, Keeps};
ghost use Rattle.bw_ports.specs.Rewrites.{KeepsOtherPaths, Rewrites, RewritesInPart};

use bw_stream::Source;
use std::io;

/// Files by path, of which bytes are read and overwritten: the bytes at each path, if they are
/// reported, and how often a call failed.
pub trait EditedFiles {
    /// Reads an opened file.
    type Edited: Source + Drop;

    /// The bytes of the file at each path, if they are reported.
    ghost content_at: { Self → List ℕ → Option (List ℕ) };

    /// How many calls failed; the count stays at 2^64 - 1.
    ghost edit_failures: { Self → ℕ };

    /// Opens the file at a path to read it, at its start. A file may be opened again.
    ///
    /// # Errors
    /// If the system failed.
    ///
    /// # Not specified
    /// When it fails, and the kind of the error.
    fn open_edited(&mut self, path: &str) -> io::Result<Self::Edited>
        ensures count { edit_failures self.new ≡ failures_after result (edit_failures self.old) }
        ensures contents { content_at self.new ≡ content_at self.old }
        ensures ok { IfOk result (λ file.
            Keeps (content_at self.old path.now) (Self.Edited.left file)) };

    /// Overwrites bytes of the file at a path from a place on, and asks that they survive a loss of
    /// power. It makes no file.
    ///
    /// # Errors
    /// If the system failed: a prefix of the bytes may be written then.
    ///
    /// # Not specified
    /// When it fails, and the kind of the error.
    fn overwrite(&mut self, path: &str, place: u64, bytes: &[u8]) -> io::Result<()>
        ensures count { edit_failures self.new ≡ failures_after result (edit_failures self.old) }
        ensures others { KeepsOtherPaths path.now (content_at self.old) (content_at self.new) }
        ensures ok { OnOk result (Rewrites
            (content_at self.old path.now) place bytes.now (content_at self.new path.now)) }
        ensures err { OnErr result (RewritesInPart
            (content_at self.old path.now) place bytes.now (content_at self.new path.now)) };
}
