//! Where a sender's recordings are read from.
ghost use Rattle.std.specs.Prelude.{◌≡◌, ℕ, List, Option, Some, IfOk, drop};
ghost use Rattle.bw_stream.specs.Moves.{failures_after, Keeps};
ghost use Rattle.bw_ports.specs.declared.recording_files.FileStamp.{FileStamp};

use crate::followed::Followed;
use bw_stream::Source;
use std::alloc::AllocError;
use std::io;

/// What shows that a file is as it was: its length in bytes, and when it was last changed, in
/// nanoseconds since the start of 1970 (UTC), 0 for a time before.
#[derive(Clone, Copy, Debug, PartialEq, Eq)]
pub struct FileStamp {
    pub len: u64,
    pub changed: u64,
}

/// A file that is looked at again, to see whether it is as it was.
pub trait Stamped {
    /// Its stamp, if it is reported; it doesn't change.
    ghost stamp_of: { Self → Option FileStamp };

    /// How many calls failed; the count stays at 2^64 - 1.
    ghost failures: { Self → ℕ };

    /// The stamp of the file that is at its path now.
    ///
    /// # Errors
    /// If the system failed.
    ///
    /// # Not specified
    /// When it fails, and the kind of the error.
    fn stamp(&mut self) -> io::Result<FileStamp>
        ensures count { failures self.new ≡ failures_after result (failures self.old) }
        ensures kept { stamp_of self.new ≡ stamp_of self.old }
        ensures ok { IfOk result (λ stamp. (reported : FileStamp) →
            stamp_of self.old ≡ Some reported → stamp ≡ reported) };
}

/// The files of recordings: the bytes and the stamp at each path, if they are reported, and how
/// often a call failed. What is reported doesn't change; of a file that is followed it is all that
/// will have been written.
pub trait RecordingFiles {
    /// Reads an opened file.
    type File: Source + Drop;

    /// Reads a file that another program is still writing.
    type Growing: Followed + Drop;

    /// Looks at a file.
    type Stamped: Stamped + Drop;

    /// The bytes of the file at each path, if they are reported.
    ghost file_at: { Self → List ℕ → Option (List ℕ) };

    /// The stamp of the file at each path, if it is reported.
    ghost stamp_at: { Self → List ℕ → Option FileStamp };

    /// How many calls failed; the count stays at 2^64 - 1.
    ghost failures: { Self → ℕ };

    /// Opens the file at a path, at its start. A file may be opened again.
    ///
    /// # Errors
    /// If the system failed.
    ///
    /// # Not specified
    /// When it fails, and the kind of the error.
    fn open(&mut self, path: &str) -> io::Result<Self::File>
        ensures count { failures self.new ≡ failures_after result (failures self.old) }
        ensures files { file_at self.new ≡ file_at self.old }
        ensures stamps { stamp_at self.new ≡ stamp_at self.old }
        ensures ok { IfOk result (λ file.
            Keeps (file_at self.old path.now) (Self.File.left file)) };

    /// Opens the file at a path after its first `skip` bytes, to be followed until its writer has
    /// said that it is complete: by making the file at `until`, or where that is None, by the end
    /// of standard input, which is appended to the file.
    ///
    /// # Errors
    /// If the system failed.
    ///
    /// # Not specified
    /// When it fails, and the kind of the error.
    fn follow(&mut self, path: &str, skip: u64, until: Option<&str>) -> io::Result<Self::Growing>
        ensures count { failures self.new ≡ failures_after result (failures self.old) }
        ensures files { file_at self.new ≡ file_at self.old }
        ensures stamps { stamp_at self.new ≡ stamp_at self.old }
        ensures ok { IfOk result (λ file. (xs : List ℕ) →
            file_at self.old path.now ≡ Some xs →
            Self.Growing.to_come file ≡ Some (drop skip xs)) };

    /// The stamp of the file at a path.
    ///
    /// # Errors
    /// If the system failed.
    ///
    /// # Not specified
    /// When it fails, and the kind of the error.
    fn stamp(&mut self, path: &str) -> io::Result<FileStamp>
        ensures count { failures self.new ≡ failures_after result (failures self.old) }
        ensures files { file_at self.new ≡ file_at self.old }
        ensures stamps { stamp_at self.new ≡ stamp_at self.old }
        ensures ok { IfOk result (λ stamp. (reported : FileStamp) →
            stamp_at self.old path.now ≡ Some reported → stamp ≡ reported) };

    /// The file at a path, to be looked at again.
    ///
    /// # Errors
    /// If memory was refused.
    ///
    /// # Not specified
    /// When it is refused.
    fn stamped(&mut self, path: &str) -> Result<Self::Stamped, AllocError>
        ensures count { failures self.new ≡ failures self.old }
        ensures files { file_at self.new ≡ file_at self.old }
        ensures stamps { stamp_at self.new ≡ stamp_at self.old }
        ensures ok { IfOk result (λ stamped.
            Self.Stamped.stamp_of stamped ≡ stamp_at self.old path.now) };
}
