//! How a WAVE file is followed that another program is still writing.
ghost use Rattle.std.specs.Prelude.{◌≡◌, ℕ, List, Some, IfOk};
ghost use Rattle.bw_stream.specs.Moves.{failures_after};
ghost use Rattle.bw_live.specs.WaveHeaders.{samples_in_wave};

use bw_ports::{Followed, RecordingFiles};
use std::io;

/// Follows WAVE files while they are written.
pub trait GrowingFiles: RecordingFiles {
    /// Opens the file at a path at its start, to be followed until its writer has said that it is
    /// complete: by making the file at `until`, if there is one. Each look for that waits a moment.
    ///
    /// # Errors
    /// If the system failed.
    ///
    /// # Not specified
    /// When it fails, the kind of the error, and how long a look takes.
    fn follow_header(&mut self, path: &str, until: Option<&str>) -> io::Result<Self::Growing>
        ensures count { Self.failures self.new ≡ failures_after result (Self.failures self.old) }
        ensures files { Self.file_at self.new ≡ Self.file_at self.old }
        ensures stamps { Self.stamp_at self.new ≡ Self.stamp_at self.old }
        ensures ok { IfOk result (λ file. (xs : List ℕ) →
            Self.file_at self.old path.now ≡ Some xs → Self.Growing.to_come file ≡ Some xs) };

    /// Opens the WAVE file at a path at its first sample: the head of its `data` chunk is at this
    /// place. It is followed until its writer has said that its samples are complete: by making the
    /// file at `until`, or where that is None, by their size in its header. Then they end where the
    /// header says.
    ///
    /// # Errors
    /// If the system failed.
    ///
    /// # Not specified
    /// When it fails, and the kind of the error.
    fn follow_data(
        &mut self,
        path: &str,
        place: u64,
        until: Option<&str>,
    ) -> io::Result<Self::Growing>
        ensures count { Self.failures self.new ≡ failures_after result (Self.failures self.old) }
        ensures files { Self.file_at self.new ≡ Self.file_at self.old }
        ensures stamps { Self.stamp_at self.new ≡ Self.stamp_at self.old }
        ensures ok { IfOk result (λ file. (xs : List ℕ) →
            Self.file_at self.old path.now ≡ Some xs →
            Self.Growing.to_come file ≡ Some (samples_in_wave place xs)) };
}
