//! What a sender takes the markers of a recording from that is still made.
ghost use Rattle.std.specs.Prelude.{◌≡◌, ℕ, List, Option, Some, IfOk};
ghost use Rattle.bw_stream.specs.Moves.{failures_after};

use bw_layout::CuePoint;
use bw_ports::RecordingFiles;
use std::io;

/// The files of a recording's markers, and where frames are in the recording.
#[derive(Clone, Copy, Debug)]
pub struct MarkPlace<'a> {
    /// The take's name.
    pub name: &'a [u8],
    /// The recording's path; the places of its markers are kept beside it.
    pub recording: &'a str,
    /// The path of the file to which lines are appended.
    pub marks: &'a str,
    /// How many bytes come before the samples.
    pub skip: u64,
    /// How many bytes a frame has, at least one.
    pub align: u32,
}

/// Gives the markers of a recording that is still made.
pub trait Marker {
    /// Identifier and frame of each marker that will have been placed at the end, if they are known.
    ghost points: { Self → Option (List (ℕ × ℕ)) };

    /// Places the markers that were asked for since.
    ///
    /// # Not specified
    /// Anything beyond what each implementation says of itself.
    fn look(&mut self)
        ensures { points self.new ≡ points self.old };

    /// All markers. No more are placed, now or in a later run.
    ///
    /// # Errors
    /// If the system failed: more may still be placed.
    ///
    /// # Not specified
    /// When it fails, and the kind of the error.
    fn end(&mut self) -> io::Result<Vec<CuePoint>>
        ensures kept { points self.new ≡ points self.old }
        ensures ok { IfOk result (λ found. (known : List (ℕ × ℕ)) → points self.old ≡ Some known →
            found.items ≡ known) };
}

/// Files of recordings whose markers are placed while they are made.
pub trait Marking: RecordingFiles {
    /// Places markers.
    type Marker: Marker + Drop;

    /// Identifier and frame of each marker that will have been placed in the recording at a path for
    /// the lines of the file at another, if they are known.
    ghost points_at: { Self → List ℕ → List ℕ → Option (List (ℕ × ℕ)) };

    /// Places the markers of a recording from now on.
    ///
    /// # Errors
    /// If the system failed, or the kept markers are another recording's.
    ///
    /// # Not specified
    /// When it fails, and the kind of the error.
    fn marker(&mut self, place: &MarkPlace<'_>) -> io::Result<Self::Marker>
        ensures count { Self.failures self.new ≡ failures_after result (Self.failures self.old) }
        ensures files { Self.file_at self.new ≡ Self.file_at self.old }
        ensures ok { IfOk result (λ marker. Self.Marker.points marker
            ≡ points_at self.old place.now.recording.now place.now.marks.now) };
}
