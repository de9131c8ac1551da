//! Why no recording is made of a file.
ghost use Rattle.std.specs.Prelude.{◌≡◌, ◌≤◌, length, Some};
ghost use Rattle.bw_plan.specs.Faults.{kind_text, recording_fault_text};

use crate::unclean::UncleanPart;
use bw_inspect::{InspectKind, OtherFormat};
use std::error::Error;
use std::fmt;

/// What is wrong with a file.
#[derive(Clone, Copy, Debug, PartialEq, Eq, Hash)]
pub enum RecordingKind {
    /// It isn't read.
    Unread(InspectKind),
    /// It has another format.
    Foreign(OtherFormat),
    /// The samples are floating-point numbers of so many bits.
    Float(u16),
    /// The samples are neither PCM nor floating-point numbers.
    NotPcm,
    /// Not 16, 24 or 32 bits a sample.
    Bits,
    /// Not as many bits are valid as a sample has.
    ValidBits,
    /// A frame has more or fewer bytes than its samples.
    Align,
    /// Not 1 to 768,000 Hz.
    Rate,
    /// Not 1 to 64 channels.
    Channels,
    /// The data end inside a frame.
    PartFrame,
    /// Headerless samples have no frame at all.
    Empty,
    /// Headerless samples begin after the file's end.
    Short,
    /// Something has to be cleaned, and may not be.
    Unclean(UncleanPart),
    /// More than 16,777,216 requests.
    TooLong,
}

/// A fault, and where it was met.
#[derive(Clone, Copy, Debug, PartialEq, Eq, Hash)]
pub struct RecordingFault {
    pub kind: RecordingKind,
    /// In bytes from the file's start: the head of the chunk that is wrong; for Unread the place of
    /// that fault; for headerless samples the place that `Pcm::outline` says.
    pub offset: u64,
}

impl RecordingKind {
    /// Its name, as it is printed, at most 9 bytes.
    pub fn name(self) -> &'static str
        ensures value { result.now ≡ kind_text self }
        ensures short { length result.now ≤ 9 }
    {
        match self {
            RecordingKind::Unread(kind) => kind.name(),
            RecordingKind::Foreign(_) => "NotWave",
            RecordingKind::Float(_) => "NotPcm",
            RecordingKind::NotPcm => "NotPcm",
            RecordingKind::Bits => "Bits",
            RecordingKind::ValidBits => "ValidBits",
            RecordingKind::Align => "Align",
            RecordingKind::Rate => "Rate",
            RecordingKind::Channels => "Channels",
            RecordingKind::PartFrame => "PartFrame",
            RecordingKind::Empty => "Empty",
            RecordingKind::Short => "Truncated",
            RecordingKind::Unclean(_) => "Unclean",
            RecordingKind::TooLong => "TooLong",
        }
    }
}

impl fmt::Display for RecordingFault {
    ghost output = { λ f. Some (recording_fault_text f) };

    /// Writes `KIND at OFFSET`.
    fn fmt<W: fmt::Write>(&self, f: &mut fmt::Formatter<W>) -> fmt::Result {
        write!(f, "{} at {}", self.kind.name(), self.offset)
    }
}

impl Error for RecordingFault {}

/// A fault at a place.
pub(crate) fn fault_at(kind: RecordingKind, offset: u64) -> RecordingFault
    ensures { result ≡ record { kind = kind; offset = offset } }
{
    RecordingFault { kind, offset }
}
