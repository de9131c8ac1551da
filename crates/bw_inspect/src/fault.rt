//! Why a file isn't read.
ghost use Rattle.std.specs.Prelude.{◌≡◌, ◌≤◌, length, Some};
ghost use Rattle.bw_inspect.specs.Faults.{kind_number, inspect_fault_text, name_of};

use std::error::Error;
use std::fmt;

/// What is wrong, or what is missing.
#[derive(Clone, Copy, Debug, PartialEq, Eq, Hash)]
pub enum InspectKind {
    /// No RIFF, BW64 or RF64 form of type `WAVE`, or one of fewer than 4 bytes.
    NotWave = 1,
    /// The input, the form or the chunk ends before the bytes that the sizes call for.
    Truncated = 2,
    /// A BW64 or RF64 file doesn't begin with `ds64`.
    NoDs64 = 3,
    /// A `ds64` chunk without a size, or too short for its numbers and its table.
    BadDs64 = 4,
    /// A size is given nowhere.
    NoSize = 5,
    /// A second `fmt `, `bext`, `data` or `cue `.
    Twice = 6,
    /// No `fmt ` chunk.
    NoFmt = 7,
    /// No `data` chunk.
    NoData = 8,
    /// A `fmt ` chunk of fewer than 16 bytes.
    BadFmt = 9,
    /// A `bext` chunk of fewer than 602 bytes.
    BadBext = 10,
    /// A `cue ` chunk too short for its count and its points.
    BadCue = 11,
    /// More than 4,096 chunks or entries of `ds64`, or more than 65,536 cue points.
    TooMany = 12,
    /// A form or a chunk of more than 2^62 bytes.
    TooLarge = 13,
    /// The reader failed.
    Read = 14,
    /// Memory was refused.
    Memory = 15,
}

impl InspectKind {
    /// Its number.
    pub fn code(self) -> u8
        ensures value { result ≡ kind_number self }
        ensures range { result ≤ 15 }
    {
        self as u8
    }

    /// Its name, as it is printed, at most 9 bytes.
    pub fn name(self) -> &'static str
        ensures value { result.now ≡ name_of self }
        ensures short { length result.now ≤ 9 }
    {
        match self {
            InspectKind::NotWave => "NotWave",
            InspectKind::Truncated => "Truncated",
            InspectKind::NoDs64 => "NoDs64",
            InspectKind::BadDs64 => "BadDs64",
            InspectKind::NoSize => "NoSize",
            InspectKind::Twice => "Twice",
            InspectKind::NoFmt => "NoFmt",
            InspectKind::NoData => "NoData",
            InspectKind::BadFmt => "BadFmt",
            InspectKind::BadBext => "BadBext",
            InspectKind::BadCue => "BadCue",
            InspectKind::TooMany => "TooMany",
            InspectKind::TooLarge => "TooLarge",
            InspectKind::Read => "Read",
            InspectKind::Memory => "Memory",
        }
    }
}

impl fmt::Display for InspectKind {
    ghost output = { λ k. Some (name_of k) };

    /// Writes the kind's name.
    fn fmt<W: fmt::Write>(&self, f: &mut fmt::Formatter<W>) -> fmt::Result {
        f.write_str(self.name())
    }
}

/// A fault, and where it was met.
#[derive(Clone, Copy, Debug, PartialEq, Eq, Hash)]
pub struct InspectFault {
    pub kind: InspectKind,
    /// In bytes from the file's start: for a chunk that is wrong, the place of its head; for a read
    /// that failed, the place of the next byte that was wanted.
    pub offset: u64,
}

impl fmt::Display for InspectFault {
    ghost output = { λ f. Some (inspect_fault_text f) };

    /// Writes `KIND at OFFSET`.
    fn fmt<W: fmt::Write>(&self, f: &mut fmt::Formatter<W>) -> fmt::Result {
        write!(f, "{} at {}", self.kind, self.offset)
    }
}

impl Error for InspectFault {}

/// A fault at a place.
pub(crate) fn fault_at(kind: InspectKind, offset: u64) -> InspectFault
    ensures { result ≡ record { kind = kind; offset = offset } }
{
    InspectFault { kind, offset }
}
