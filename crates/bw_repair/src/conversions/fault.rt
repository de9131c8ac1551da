//! Why a file isn't converted.
ghost use Rattle.std.specs.Prelude.{◌≡◌, ◌≤◌, length};
ghost use Rattle.bw_repair.specs.ConvertFaults.{convert_kind_text};

use bw_inspect::{InspectFault, InspectKind};
use std::io;

/// What is wrong with FILE, the file that is read, or with OUT, the file that is made.
#[derive(Clone, Copy, Debug, PartialEq, Eq)]
pub enum ConvertKind {
    /// FILE has this fault, or a read of it failed.
    Unread(InspectKind),
    /// FILE is neither BW64 nor RF64, but RIFF, which has no `ds64` chunk.
    Riff,
    /// FILE has the id that is asked for.
    SameForm,
    /// FILE has more than 2^62 bytes.
    TooLong,
    /// Something is at OUT's path.
    Exists,
    /// OUT can't be made, written or synced.
    Unwritten,
}

impl ConvertKind {
    /// Its name, as it is printed, at most 9 bytes.
    pub fn name(self) -> &'static str
        ensures value { result.now ≡ convert_kind_text self }
        ensures short { length result.now ≤ 9 }
    {
        match self {
            ConvertKind::Unread(kind) => kind.name(),
            ConvertKind::Riff => "Riff",
            ConvertKind::SameForm => "SameForm",
            ConvertKind::TooLong => "TooLong",
            ConvertKind::Exists => "Exists",
            ConvertKind::Unwritten => "Unwritten",
        }
    }
}

/// A fault, and where it was met.
#[derive(Clone, Copy, Debug, PartialEq, Eq)]
pub struct ConvertFault {
    pub kind: ConvertKind,
    /// In bytes from the file's start: of FILE that of the fault, or of the next byte that was
    /// wanted; of OUT that of the next byte to be written, or 0 where none was.
    pub offset: u64,
}

/// Why there is no converted file.
#[derive(Drop)]
pub enum ConvertError {
    /// The system can't open FILE.
    Unopened(io::Error),
    /// FILE or OUT has this fault.
    Refused(ConvertFault),
}

/// The error of a fault of this kind at a place.
pub(crate) fn refused_at(kind: ConvertKind, offset: u64) -> ConvertError
    ensures { result ≡ ConvertError.Refused (record { kind = kind; offset = offset }) }
{
    ConvertError::Refused(fault_at(kind, offset))
}

/// A fault at a place.
pub(crate) fn fault_at(kind: ConvertKind, offset: u64) -> ConvertFault
    ensures { result ≡ record { kind = kind; offset = offset } }
{
    ConvertFault { kind, offset }
}
