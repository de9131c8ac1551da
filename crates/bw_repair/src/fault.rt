//! Why a file isn't repaired.
ghost use Rattle.std.specs.Prelude.{◌≡◌, ◌≤◌, length, Some};
ghost use Rattle.bw_repair.specs.Faults.{repair_kind_text, repair_fault_text};

use bw_inspect::{InspectFault, InspectKind};
use std::error::Error;
use std::fmt;

/// What is wrong with a file, or uncertain about it.
#[derive(Clone, Copy, Debug, PartialEq, Eq, Hash)]
pub enum RepairKind {
    /// It isn't read, as it is or with its new sizes.
    Unread(InspectKind),
    /// Other chunks may follow the samples, whose size isn't known or doesn't reach to the end.
    NotLast,
    /// The samples end after the form does.
    Overlap,
}

impl RepairKind {
    /// Its name, as it is printed, at most 9 bytes.
    pub fn name(self) -> &'static str
        ensures value { result.now ≡ repair_kind_text self }
        ensures short { length result.now ≤ 9 }
    {
        match self {
            RepairKind::Unread(kind) => kind.name(),
            RepairKind::NotLast => "NotLast",
            RepairKind::Overlap => "Overlap",
        }
    }
}

/// A fault, and where it was met.
#[derive(Clone, Copy, Debug, PartialEq, Eq, Hash)]
pub struct RepairFault {
    pub kind: RepairKind,
    /// In bytes from the file's start: the head of the chunk that is wrong; for a read that failed,
    /// the place of the next byte that was wanted.
    pub offset: u64,
}

impl fmt::Display for RepairFault {
    ghost output = { λ f. Some (repair_fault_text f) };

    /// Writes `KIND at OFFSET`.
    fn fmt<W: fmt::Write>(&self, f: &mut fmt::Formatter<W>) -> fmt::Result {
        write!(f, "{} at {}", self.kind.name(), self.offset)
    }
}

impl Error for RepairFault {}

impl From<InspectFault> for RepairFault {
    ghost use Rattle.bw_repair.specs.Faults.{as_repair_fault};

    ghost from_gives = { λ f fault. fault ≡ as_repair_fault f };

    /// The same fault.
    fn from(fault: InspectFault) -> RepairFault {
        RepairFault {
            kind: RepairKind::Unread(fault.kind),
            offset: fault.offset,
        }
    }
}

/// A fault at a place.
pub(crate) fn fault_at(kind: RepairKind, offset: u64) -> RepairFault
    ensures { result ≡ record { kind = kind; offset = offset } }
{
    RepairFault { kind, offset }
}
