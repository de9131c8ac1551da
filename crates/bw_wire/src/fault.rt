//! Faults of a stream.
ghost use Rattle.std.specs.Prelude.{Some};
ghost use Rattle.bw_wire.specs.Faults.{fault_text};

use crate::reason::Reason;
use std::error::Error;
use std::fmt;

/// Bytes that are no frame: why, and how many bytes of the stream come before them.
#[derive(Clone, Copy, Debug, PartialEq, Eq, Hash)]
pub struct WireFault {
    pub reason: Reason,
    pub offset: u64,
}

impl fmt::Display for WireFault {
    ghost output = { λ fault. Some (fault_text fault) };

    /// Writes `at OFFSET: REASON`.
    fn fmt<W: fmt::Write>(&self, f: &mut fmt::Formatter<W>) -> fmt::Result {
        write!(f, "at {}: {}", self.offset, self.reason)
    }
}

impl Error for WireFault {}
