//! Why no more requests of samples are given.

/// Why no more requests of headerless samples are given.
#[derive(Clone, Copy, Debug, PartialEq, Eq)]
pub enum PcmFault {
    /// The file couldn't be read at this place, in bytes from its start, or it couldn't be found out
    /// whether it is complete.
    Unread { place: u64 },
    /// The file is complete, and ends inside the frame at this place, in bytes from its start.
    PartFrame { place: u64 },
    /// The file is complete, and has no sample: they would begin at this place, in bytes from its
    /// start.
    Empty { place: u64 },
    /// The samples end past 2^64 - 1.
    TooLong,
    /// No message carries the next request: a value or a coding history that isn't allowed.
    Unsendable,
    /// Memory was refused.
    Memory,
}
