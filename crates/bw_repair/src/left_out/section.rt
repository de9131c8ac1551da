//! A section of a file.

/// Eight bytes, and after them some of a file's.
#[derive(Clone, Copy, Debug, PartialEq, Eq)]
pub(crate) struct Section {
    /// The bytes that come first.
    pub front: [u8; 8],
    /// How many of the file's next bytes are passed over.
    pub gap: u64,
    /// How many of those after them follow. One that the file lacks at its end is zero.
    pub size: u64,
}
