//! The forms that a file is converted to.

/// A form of files with a `ds64` chunk.
#[derive(Clone, Copy, Debug, PartialEq, Eq)]
pub enum AskedForm {
    /// EBU Tech 3306.
    Rf64,
    /// ITU-R BS.2088.
    Bw64,
}
