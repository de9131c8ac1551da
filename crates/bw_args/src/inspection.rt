//! Inspections as a command line asks for them.

/// The files that are inspected, and how they are reported: several, or one in a way of its own.
#[derive(Debug, PartialEq, Eq, Drop)]
pub struct Inspection {
    /// The paths of the files, as they were given, in this order. `-` is standard input, and is
    /// given alone.
    pub files: Vec<String>,
    /// Whether they are reported in JSON.
    pub json: bool,
    /// Whether they are reported for people.
    pub human: bool,
    /// Whether the SHA-256 of their samples is wanted.
    pub digest: bool,
}
