//! Folders of takes as a command line asks for them.
use bw_model::Name;

/// The folder whose takes are reported or watched, or of which one is given up.
#[derive(Debug, PartialEq, Eq, Drop)]
pub struct TakesFolder {
    /// Its path, as it was given.
    pub folder: String,
    /// What is done there.
    pub work: FolderWork,
}

/// What is done in a folder of takes.
#[derive(Debug, PartialEq, Eq, Drop)]
pub enum FolderWork {
    /// The takes are reported: with `check` their samples are compared with their journals, with
    /// `json` each is a line of JSON, and with `digest` the SHA-256 of each closed take's samples is
    /// added.
    Report {
        check: bool,
        json: bool,
        digest: bool,
    },
    /// The takes are reported again and again, until the program is stopped.
    Watch,
    /// The take of this name is given up.
    GiveUp(Name),
}
