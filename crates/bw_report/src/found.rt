//! What is found at a path.
ghost use Rattle.std.specs.Prelude.{◌≡◌};
ghost use Rattle.bw_report.specs.FileFindings.{exit_of_found};

use crate::exits::exit_on;
use bw_console::Exit;
use bw_contents::Contents;
use bw_inspect::{InspectFault, Report};

/// What is found at a path.
#[derive(Drop)]
pub enum Found {
    /// A file with this report, and the SHA-256 of its samples, where that is asked for; and what
    /// its chunks say beside the report, where they were read.
    Read {
        report: Report,
        digest: Option<[u8; 32]>,
        contents: Option<Contents>,
    },
    /// A file with this fault.
    Faulty(InspectFault),
    /// No file that can be opened, which was reported and ends the command so.
    Unopened(Exit),
}

impl Found {
    /// How the command ends by this file.
    pub(crate) fn exit(&self) -> Exit
        ensures { result ≡ exit_of_found self.now }
    {
        match self {
            Found::Read { .. } => Exit::Done,
            Found::Faulty(fault) => exit_on(fault.kind),
            Found::Unopened(exit) => *exit,
        }
    }
}
