//! A command line whose words can't be read.
ghost use Rattle.std.specs.Prelude.{◌≡◌};
ghost use Rattle.std.specs.IoError.{error_kind};
ghost use Rattle.bw_console.specs.Outcomes.{Outcome};
ghost use Rattle.bw_console.specs.Prints.{IsPrint};
ghost use Rattle.bw_console.specs.BadArgv.{IsBadArgv, exit_without_words};

use crate::exit::Exit;
use crate::print::print_diagnostic;
use bw_stream::Sink;
use std::io::{self, ErrorKind};

/// Reports that the words of the command line can't be read, for this system error. Returns how the
/// program ends: `Usage` if a word isn't UTF-8, `Memory` if memory was refused, else `Device`.
pub fn report_bad_argv<E: Sink>(error: &io::Error, faults: &mut E) -> Exit
    ensures { (did : Outcome) × (did.exit ≡ result) × IsBadArgv (error_kind error.now) did
        × IsPrint E.Sink did.faults faults.old faults.new }
{
    print_diagnostic(faults, b"the command line can't be read\n");
    exit_without(error.kind())
}

/// How the program ends if its words can't be read: one that isn't UTF-8 is a usage error.
fn exit_without(kind: ErrorKind) -> Exit
    ensures { result ≡ exit_without_words kind }
{
    match kind {
        ErrorKind::OutOfMemory => Exit::Memory,
        ErrorKind::InvalidData => Exit::Usage,
        _ => Exit::Device,
    }
}
