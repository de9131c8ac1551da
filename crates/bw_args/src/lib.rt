//! The command line of `bwingest`: words to a task that owns what it needs. Nothing is run here.
//! Not stated: several options at once of `serve` and `send`, except by `line`.
#![tactic(auto)]

ghost use Rattle.std.specs.Prelude.{◌≡◌, ◌↔◌, map, IfOk, IsErr, string_bytes};
ghost use Rattle.clap.specs.Words.{kind_of, subcommand_rows_of};
ghost use Rattle.bw_args.specs.Lines.{HasNumbersInRange, IsLineOf, IsTakenLine};
ghost use Rattle.bw_args.specs.CommandForms.{RefusesLines, RunsCommands};
ghost use Rattle.bw_args.specs.Forms.{ReportsHelp};

mod addresses;
mod asked_form;
mod bad_value;
mod commands;
mod folders;
mod inspection;
pub mod numbers;
mod peers;
mod read_words;
mod recordings;

pub use asked_form::AskedForm;
pub use bad_value::BadValue;
use bw_model::Name;
use clap::error::ErrorKind;
use clap::{ArgMatches, Error};
pub use folders::{FolderWork, TakesFolder};
pub use inspection::Inspection;
pub use peers::{End, Journaling, Logging, Recorders, Send, Serve};
pub use recordings::{FileSender, FilesSender, PcmSender, PcmSource, ReceiptTarget, SourceFile};
use std::alloc::{AllocError, Global};

/// What a command line asks the program to do.
#[derive(Debug, PartialEq, Eq, Drop)]
pub enum Task {
    /// Run each line of standard input as an exchange. A file whose RIFF form would be longer than
    /// `limit` bytes is written as BW64. With a `fuse`, the call of the store with that number
    /// fails, the first being number 0.
    Replay {
        limit: u64,
        fuse: Option<u32>,
    },
    /// Play a recorder and a server, by the events on standard input. The take has this
    /// name; `limit` is as for a replay.
    Rehearse {
        name: Name,
        limit: u64,
    },
    /// Report what is in the file at this path.
    Inspect {
        file: String,
    },
    /// Report what is in several files, or in a way of its own.
    InspectFiles(Inspection),
    /// Serve exchanges over TCP.
    Serve(Serve),
    /// Send the requests on standard input to a server.
    Send(Send),
    /// Send the requests of a recording to a server.
    SendFile(FileSender),
    /// Send headerless samples to a server.
    SendPcm(PcmSender),
    /// Send the requests of several recordings to a server, one recording after the other.
    SendFiles(FilesSender),
    /// Print the requests of a recording.
    Pack(SourceFile),
    /// Draw the waveform of the recording in the file at this path.
    Picture {
        file: String,
    },
    /// Report which sizes the file at this path lacks; write them into it, if `write` says so.
    Repair {
        file: String,
        write: bool,
    },
    /// Make a file at `out` with the bytes of the one at `file` under this form's id.
    Convert {
        file: String,
        out: String,
        form: AskedForm,
    },
    /// Print the take at one path with the chunks of the file at another that a take doesn't carry.
    Join {
        take: String,
        left: String,
    },
    /// Report the takes of a folder, or give one of them up.
    Takes(TakesFolder),
    /// Compare the takes of a folder with the receipts in a file.
    Verify {
        folder: String,
        receipts: String,
    },
}

/// What a command line results in.
#[derive(Drop)]
pub enum CommandLine {
    Run(Task),
    /// An invalid value, a usage fault: the first that is looked at.
    BadValue(BadValue),
    /// Help, the version or another usage fault, but never lack of memory. `Error::use_stderr` says
    /// where its text goes, and `Error::exit_code` is the status, 0 or 2.
    Report(Error),
}

/// Parses a command line, whose first word is the program's own name.
///
/// Which words run a task, and of what kind an error is, follows from `clap`'s own contract
/// (`line`). In plain terms the contract says of 108 forms that they run, of 89 which value is a fault
/// and of 23 what they print (`runs`, `refuses`, `help`). Examples test that options may be given in all
/// their forms and orders, and that all else is refused, except `--` at the end or before a file.
///
/// # Errors
/// `AllocError` if memory was refused.
///
/// # Not specified
/// - When memory is refused.
/// - Most combinations of options in plain terms: only `line` covers them.
/// - What the texts of help, version and usage errors say, and where they go.
pub fn parse(alloc: Global, words: &[String]) -> Result<CommandLine, AllocError>
    // What runs, or what kind of error is reported, is what `clap` states of its walk over the
    // words.
    ensures line { IfOk result (IsLineOf (map string_bytes words.now)) }
    ensures ranges { IfOk result HasNumbersInRange }
    // Each command runs in each of its forms, which its record lists.
    ensures runs { IfOk result (RunsCommands (map string_bytes words.now)) }
    // Bad values are refused, missing ones, and options that don't go together.
    ensures refuses { IfOk result (RefusesLines (map string_bytes words.now)) }
    // Help and version are printed.
    ensures help { IfOk result (ReportsHelp (map string_bytes words.now)) }
{
    let read = read_words::read_words(alloc, words)?;
    let mut command = commands::bwingest(alloc)?;
    match command.try_get_matches_from_mut(read.as_slice()) {
        Ok(matches) => taken(alloc, &matches),
        Err(error) => reported(error),
    }
}

/// What words that `clap` takes result in. That `send` needs a name or a FILE is looked at here, since
/// `clap`'s contract isn't exact for an option that is required unless another is there.
fn taken(alloc: Global, matches: &ArgMatches<'_>) -> Result<CommandLine, AllocError>
    ensures { IfOk result (IsTakenLine (subcommand_rows_of matches.now)) }
{
    if commands::is_nameless(matches) {
        let error = commands::name_missing(alloc)?;
        return Ok(CommandLine::Report(error));
    }
    commands::line(alloc, matches)
}

/// Lack of memory is no text for the user: the program has a status of its own for it.
fn reported(error: Error) -> Result<CommandLine, AllocError>
    ensures reported { IfOk result (λ line. line ≡ CommandLine.Report error) }
    ensures out_of_memory { IsErr result ↔ (kind_of error ≡ ErrorKind.OutOfMemory) }
{
    match error.kind() {
        ErrorKind::OutOfMemory => Err(AllocError),
        _ => Ok(CommandLine::Report(error)),
    }
}
