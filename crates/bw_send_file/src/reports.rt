//! What is reported of a state.
ghost use Rattle.std.specs.Prelude.{◌≡◌, ℕ, List, IfOk, MatchOption, string_bytes};
ghost use Rattle.std.specs.IoError.{error_kind};
ghost use Rattle.bw_console.specs.Prints.{IsPrint, Nothing, Print};
ghost use Rattle.bw_send_file.specs.StateReports.{ReportsStart, ReportsUnkept};
ghost use Rattle.bw_send_file.specs.StateReports.{start_text, unkept_text};

use bw_console::print::print_diagnostic;
use bw_console::{Exit, report_failure};
use bw_stream::Sink;
use std::alloc::{AllocError, Global};
use std::io;

/// Reports that a state isn't kept, if it isn't. Returns how the command ends: by `exit` if the
/// state is kept.
pub(crate) fn report_end<E: Sink>(
    alloc: Global,
    path: &str,
    unkept: Option<io::Error>,
    exit: Exit,
    faults: &mut E,
) -> Exit
    ensures { (print : Print) × IsPrint E.Sink print faults.old faults.new
        × MatchOption unkept ((result ≡ exit) × (print ≡ Nothing))
        (λ error. ReportsUnkept path.now (error_kind error) result print) }
{
    match unkept {
        None => exit,
        Some(error) => report_unkept(alloc, path, &error, faults),
    }
}

/// Reports that a state isn't kept: `PATH: the state can't be kept: REASON`. Returns `Memory` if
/// memory was refused, even for this line, which is `out of memory` then; otherwise `Device`.
pub(crate) fn report_unkept<E: Sink>(
    alloc: Global,
    path: &str,
    error: &io::Error,
    faults: &mut E,
) -> Exit
    ensures { (print : Print) × ReportsUnkept path.now (error_kind error.now) result print
        × IsPrint E.Sink print faults.old faults.new }
{
    report_failure(unkept_line(alloc, path, error), error, faults)
}

fn unkept_line(alloc: Global, path: &str, error: &io::Error) -> Result<String, AllocError>
    ensures { IfOk result (λ line. (reason : List ℕ)
        × (string_bytes line ≡ unkept_text path.now reason)) }
{
    let reason = format!(in alloc; "{error}")?;
    line_with(alloc, path, reason.as_str())
}

fn line_with(alloc: Global, path: &str, reason: &str) -> Result<String, AllocError>
    ensures { IfOk result (λ line. string_bytes line ≡ unkept_text path.now reason.now) }
{
    format!(in alloc; "{path}: the state can't be kept: {reason}\n")
}

/// Reports where a sender begins: `PATH: WORDS NUMBER`. Where memory is refused for the line,
/// nothing is reported.
pub(crate) fn report_start<E: Sink>(
    alloc: Global,
    path: &str,
    words: &str,
    number: u32,
    faults: &mut E,
)
    ensures { (print : Print) × ReportsStart (start_text path.now words.now number) print
        × IsPrint E.Sink print faults.old faults.new }
{
    if let Ok(line) = start_line(alloc, path, words, number) {
        print_diagnostic(faults, line.as_str().as_bytes());
    }
}

fn start_line(alloc: Global, path: &str, words: &str, number: u32) -> Result<String, AllocError>
    ensures { IfOk result (λ line. string_bytes line ≡ start_text path.now words.now number) }
{
    format!(in alloc; "{path}: {words} {number}\n")
}
