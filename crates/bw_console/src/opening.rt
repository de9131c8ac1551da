//! Why something can't be opened.
ghost use Rattle.std.specs.Prelude.{◌≡◌, ◌⊎◌, ℕ, List, IfOk, string_bytes};
ghost use Rattle.std.specs.IoError.{error_kind};
ghost use Rattle.bw_console.specs.Outcomes.{Outcome, IsOutOfMemory};
ghost use Rattle.bw_console.specs.Prints.{IsPrint};
ghost use Rattle.bw_console.specs.FailedOpenings.{IsUnopened, ReportsFailure, exit_unopened, unopened_text};

use crate::exit::Exit;
use crate::fault::Fault;
use crate::print::{give_up, print_diagnostic};
use bw_stream::Sink;
use std::alloc::{AllocError, Global};
use std::io::{self, ErrorKind};

/// Reports why something can't be opened: `NAME can't be opened: REASON`. Returns `Memory` if
/// memory was refused, even for this line, which is `out of memory` then; otherwise `Device`.
///
/// # Not specified
/// - The reason in the line.
/// - When memory is refused for it.
pub fn report_unopened<E: Sink>(
    alloc: Global,
    path: &str,
    error: &io::Error,
    faults: &mut E,
) -> Exit
    ensures { (did : Outcome) × (did.exit ≡ result)
        × (IsUnopened path.now (error_kind error.now) did ⊎ IsOutOfMemory did)
        × IsPrint E.Sink did.faults faults.old faults.new }
{
    report_failure(unopened_line(alloc, path, error), error, faults)
}

/// Reports a call of the system that failed, in a line with the reason. Returns `Memory` if memory
/// was refused, even for this line, which is `out of memory` then; otherwise `Device`.
pub fn report_failure<E: Sink>(
    line: Result<String, AllocError>,
    error: &io::Error,
    faults: &mut E,
) -> Exit
    ensures { (text : List ℕ → List ℕ) →
        IfOk line (λ l. (reason : List ℕ) × (string_bytes l ≡ text reason)) →
        (did : Outcome) × (did.exit ≡ result)
        × (ReportsFailure text (error_kind error.now) did ⊎ IsOutOfMemory did)
        × IsPrint E.Sink did.faults faults.old faults.new }
{
    let Ok(line) = line else {
        return give_up(faults, &Fault::Memory);
    };
    print_diagnostic(faults, line.as_str().as_bytes());
    exit_after(error)
}

/// How a command ends whose call failed with this error.
fn exit_after(error: &io::Error) -> Exit
    ensures { result ≡ exit_unopened (error_kind error.now) }
{
    match error.kind() {
        ErrorKind::OutOfMemory => Exit::Memory,
        _ => Exit::Device,
    }
}

fn unopened_line(alloc: Global, path: &str, error: &io::Error) -> Result<String, AllocError>
    ensures { IfOk result (λ line. (reason : List ℕ) ×
        (string_bytes line ≡ unopened_text path.now reason)) }
{
    let reason = format!(in alloc; "{error}")?;
    line_with(alloc, path, reason.as_str())
}

fn line_with(alloc: Global, path: &str, reason: &str) -> Result<String, AllocError>
    ensures { IfOk result (λ line. string_bytes line ≡ unopened_text path.now reason.now) }
{
    format!(in alloc; "{path} can't be opened: {reason}\n")
}
