//! The command `join`.
ghost use Rattle.std.specs.Prelude.{◌≡◌, Bool};
ghost use Rattle.bw_console.specs.Outcomes.{HasWritten, Outcome};
ghost use Rattle.bw_console.specs.Prints.{IsOf, IsPrint, Print, failures_if};
ghost use Rattle.bw_repair.specs.Conversions.{exit_on_conversion};
ghost use Rattle.bw_repair.specs.Joinings.{IsJoining};
ghost use Rattle.bw_repair.specs.LeftTexts.{join_line as line_of_join};

use crate::conversions::{exit_on, fault_at};
use crate::left_out::join::{JoinError, join};
use crate::left_out::text::join_line;
use crate::{ConvertFault, ConvertKind};
use bw_console::print::{give_up, print_diagnostic};
use bw_console::{Exit, Fault, report_unopened};
use bw_inspect::InspectKind;
use bw_ports::RecordingFiles;
use bw_stream::Sink;
use std::alloc::Global;

/// Prints the take at a path, and after its own chunks those of the file at `left` that no take
/// carries. The size of its form is that of both. What follows the take's last chunk isn't printed.
///
/// `Refused` if a file isn't read, or the chunks are too long for the take's form; `Device` if a file
/// can't be opened, or a read or a write failed; `Memory` if memory was refused. A failure to write to
/// `faults` is ignored.
///
/// # Not specified
/// - When memory is refused, and when the system fails, and the reason in its line.
/// - Of files whose bytes aren't reported, which bytes are printed.
/// - After a part was printed, at which offset a failed read is reported.
/// - Whether the readers, which are dropped, counted failed reads.
pub fn join_files<F: RecordingFiles, W: Sink, E: Sink>(
    alloc: Global,
    files: &mut F,
    take: &str,
    left: &str,
    out: &mut W,
    faults: &mut E,
) -> Exit
    // All of the take with the chunks is printed, or, where a call fails, a prefix of it.
    ensures { (did : Outcome) × (did.exit ≡ result) × (gives_all : Bool)
        × IsJoining (F.file_at files.old take.now) (F.file_at files.old left.now) take.now left.now
        gives_all did
        × (F.failures files.new ≡ failures_if gives_all (F.failures files.old))
        × HasWritten W.Sink E.Sink did out.old out.new faults.old faults.new }
{
    match join(alloc, files, take, left, out) {
        Ok(()) => Exit::Done,
        Err(JoinError::TakeUnopened(error)) => report_unopened(alloc, take, &error, faults),
        Err(JoinError::LeftUnopened(error)) => report_unopened(alloc, left, &error, faults),
        Err(JoinError::Refused(fault)) => refuse(&fault, faults),
        Err(JoinError::Stopped(place)) => refuse(&read_fault(place), faults),
        Err(JoinError::Unwritable) => give_up(faults, &Fault::Unwritable),
    }
}

/// The fault of a read that failed.
fn read_fault(place: u64) -> ConvertFault
    ensures { result ≡ record { kind = ConvertKind.Unread InspectKind.Read; offset = place } }
{
    fault_at(ConvertKind::Unread(InspectKind::Read), place)
}

/// Reports a fault. Returns how the command ends.
fn refuse<E: Sink>(fault: &ConvertFault, faults: &mut E) -> Exit
    ensures exit { result ≡ exit_on_conversion fault.now.kind }
    ensures line { (print : Print) × IsOf (line_of_join fault.now) print
        × IsPrint E.Sink print faults.old faults.new }
{
    print_diagnostic(faults, join_line(fault).as_str().as_bytes());
    exit_on(fault.kind)
}
