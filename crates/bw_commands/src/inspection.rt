//! The command `inspect`: what is in a file, given as a reader or by its path.
ghost use Rattle.std.specs.Prelude.{◌≡◌, Bool, true};
ghost use Rattle.bw_model.specs.Report.{report_text};
ghost use Rattle.bw_inspect.specs.Reports.{reported_by};
ghost use Rattle.bw_console.specs.Outcomes.{Outcome, HasWritten};
ghost use Rattle.bw_commands.specs.Looks.{IsLook};
ghost use Rattle.bw_commands.specs.Inspections.{IsInspection, IsPrintOfText, exit_for_fault, fault_line};
ghost use Rattle.bw_console.specs.Prints.{IsPrint, Print, failures_if};

use arrayvec::ArrayString;
use bw_console::print::{give_up, print, print_diagnostic};
use bw_console::{Exit, Fault, report_unopened};
use bw_inspect::{
    InspectFault, InspectKind, OtherFormat, Report, hint_of_start, inspect_recognizing,
    write_report,
};
use bw_ports::System;
use bw_stream::{MemorySink, Sink, Source};
use itoa::Buffer;
use std::alloc::Global;

/// Reads a file, and writes its report, or the line of its first fault to `faults`.
///
/// A failure to write to `faults` is ignored. The report is made whole in memory before its first
/// byte is written.
///
/// `Refused` for a fault of the file; `Device` if a read or a write failed; `Memory` if memory was
/// refused. Nothing is printed then, or a prefix if the writer failed.
///
/// # Not specified
/// - When memory is refused.
/// - How much of the file is read or skipped.
pub fn inspect_run<R: Source, W: Sink, E: Sink>(
    alloc: Global,
    file: &mut R,
    out: &mut W,
    faults: &mut E,
) -> Exit
    ensures { (did : Outcome) × (did.exit ≡ result) × IsInspection (R.left file.old) did
        × (R.failures file.new ≡ failures_if did.reads_all (R.failures file.old))
        × HasWritten W.Sink E.Sink did out.old out.new faults.old faults.new }
{
    let mut other = None;
    match inspect_recognizing(alloc, file, &mut other) {
        Ok(report) => match print_report(alloc, &report, out) {
            Ok(()) => Exit::Done,
            Err(fault) => give_up(faults, &fault),
        },
        Err(fault) => {
            print_diagnostic(faults, line_of(&fault, other).as_str().as_bytes());
            exit_on(fault.kind)
        }
    }
}

/// Reports what is in the file at a path.
///
/// A failure to write to `faults` is ignored. A file that can't be opened is a line on `faults`,
/// with the system's own reason.
///
/// It ends as `inspect_run` does; if the file can't be opened, with `Memory` if memory was refused,
/// else with `Device`.
///
/// # Not specified
/// - When memory is refused, and how much of the file is read or skipped.
/// - When a file isn't opened, and the reason in its line.
/// - Over `Host`, which bytes the report is of.
/// - Whether the reader, which is dropped, counted a failed read.
pub fn inspect_file<S: System, W: Sink, E: Sink>(
    alloc: Global,
    system: &mut S,
    path: &str,
    out: &mut W,
    faults: &mut E,
) -> Exit
    ensures { (did : Outcome) × (did.exit ≡ result) × (gives_all : Bool)
        × IsLook (S.file_at system.old path.now) path.now gives_all did
        × (did.reads_all ≡ true)
        × (S.failures system.new ≡ failures_if gives_all (S.failures system.old))
        × HasWritten W.Sink E.Sink did out.old out.new faults.old faults.new }
{
    match system.open(path) {
        Ok(mut file) => inspect_run(alloc, &mut file, out, faults),
        Err(error) => report_unopened(alloc, path, &error, faults),
    }
}

/// Writes the text of a report, which is made whole first.
fn print_report<W: Sink>(alloc: Global, report: &Report, out: &mut W) -> Result<(), Fault>
    ensures { (print : Print)
        × IsPrintOfText (report_text (reported_by report.now)) result print
        × IsPrint W.Sink print out.old out.new }
{
    let mut text = MemorySink::new(Vec::new(alloc));
    let Ok(()) = write_report(report, &mut text) else {
        return Err(Fault::Memory);
    };
    match print(out, text.into_bytes().as_slice()) {
        Ok(()) => Ok(()),
        Err(_) => Err(Fault::Unwritable),
    }
}

/// The line of a fault, and below it what to do about it, where that is known, and of which other
/// format the file is. It allocates nothing, since memory may be what is lacking.
fn line_of(fault: &InspectFault, other: Option<OtherFormat>) -> ArrayString<256>
    ensures { result.bytes ≡ fault_line fault.now other }
{
    let mut digits = Buffer::new();
    let mut line = ArrayString::new();
    line.push_str("inspect: ");
    line.push_str(fault.kind.name());
    line.push_str(" at ");
    line.push_str(digits.format(fault.offset));
    line.push_str("\n");
    line.push_str(hint_of_start(fault.kind, fault.offset, other));
    line
}

/// How an inspection ends after a fault of this kind.
fn exit_on(kind: InspectKind) -> Exit
    ensures { result ≡ exit_for_fault kind }
{
    match kind {
        InspectKind::Read => Exit::Device,
        InspectKind::Memory => Exit::Memory,
        _ => Exit::Refused,
    }
}
