//! The command `takes`: a line for each take of a folder.
ghost use Rattle.std.specs.Prelude.{◌≡◌, ◌⊎◌, true, IfOk, string_bytes};
ghost use Rattle.bw_console.specs.Outcomes.{Outcome, HasWritten, IsOutOfMemory};
ghost use Rattle.bw_console.specs.Prints.{IsPrint};
ghost use Rattle.bw_disk.specs.DiskSteps.{StaysWhole};
ghost use Rattle.bw_takes.specs.Showings.{IsShowing, IsFolderUnread, PrintsTold, ReportsUnread};
ghost use Rattle.bw_takes.specs.Showings.{exit_for as exit_when};
ghost use Rattle.bw_takes.specs.TakeReports.{told_by};
ghost use Rattle.bw_takes.specs.UnreadEntries.{unread_text};

use crate::listing::{ReportForm, TakesReport, report_takes};
use bw_console::print::{give_up, print, print_diagnostic};
use bw_console::{Exit, Fault};
use bw_disk::{ReadFault, Volume};
use bw_stream::Sink;
use std::alloc::{AllocError, Global};

/// Prints a line for each take of a folder, of words or of JSON, in the order of their names' bytes.
/// Nothing is locked, and nothing changed.
///
/// `Done` if nothing is wrong with any take, `Refused` if something is; `Device` if a file of a take
/// can't be read, which is a line on `faults` after the lines of the others, or the folder, which is
/// a line on `faults` and nothing else, or if the lines can't be written; `Memory` if memory was
/// refused.
///
/// # Not specified
/// - When memory is refused.
/// - When a disk that isn't honest fails, and what is reported over it.
pub fn show_takes<D: Volume, W: Sink, E: Sink>(
    alloc: Global,
    disk: &mut D,
    folder: &str,
    form: ReportForm,
    out: &mut W,
    faults: &mut E,
) -> Exit
    ensures { (did : Outcome) × (did.exit ≡ result)
        × IsShowing form (D.honest disk.old) folder.now (D.contents disk.old) (D.failures disk.old)
        (D.failures disk.new) did
        × StaysWhole D.Disk disk.old disk.new
        × HasWritten W.Sink E.Sink did out.old out.new faults.old faults.new }
{
    match report_takes(alloc, disk, folder, form) {
        Ok(report) => print_report(&report, out, faults),
        Err(ReadFault::Disk) => report_unread(alloc, folder, faults),
        Err(ReadFault::Memory) => give_up(faults, &Fault::Memory),
    }
}

/// Prints what is reported of takes.
pub(crate) fn print_report<W: Sink, E: Sink>(
    report: &TakesReport,
    out: &mut W,
    faults: &mut E,
) -> Exit
    ensures { (did : Outcome) × (did.exit ≡ result) × (did.reads_all ≡ true)
        × PrintsTold (told_by report.now) did
        × HasWritten W.Sink E.Sink did out.old out.new faults.old faults.new }
{
    match print(out, report.lines.as_slice()) {
        Ok(()) => report_entries(report, faults),
        Err(_) => give_up(faults, &Fault::Unwritable),
    }
}

/// Reports which files can't be read. Returns how the command ends that has printed its lines.
fn report_entries<E: Sink>(report: &TakesReport, faults: &mut E) -> Exit
    ensures { ReportsUnread E.Sink (told_by report.now) result faults.old faults.new }
{
    if report.unread.is_empty() {
        return exit_for(report.sound);
    }
    print_diagnostic(faults, report.unread.as_slice());
    Exit::Device
}

/// How the command ends that has printed its lines.
fn exit_for(sound: bool) -> Exit
    ensures { result ≡ exit_when sound }
{
    if sound { Exit::Done } else { Exit::Refused }
}

/// Reports that a folder can't be read.
pub(crate) fn report_unread<E: Sink>(alloc: Global, folder: &str, faults: &mut E) -> Exit
    ensures { (did : Outcome) × (did.exit ≡ result)
        × (IsFolderUnread folder.now did ⊎ IsOutOfMemory did)
        × IsPrint E.Sink did.faults faults.old faults.new }
{
    let Ok(line) = unread_line(alloc, folder) else {
        return give_up(faults, &Fault::Memory);
    };
    print_diagnostic(faults, line.as_str().as_bytes());
    Exit::Device
}

/// The line of a path that can't be read.
pub(crate) fn unread_line(alloc: Global, path: &str) -> Result<String, AllocError>
    ensures { IfOk result (λ line. string_bytes line ≡ unread_text path.now) }
{
    format!(in alloc; "{path} can't be read\n")
}
