//! The chunks that a take doesn't carry are kept, or it is reported why not.
ghost use Rattle.std.specs.Prelude.{◌≡◌, Bool};
ghost use Rattle.bw_console.specs.Outcomes.{Outcome};
ghost use Rattle.bw_console.specs.Prints.{IsPrint, failures_if};
ghost use Rattle.bw_repair.specs.Keepings.{IsKeeping, IsRefusedKeeping};

use crate::conversions::exit_on;
use crate::left_out::making::keep;
use crate::left_out::text::keep_line;
use crate::{ConvertError, ConvertFault};
use bw_console::print::print_diagnostic;
use bw_console::{Exit, report_unopened};
use bw_disk::Volume;
use bw_ports::RecordingFiles;
use bw_stream::Sink;
use std::alloc::Global;

/// Makes a file at `to` with the chunks of the recording at a path that a take doesn't carry: a RIFF
/// WAVE with the recording's format, without samples. What is made has four zero bytes in the place
/// of its id until all else is synced. A file that has exactly these bytes already is synced, as if it
/// had been made: so a sender can be run again.
///
/// # Errors
/// How the command ends, after it was reported why nothing is kept: `Refused` if the recording isn't
/// read, its chunks are too long for a RIFF file, or something else is at `to`; `Device` if the recording
/// can't be opened, or a read or a write failed; `Memory` if memory was refused. A failure to write
/// to `faults` is ignored.
///
/// # Not specified
/// - When memory is refused, and when the system fails, and the reason in its line.
/// - Of a recording whose bytes aren't reported, which chunks are kept.
/// - Whether a reader, which is dropped, counted a failed read.
pub fn keep_left_out<F: RecordingFiles, D: Volume, E: Sink>(
    alloc: Global,
    files: &mut F,
    disk: &mut D,
    path: &str,
    to: &str,
    faults: &mut E,
) -> Result<(), Exit>
    // The file has each chunk that a take doesn't carry; no other file is changed.
    ensures keeps { (gives_all : Bool)
        × IsKeeping D.Disk (F.file_at files.old path.now) path.now to.now E.Sink result
        disk.old disk.new gives_all faults.old faults.new
        × (F.failures files.new ≡ failures_if gives_all (F.failures files.old)) }
    ensures files { F.file_at files.new ≡ F.file_at files.old }
    ensures stamps { F.stamp_at files.new ≡ F.stamp_at files.old }
{
    match keep(alloc, files, disk, path, to) {
        Ok(()) => Ok(()),
        Err(ConvertError::Unopened(error)) => Err(report_unopened(alloc, path, &error, faults)),
        Err(ConvertError::Refused(fault)) => Err(refuse(&fault, faults)),
    }
}

/// Reports a fault. Returns how the command ends.
fn refuse<E: Sink>(fault: &ConvertFault, faults: &mut E) -> Exit
    ensures { (did : Outcome) × (did.exit ≡ result) × IsRefusedKeeping fault.now did
        × IsPrint E.Sink did.faults faults.old faults.new }
{
    print_diagnostic(faults, keep_line(fault).as_str().as_bytes());
    exit_on(fault.kind)
}
