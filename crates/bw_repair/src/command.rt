//! The command `repair`.
ghost use Rattle.std.specs.Prelude.{◌≡◌, ◌⊎◌, ◌^◌, ◌<◌, Bool};
ghost use Rattle.std.specs.IoError.{error_kind};
ghost use Rattle.bw_console.specs.Outcomes.{Outcome, HasWritten, IsOutOfMemory};
ghost use Rattle.bw_console.specs.Prints.{IsPrint, failures_if};
ghost use Rattle.bw_repair.specs.Repairs.{EndsWriting, IsRefusedRepair, IsRepair, IsUnwritten};
ghost use Rattle.bw_repair.specs.Repairs.{exit_on_fault};

use crate::plan::{PlanFault, SizePlan, Soundness, plan_repair};
use crate::text::{plan_text, repair_line, sound_text, unwritten_line};
use crate::writing::write_sizes;
use crate::{RepairFault, RepairKind};
use bw_console::print::{print_diagnostic, print_text};
use bw_console::{Exit, report_failure, report_unopened};
use bw_inspect::InspectKind;
use bw_ports::EditedFiles;
use bw_stream::Sink;
use std::alloc::Global;
use std::io;

/// Prints which sizes the file at a path lacks, and how many frames it has with them; writes them
/// into it if `is_written` says so. A file that is sound stays as it is.
///
/// `Refused` if no sizes are certain, or the file isn't read with them; `Device` if the file can't
/// be opened, or a read or a write failed; `Memory` if memory was refused. A failure to write to
/// `faults` is ignored.
///
/// # Not specified
/// - When memory is refused, and when the system fails, and the reason in its line.
/// - Of a file whose bytes aren't reported, which bytes the sizes are of.
/// - Whether a reader, which is dropped, counted a failed read.
pub fn repair_file<F: EditedFiles, W: Sink, E: Sink>(
    alloc: Global,
    files: &mut F,
    path: &str,
    is_written: bool,
    out: &mut W,
    faults: &mut E,
) -> Exit
    // Without `is_written`, and of a file that is sound or refused, nothing is written.
    ensures { (did : Outcome) × (did.exit ≡ result) × (gives_all : Bool)
        × IsRepair (F.content_at files.old) (F.content_at files.new) path.now is_written gives_all did
        × (F.edit_failures files.new ≡ failures_if gives_all (F.edit_failures files.old))
        × HasWritten W.Sink E.Sink did out.old out.new faults.old faults.new }
{
    match plan_repair(alloc, files, path) {
        Ok(Soundness::Sound(frames)) => {
            print_text(sound_text(frames).as_str().as_bytes(), out, faults)
        }
        Ok(Soundness::Lacking(plan)) if is_written => {
            write_plan(alloc, files, path, &plan, out, faults)
        }
        Ok(Soundness::Lacking(plan)) => {
            print_text(plan_text(&plan, false).as_str().as_bytes(), out, faults)
        }
        Err(PlanFault::Unopened(error)) => report_unopened(alloc, path, &error, faults),
        Err(PlanFault::Refused(fault)) => refuse(&fault, faults),
    }
}

/// Writes the sizes that a file lacks, and prints them.
fn write_plan<F: EditedFiles, W: Sink, E: Sink>(
    alloc: Global,
    files: &mut F,
    path: &str,
    plan: &SizePlan,
    out: &mut W,
    faults: &mut E,
) -> Exit
    requires { plan.now.place < 2 ^ 62 }
    ensures { (did : Outcome) × (did.exit ≡ result) × (gives_all : Bool)
        × EndsWriting plan.now path.now (F.content_at files.old) (F.content_at files.new) gives_all did
        × (F.edit_failures files.new ≡ failures_if gives_all (F.edit_failures files.old))
        × HasWritten W.Sink E.Sink did out.old out.new faults.old faults.new }
{
    match write_sizes(files, path, plan) {
        Ok(()) => print_text(plan_text(plan, true).as_str().as_bytes(), out, faults),
        Err(error) => report_unwritten(alloc, path, &error, faults),
    }
}

/// Reports a fault. Returns how the command ends.
fn refuse<E: Sink>(fault: &RepairFault, faults: &mut E) -> Exit
    ensures { (did : Outcome) × (did.exit ≡ result) × IsRefusedRepair fault.now did
        × IsPrint E.Sink did.faults faults.old faults.new }
{
    print_diagnostic(faults, repair_line(fault).as_str().as_bytes());
    exit_on(fault.kind)
}

/// How the command ends after a fault of this kind.
fn exit_on(kind: RepairKind) -> Exit
    ensures { result ≡ exit_on_fault kind }
{
    match kind {
        RepairKind::Unread(InspectKind::Read) => Exit::Device,
        RepairKind::Unread(InspectKind::Memory) => Exit::Memory,
        _ => Exit::Refused,
    }
}

/// Reports why a file can't be written: `NAME can't be written: REASON`. Returns `Memory` if memory
/// was refused, even for this line, which is `out of memory` then; otherwise `Device`.
fn report_unwritten<E: Sink>(alloc: Global, path: &str, error: &io::Error, faults: &mut E) -> Exit
    ensures { (did : Outcome) × (did.exit ≡ result)
        × (IsUnwritten path.now (error_kind error.now) did ⊎ IsOutOfMemory did)
        × IsPrint E.Sink did.faults faults.old faults.new }
{
    report_failure(unwritten_line(alloc, path, error), error, faults)
}
