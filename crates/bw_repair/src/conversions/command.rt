//! The command `convert`.
ghost use Rattle.std.specs.Prelude.{◌≡◌, Bool};
ghost use Rattle.bw_console.specs.Outcomes.{HasWritten, Outcome};
ghost use Rattle.bw_console.specs.Prints.{IsPrint, failures_if};
ghost use Rattle.bw_repair.specs.Conversions.{IsConversion, IsRefusedConversion, exit_on_conversion};

use crate::conversions::conversion::convert;
use crate::conversions::text::{conversion_line, made_text};
use crate::{ConvertError, ConvertFault, ConvertKind, WideForm};
use bw_console::print::{print_diagnostic, print_text};
use bw_console::{Exit, report_unopened};
use bw_disk::Volume;
use bw_inspect::InspectKind;
use bw_ports::RecordingFiles;
use bw_stream::Sink;
use std::alloc::Global;

/// Makes a file with the bytes of the file at a path under a form's id, and prints the form and how
/// many bytes there are. What is made has four zero bytes in the place of the id until all else is
/// synced.
///
/// `Refused` if the file at the path isn't read or isn't of the other form, or something is at `to`;
/// `Device` if the file can't be opened, or a read or a write failed; `Memory` if memory was refused.
/// A failure to write to `faults` is ignored.
///
/// # Not specified
/// - When memory is refused, and when the system fails, and the reason in its line.
/// - Of a file whose bytes aren't reported, which bytes are converted.
/// - Whether a reader, which is dropped, counted a failed read.
pub fn convert_file<F: RecordingFiles, D: Volume, W: Sink, E: Sink>(
    alloc: Global,
    files: &mut F,
    disk: &mut D,
    path: &str,
    to: &str,
    form: WideForm,
    out: &mut W,
    faults: &mut E,
) -> Exit
    // What is made is new, and has the bytes of the file but for the first four; no file is changed.
    ensures { (did : Outcome) × (did.exit ≡ result) × (gives_all : Bool)
        × IsConversion D.Disk (F.file_at files.old path.now) to.now form path.now disk.old disk.new
        gives_all did
        × (F.failures files.new ≡ failures_if gives_all (F.failures files.old))
        × HasWritten W.Sink E.Sink did out.old out.new faults.old faults.new }
{
    match convert(alloc, files, disk, path, to, form) {
        Ok(len) => print_text(made_text(form, len).as_str().as_bytes(), out, faults),
        Err(ConvertError::Unopened(error)) => report_unopened(alloc, path, &error, faults),
        Err(ConvertError::Refused(fault)) => refuse(&fault, faults),
    }
}

/// Reports a fault. Returns how the command ends.
fn refuse<E: Sink>(fault: &ConvertFault, faults: &mut E) -> Exit
    ensures { (did : Outcome) × (did.exit ≡ result) × IsRefusedConversion fault.now did
        × IsPrint E.Sink did.faults faults.old faults.new }
{
    print_diagnostic(faults, conversion_line(fault).as_str().as_bytes());
    exit_on(fault.kind)
}

/// How the command ends after a fault of this kind.
pub(crate) fn exit_on(kind: ConvertKind) -> Exit
    ensures { result ≡ exit_on_conversion kind }
{
    match kind {
        ConvertKind::Unread(InspectKind::Read) => Exit::Device,
        ConvertKind::Unread(InspectKind::Memory) => Exit::Memory,
        ConvertKind::Unwritten => Exit::Device,
        _ => Exit::Refused,
    }
}
