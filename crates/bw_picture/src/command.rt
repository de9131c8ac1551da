//! The command `picture`.
ghost use Rattle.std.specs.Prelude.{◌≡◌, Bool};
ghost use Rattle.bw_console.specs.Outcomes.{HasWritten, Outcome};
ghost use Rattle.bw_console.specs.Prints.{failures_if};
ghost use Rattle.bw_picture.specs.Pictures.{IsDrawing};

use crate::opening::picture_at;
use bw_console::Exit;
use bw_console::print::print_text;
use bw_ports::RecordingFiles;
use bw_recorder::report_open_fault;
use bw_stream::Sink;
use std::alloc::Global;

/// Prints the picture of the file at a path: the waveform of its recording, with a time axis and
/// the file's markers (SVG 1.1).
///
/// `Refused` for a fault of the file or of the recording; `Device` if the file can't be opened, or
/// a read or a write failed; `Memory` if memory was refused. A failure to write to `faults` is
/// ignored. The text is made whole in memory before its first byte is written.
///
/// # Not specified
/// - When memory is refused.
/// - When the system fails, and the reason in its line.
/// - Of a file whose bytes aren't reported, which bytes are drawn.
/// - Whether a reader, which is dropped, counted a failed read, and the place in its line.
pub fn draw_file<F: RecordingFiles, W: Sink, E: Sink>(
    alloc: Global,
    files: &mut F,
    path: &str,
    out: &mut W,
    faults: &mut E,
) -> Exit
    // TooLong is reported of a recording that doesn't fit into a picture, and of no other.
    ensures { (did : Outcome) × (did.exit ≡ result) × (gives_all : Bool)
        × IsDrawing (F.file_at files.old path.now) path.now gives_all did
        × (F.failures files.new ≡ failures_if gives_all (F.failures files.old))
        × HasWritten W.Sink E.Sink did out.old out.new faults.old faults.new }
{
    match picture_at(alloc, files, path) {
        Ok(text) => print_text(text.as_slice(), out, faults),
        Err(fault) => report_open_fault(alloc, "picture", path, &fault, faults),
    }
}
