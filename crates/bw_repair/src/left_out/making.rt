//! The chunks that a take doesn't carry are kept in a file.
ghost use Rattle.std.specs.Prelude.{◌≡◌, IfErr, OnOk};
ghost use Rattle.bw_console.specs.Prints.{failures_if};
ghost use Rattle.bw_stream.specs.Readers.{Of};
ghost use Rattle.bw_repair.specs.ChunkSections.{AreLeft};
ghost use Rattle.bw_repair.specs.ConvertFaults.{is_disk_error, is_opened};
ghost use Rattle.bw_repair.specs.DiskSteps.{IsStep};
ghost use Rattle.bw_repair.specs.Keepings.{HasLeftFile, LeavesKeep, RefusesKeep};

use crate::ConvertError;
use crate::left_out::file::file_sections;
use crate::left_out::putting::put_file;
use crate::left_out::reading::read_report;
use crate::left_out::section::Section;
use crate::left_out::section_reader::SectionReader;
use bw_disk::Volume;
use bw_ports::RecordingFiles;
use std::alloc::Global;

/// Makes a file at `to` with the chunks of the recording at a path that a take doesn't carry, unless it
/// is there already. The recording is opened twice.
///
/// # Errors
/// Why there is none: Unopened; Unread; TooLong; Exists; Unwritten.
pub(crate) fn keep<F: RecordingFiles, D: Volume>(
    alloc: Global,
    files: &mut F,
    disk: &mut D,
    path: &str,
    to: &str,
) -> Result<(), ConvertError>
    ensures ok { OnOk result (Of (F.file_at files.old path.now) (λ b.
        HasLeftFile D.Disk b to.now disk.old disk.new)) }
    ensures err { IfErr result (λ e. Of (F.file_at files.old path.now) (λ b. RefusesKeep b e)) }
    ensures left { IfErr result (λ e. LeavesKeep D.Disk (F.file_at files.old path.now) to.now e
        disk.old disk.new) }
    ensures step { IsStep D.Disk to.now (is_disk_error result) disk.old disk.new }
    ensures files { F.file_at files.new ≡ F.file_at files.old }
    ensures stamps { F.stamp_at files.new ≡ F.stamp_at files.old }
    ensures count { F.failures files.new ≡ failures_if (is_opened result) (F.failures files.old) }
{
    let report = match read_report(alloc, files, path) {
        Ok(report) => report,
        Err(error) => return Err(error),
    };
    match file_sections(alloc, report.chunks.as_slice()) {
        Ok(sections) => make_left(files, disk, path, to, sections.as_slice()),
        Err(fault) => Err(ConvertError::Refused(fault)),
    }
}

/// Makes a file of these sections of the recording, with the id that they lack, unless it is there.
///
/// # Errors
/// Unopened; Unread, where a read failed; Exists; Unwritten.
fn make_left<F: RecordingFiles, D: Volume>(
    files: &mut F,
    disk: &mut D,
    path: &str,
    to: &str,
    sections: &[Section],
) -> Result<(), ConvertError>
    requires { Of (F.file_at files.old path.now) (λ b. AreLeft b sections.now) }
    ensures ok { OnOk result (Of (F.file_at files.old path.now) (λ b.
        HasLeftFile D.Disk b to.now disk.old disk.new)) }
    ensures err { IfErr result (λ e. Of (F.file_at files.old path.now) (λ b. RefusesKeep b e)) }
    ensures left { IfErr result (λ e. LeavesKeep D.Disk (F.file_at files.old path.now) to.now e
        disk.old disk.new) }
    ensures step { IsStep D.Disk to.now (is_disk_error result) disk.old disk.new }
    ensures files { F.file_at files.new ≡ F.file_at files.old }
    ensures stamps { F.stamp_at files.new ≡ F.stamp_at files.old }
    ensures count { F.failures files.new ≡ failures_if (is_opened result) (F.failures files.old) }
{
    let file = match files.open(path) {
        Ok(file) => file,
        Err(error) => return Err(ConvertError::Unopened(error)),
    };
    let reader = SectionReader::new(file, sections);
    match put_file(reader, disk, to, *b"RIFF") {
        Ok(()) => Ok(()),
        Err(fault) => Err(ConvertError::Refused(fault)),
    }
}
