//! A file is converted.
ghost use Rattle.std.specs.Prelude.{◌≡◌, ◌≤◌, Some, IfErr, IfOk, length};
ghost use Rattle.bw_console.specs.Prints.{failures_if};
ghost use Rattle.bw_model.specs.Bytes.{zeros};
ghost use Rattle.bw_stream.specs.Readers.{Of};
ghost use Rattle.bw_repair.specs.Conversions.{Converts, LeavesError};
ghost use Rattle.bw_repair.specs.ConvertFaults.{RefusesConvert, is_disk_error, is_opened};
ghost use Rattle.bw_repair.specs.Forms.{IsConvertible, unnamed};
ghost use Rattle.bw_repair.specs.DiskSteps.{IsStep};

use crate::conversions::checking::check_file;
use crate::conversions::making::make_file;
use crate::{ConvertError, Overlay, WideForm};
use bw_disk::Volume;
use bw_ports::RecordingFiles;
use bw_stream::Source;
use std::alloc::Global;

/// Makes a file with the bytes of the file at a path under a form's id, which is written once all
/// others are synced. Returns how many there are. The file at the path is opened twice.
///
/// # Errors
/// Why there is none. What is at `to` then was there before, or has no id or a part of it, or is whole
/// but perhaps not synced.
///
/// # Not specified
/// - When memory is refused, and when the system fails.
/// - Of a file whose bytes aren't reported: that they are the same each time.
/// - Whether a reader, which is dropped, counted a failed read.
pub fn convert<F: RecordingFiles, D: Volume>(
    alloc: Global,
    files: &mut F,
    disk: &mut D,
    path: &str,
    to: &str,
    form: WideForm,
) -> Result<u64, ConvertError>
    // The file is of the other form, and what is made is new: its bytes with the first four changed.
    ensures ok { IfOk result (λ n. Of (F.file_at files.old path.now) (λ b.
        Converts D.Disk b to.now form n disk.old disk.new)) }
    ensures err { IfErr result (λ e. Of (F.file_at files.old path.now) (λ b. RefusesConvert b form e)) }
    ensures left { IfErr result (λ e. LeavesError D.Disk (F.file_at files.old path.now) to.now form e
        disk.old disk.new) }
    // No other file is changed, and each failure of the disk is counted.
    ensures step { IsStep D.Disk to.now (is_disk_error result) disk.old disk.new }
    ensures count { F.failures files.new ≡ failures_if (is_opened result) (F.failures files.old) }
{
    check_file(alloc, files, path, form)?;
    copy_file(files, disk, path, to, form)
}

/// The same of a file that is of the other form.
///
/// # Errors
/// As for `convert`.
fn copy_file<F: RecordingFiles, D: Volume>(
    files: &mut F,
    disk: &mut D,
    path: &str,
    to: &str,
    form: WideForm,
) -> Result<u64, ConvertError>
    requires { Of (F.file_at files.old path.now) (λ b. IsConvertible form b) }
    ensures ok { IfOk result (λ n. Of (F.file_at files.old path.now) (λ b.
        Converts D.Disk b to.now form n disk.old disk.new)) }
    ensures err { IfErr result (λ e. Of (F.file_at files.old path.now) (λ b. RefusesConvert b form e)) }
    ensures left { IfErr result (λ e. LeavesError D.Disk (F.file_at files.old path.now) to.now form e
        disk.old disk.new) }
    ensures step { IsStep D.Disk to.now (is_disk_error result) disk.old disk.new }
    ensures count { F.failures files.new ≡ failures_if (is_opened result) (F.failures files.old) }
{
    let file = match files.open(path) {
        Ok(file) => file,
        Err(error) => return Err(ConvertError::Unopened(error)),
    };
    let no_id = [0; 4];
    let mut reader = without_id(file, &no_id);
    match make_file(&mut reader, disk, to, form.id()) {
        Ok(len) => Ok(len),
        Err(fault) => Err(ConvertError::Refused(fault)),
    }
}

/// A file with these bytes, which are zero, in the place of its id. The reader is at its start.
fn without_id<'a, R: Source>(reader: R, no_id: &'a [u8]) -> Overlay<'a, R>
    requires { no_id.now ≡ zeros 4 }
    ensures { Of (R.left reader) (λ b. 4 ≤ length b →
        ⟦<Overlay<'a, R> as Source>⟧.left result ≡ Some (unnamed b)) }
{
    Overlay::new(reader, 0, no_id)
}
