//! A file that is read before anything is made of it.
ghost use Rattle.std.specs.Prelude.{◌≡◌, false, IfErr, IfOk};
ghost use Rattle.bw_console.specs.Prints.{failures_if};
ghost use Rattle.bw_stream.specs.Readers.{Of};
ghost use Rattle.bw_repair.specs.ConvertFaults.{is_disk_cause, is_opened};
ghost use Rattle.bw_repair.specs.ReadReports.{HasChunkReport, IsNotRead};

use crate::conversions::refused_at;
use crate::{ConvertError, ConvertKind};
use bw_inspect::{Report, inspect};
use bw_ports::RecordingFiles;
use std::alloc::Global;

/// The report of the file at a path, which is opened once.
///
/// # Errors
/// Unopened; Unread.
pub(crate) fn read_report<F: RecordingFiles>(
    alloc: Global,
    files: &mut F,
    path: &str,
) -> Result<Report, ConvertError>
    ensures ok { IfOk result (λ r. Of (F.file_at files.old path.now) (λ b. HasChunkReport b r)) }
    ensures err { IfErr result (λ e. Of (F.file_at files.old path.now) (λ b. IsNotRead b e)) }
    ensures disk { IfErr result (λ e. is_disk_cause e ≡ false) }
    ensures files { F.file_at files.new ≡ F.file_at files.old }
    ensures stamps { F.stamp_at files.new ≡ F.stamp_at files.old }
    ensures count { F.failures files.new ≡ failures_if (is_opened result) (F.failures files.old) }
{
    let mut file = match files.open(path) {
        Ok(file) => file,
        Err(error) => return Err(ConvertError::Unopened(error)),
    };
    match inspect(alloc, &mut file) {
        Ok(report) => Ok(report),
        Err(fault) => Err(refused_at(ConvertKind::Unread(fault.kind), fault.offset)),
    }
}
