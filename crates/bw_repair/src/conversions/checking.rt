//! Whether a file is to be converted.
ghost use Rattle.std.specs.Prelude.{◌≡◌, false, IfErr, OnOk};
ghost use Rattle.bw_console.specs.Prints.{failures_if};
ghost use Rattle.bw_stream.specs.Readers.{Of};
ghost use Rattle.bw_repair.specs.Checks.{RefusesBefore, RefusesId};
ghost use Rattle.bw_repair.specs.ConvertFaults.{is_disk_cause, is_opened};
ghost use Rattle.bw_repair.specs.Forms.{IsConvertible, id_of, other_of};

use crate::conversions::fault::refused_at;
use crate::{ConvertError, ConvertKind, WideForm};
use bw_inspect::inspect;
use bw_layout::ChunkId;
use bw_ports::RecordingFiles;
use std::alloc::Global;

/// Checks that the file at a path is read, and is of the other form. It is opened once.
///
/// # Errors
/// Why it isn't converted: Unopened; Unread; Riff; SameForm.
pub(crate) fn check_file<F: RecordingFiles>(
    alloc: Global,
    files: &mut F,
    path: &str,
    form: WideForm,
) -> Result<(), ConvertError>
    ensures ok { OnOk result (Of (F.file_at files.old path.now) (λ b. IsConvertible form b)) }
    ensures err { IfErr result (λ e. Of (F.file_at files.old path.now) (λ b. RefusesBefore b form e)) }
    ensures disk { IfErr result (λ e. is_disk_cause e ≡ false) }
    ensures files { F.file_at files.new ≡ F.file_at files.old }
    ensures count { F.failures files.new ≡ failures_if (is_opened result) (F.failures files.old) }
{
    let mut file = match files.open(path) {
        Ok(file) => file,
        Err(error) => return Err(ConvertError::Unopened(error)),
    };
    match inspect(alloc, &mut file) {
        Ok(report) => check_id(report.form, form),
        Err(fault) => Err(refused_at(ConvertKind::Unread(fault.kind), fault.offset)),
    }
}

/// Checks that this is the id of the other form.
///
/// # Errors
/// SameForm; Riff for another id.
fn check_id(id: ChunkId, form: WideForm) -> Result<(), ConvertError>
    ensures ok { OnOk result (id ≡ id_of (other_of form)) }
    ensures err { IfErr result (λ e. RefusesId id form e) }
    ensures disk { IfErr result (λ e. is_disk_cause e ≡ false) }
{
    if id == ChunkId(form.other().id()) {
        return Ok(());
    }
    if id == ChunkId(form.id()) {
        return Err(refused_at(ConvertKind::SameForm, 0));
    }
    Err(refused_at(ConvertKind::Riff, 0))
}
