//! A file is made of a reader's bytes, and gets its id last.
ghost use Rattle.std.specs.Prelude.{IfErr, IfOk, OnErr, OnOk, is_err};
ghost use Rattle.bw_stream.specs.Readers.{Of};
ghost use Rattle.bw_repair.specs.ConvertFaults.{is_disk_stopped};
ghost use Rattle.bw_repair.specs.Makings.{IsFilled, IsMadeOf, IsNamed, LeavesName, StopsFilling, StopsMaking};
ghost use Rattle.bw_repair.specs.DiskSteps.{IsStep};

use crate::conversions::copying::copy_all;
use crate::conversions::fault::fault_at;
use crate::{ConvertFault, ConvertKind};
use bw_disk::{DiskFault, Volume};
use bw_stream::Source;

/// Makes a file of all the bytes of a reader, the first four of which become an id once all others
/// are synced. Returns how many there are.
///
/// # Errors
/// Exists, where something is at the path; Unread, where a read failed; TooLong; Unwritten.
pub(crate) fn make_file<R: Source, D: Volume>(
    reader: &mut R,
    disk: &mut D,
    to: &str,
    id: [u8; 4],
) -> Result<u64, ConvertFault>
    ensures ok { IfOk result (λ n. Of (R.left reader.old) (λ w.
        IsMadeOf D.Disk to.now w id n disk.old disk.new)) }
    ensures err { IfErr result (λ f. Of (R.left reader.old) (λ w.
        StopsMaking D.Disk to.now w id f disk.old disk.new)) }
    ensures step { IsStep D.Disk to.now (is_disk_stopped result) disk.old disk.new }
{
    match disk.create_new(to) {
        Ok(Some(mut file)) => fill(reader, disk, &mut file, id),
        Ok(None) => Err(fault_at(ConvertKind::Exists, 0)),
        Err(_) => Err(fault_at(ConvertKind::Unwritten, 0)),
    }
}

/// Writes all the bytes of a reader into a file that is empty, and then an id.
///
/// # Errors
/// Unread, where a read failed; TooLong; Unwritten.
fn fill<R: Source, D: Volume>(
    reader: &mut R,
    disk: &mut D,
    file: &mut D::File,
    id: [u8; 4],
) -> Result<u64, ConvertFault>
    ensures ok { IfOk result (λ n. Of (R.left reader.old) (λ w.
        IsFilled D.Disk (D.path_of file.old) w id n disk.old disk.new)) }
    ensures err { IfErr result (λ f. Of (R.left reader.old) (λ w.
        StopsFilling D.Disk (D.path_of file.old) w id f.kind disk.old disk.new)) }
    ensures step { IsStep D.Disk (D.path_of file.old) (is_disk_stopped result) disk.old disk.new }
{
    let len = copy_all(reader, disk, file)?;
    match finish(disk, file, id) {
        Ok(()) => Ok(len),
        Err(_) => Err(fault_at(ConvertKind::Unwritten, 0)),
    }
}

/// Writes an id over the first bytes of a file, once the file is synced, and syncs it again.
///
/// # Errors
/// `DiskFault`: a prefix of the id may be written then.
fn finish<D: Volume>(disk: &mut D, file: &mut D::File, id: [u8; 4]) -> Result<(), DiskFault>
    ensures ok { OnOk result (IsNamed D.Disk (D.path_of file.old) id disk.old disk.new) }
    ensures err { OnErr result (LeavesName D.Disk (D.path_of file.old) id disk.old disk.new) }
    ensures step { IsStep D.Disk (D.path_of file.old) (is_err result) disk.old disk.new }
{
    disk.sync(file)?;
    disk.append(file, 0, &id)?;
    disk.sync(file)
}
