//! A file is made of a reader's bytes, unless it is there already.
ghost use Rattle.std.specs.Prelude.{◌≤◌, IfErr, IsSome, IsTrue, OnOk, length};
ghost use Rattle.bw_stream.specs.Readers.{Of};
ghost use Rattle.bw_repair.specs.ConvertFaults.{is_disk_stopped};
ghost use Rattle.bw_repair.specs.DiskSteps.{IsStep};
ghost use Rattle.bw_repair.specs.Puttings.{IsPut, StopsPutting};

use crate::conversions::{fault_at, make_file};
use crate::left_out::comparing::{CompareFault, holds_all};
use crate::{ConvertFault, ConvertKind, Overlay};
use bw_disk::Volume;
use bw_inspect::InspectKind;
use bw_stream::Source;

/// Makes a file of all the bytes of a reader, the first four of which become an id once all others
/// are synced. A file that has exactly these bytes already is synced, as if it had been made.
///
/// # Errors
/// Exists, where something else is at the path; Unread, where a read failed; TooLong; Unwritten.
pub(crate) fn put_file<R: Source + Drop, D: Volume>(
    mut reader: R,
    disk: &mut D,
    to: &str,
    id: [u8; 4],
) -> Result<(), ConvertFault>
    ensures ok { OnOk result (Of (R.left reader) (λ w.
        4 ≤ length w → IsPut D.Disk to.now w id disk.old disk.new)) }
    ensures err { IfErr result (λ f. Of (R.left reader) (λ w. 4 ≤ length w →
        StopsPutting D.Disk to.now w id f disk.old disk.new)) }
    ensures step { IsStep D.Disk to.now (is_disk_stopped result) disk.old disk.new }
{
    match disk.open(to) {
        Ok(None) => match make_file(&mut reader, disk, to, id) {
            Ok(_) => Ok(()),
            Err(fault) => Err(fault),
        },
        Ok(Some(mut file)) => find_file(reader, disk, &mut file, id),
        Err(_) => Err(fault_at(ConvertKind::Unwritten, 0)),
    }
}

/// Syncs a file that has exactly the bytes of a reader, under an id.
///
/// # Errors
/// Exists, where it has others; Unread, where a read failed; Unwritten, where a call of the disk did.
fn find_file<R: Source + Drop, D: Volume>(
    reader: R,
    disk: &mut D,
    file: &mut D::File,
    id: [u8; 4],
) -> Result<(), ConvertFault>
    requires { IsTrue (D.honest disk.old) → IsSome (D.contents disk.old (D.path_of file.old)) }
    ensures ok { OnOk result (Of (R.left reader) (λ w. 4 ≤ length w →
        IsPut D.Disk (D.path_of file.old) w id disk.old disk.new)) }
    ensures err { IfErr result (λ f. Of (R.left reader) (λ w. 4 ≤ length w →
        StopsPutting D.Disk (D.path_of file.old) w id f disk.old disk.new)) }
    ensures step { IsStep D.Disk (D.path_of file.old) (is_disk_stopped result) disk.old disk.new }
{
    let mut named = Overlay::new(reader, 0, &id);
    match holds_all(&mut named, disk, file) {
        Ok(true) => match disk.sync(file) {
            Ok(()) => Ok(()),
            Err(_) => Err(fault_at(ConvertKind::Unwritten, 0)),
        },
        Ok(false) => Err(fault_at(ConvertKind::Exists, 0)),
        Err(CompareFault::Read { place }) => {
            Err(fault_at(ConvertKind::Unread(InspectKind::Read), place))
        }
        Err(CompareFault::Disk) => Err(fault_at(ConvertKind::Unwritten, 0)),
    }
}
