//! Bytes are copied from a reader into a file, in pieces.
ghost use Rattle.std.specs.Prelude.{◌≡◌, ◌<◌, ◌≤◌, IfOk, IfErr, length};
ghost use Rattle.bw_stream.specs.Readers.{Of};
ghost use Rattle.bw_inspect.specs.Places.{AtPlace};
ghost use Rattle.bw_repair.specs.Copies.{IsPieceCopied, IsCopiedWhole, StopsCopy};
ghost use Rattle.bw_repair.specs.ConvertFaults.{is_disk_stopped};
ghost use Rattle.bw_repair.specs.DiskSteps.{IsStep};

use crate::conversions::fault::fault_at;
use crate::{ConvertFault, ConvertKind};
use bw_disk::Volume;
use bw_inspect::InspectKind;
use bw_stream::Source;

/// More bytes than this aren't copied, like the forms that are read.
const MOST: u64 = 1 << 62;

/// Copies all bytes of a reader into a file that is empty. Returns how many there are.
///
/// # Errors
/// Unread, where a read failed; TooLong; Unwritten. The file has a prefix of the bytes then.
pub(crate) fn copy_all<R: Source, D: Volume>(
    reader: &mut R,
    disk: &mut D,
    file: &mut D::File,
) -> Result<u64, ConvertFault>
    ensures ok { IfOk result (λ n. Of (R.left reader.old) (λ w.
        IsCopiedWhole D.Disk (D.path_of file.old) w n disk.old disk.new)) }
    ensures err { IfErr result (λ f. Of (R.left reader.old) (λ w.
        StopsCopy D.Disk (D.path_of file.old) w 0 f.kind disk.old disk.new)) }
    ensures step { IsStep D.Disk (D.path_of file.old) (is_disk_stopped result) disk.old disk.new }
    ensures path { D.path_of file.new ≡ D.path_of file.old }
{
    let mut piece = [0; 65_536];
    let mut place = 0;
    while place <= MOST {
        match copy_piece(reader, disk, file, &mut piece, place) {
            Ok(0) => return Ok(place),
            Ok(count) => place += count as u64,
            Err(fault) => return Err(fault),
        }
    }
    Err(fault_at(ConvertKind::TooLong, place))
}

/// Copies the next bytes of a reader, as many as one read gives, to this place of a file. Returns how
/// many there are, 0 only at the end.
///
/// # Errors
/// Unread, where the read failed; Unwritten.
fn copy_piece<R: Source, D: Volume>(
    reader: &mut R,
    disk: &mut D,
    file: &mut D::File,
    piece: &mut [u8],
    place: u64,
) -> Result<usize, ConvertFault>
    requires room { 0 < length piece.old }
    ensures ok { IfOk result (λ n. AtPlace (R.left reader.old) place (λ w. place ≤ length w →
        IsPieceCopied D.Disk (D.path_of file.old) w place n disk.old disk.new (R.left reader.new))) }
    ensures err { IfErr result (λ f. AtPlace (R.left reader.old) place (λ w. place ≤ length w →
        StopsCopy D.Disk (D.path_of file.old) w place f.kind disk.old disk.new)) }
    ensures step { IsStep D.Disk (D.path_of file.old) (is_disk_stopped result) disk.old disk.new }
    ensures path { D.path_of file.new ≡ D.path_of file.old }
    ensures within { IfOk result (λ n. n ≤ length piece.old) }
    ensures room { length piece.new ≡ length piece.old }
{
    let Ok(count) = reader.read(piece) else {
        return Err(fault_at(ConvertKind::Unread(InspectKind::Read), place));
    };
    match disk.append(file, place, &piece[..count]) {
        Ok(()) => Ok(count),
        Err(_) => Err(fault_at(ConvertKind::Unwritten, place)),
    }
}
