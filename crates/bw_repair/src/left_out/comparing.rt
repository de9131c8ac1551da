//! Whether a file has exactly the bytes of a reader.
ghost use Rattle.std.specs.Prelude.{◌≡◌, ◌↔◌, ◌+◌, ◌^◌, ◌<◌, ◌≤◌, IfOk, IsTrue, true, drop, is_err, length};
ghost use Rattle.std.specs.Prelude.{option_map};
ghost use Rattle.bw_store.specs.Stores.{Counts};
ghost use Rattle.bw_stream.specs.Readers.{Of};
ghost use Rattle.bw_disk.specs.DiskSteps.{StaysWhole};
ghost use Rattle.bw_disk.specs.Volumes.{ReadsPrefix};
ghost use Rattle.bw_repair.specs.Comparisons.{Compares, HasPiece, is_disk_compare};

use bw_disk::{DiskFault, Volume};
use bw_stream::Source;

/// More bytes than this aren't compared, like the forms that are read.
const MOST: u64 = 1 << 62;

/// How many bytes are compared at once.
const PIECE: usize = 65_536;

/// Why a file and a reader can't be compared.
#[derive(Clone, Copy, Debug, PartialEq, Eq)]
pub(crate) enum CompareFault {
    /// The reader failed at this place.
    Read { place: u64 },
    /// A call of the disk failed.
    Disk,
}

/// Whether an open file has all the bytes of a reader, and no others.
///
/// # Errors
/// Why they can't be compared. No file changes.
pub(crate) fn holds_all<R: Source, D: Volume>(
    reader: &mut R,
    disk: &mut D,
    file: &mut D::File,
) -> Result<bool, CompareFault>
    ensures ok { IsTrue (D.honest disk.old) → IfOk result (λ holds. Of (R.left reader.old) (λ w.
        Compares (D.contents disk.old (D.path_of file.old)) w holds)) }
    ensures failures { Counts (D.failures disk.old) (D.failures disk.new) (is_disk_compare result) }
    ensures path { D.path_of file.new ≡ D.path_of file.old }
    ensures rest { StaysWhole D.Disk disk.old disk.new }
{
    let mut piece = [0; PIECE];
    let mut place = 0;
    while place <= MOST {
        let Ok(count) = reader.read(&mut piece) else {
            return Err(CompareFault::Read { place });
        };
        if count == 0 {
            return ends_at(disk, file, place);
        }
        if !has_piece(disk, file, place, &piece[..count])? {
            return Ok(false);
        }
        place += count as u64;
    }
    // No file has so many bytes.
    Err(CompareFault::Read { place })
}

/// Whether a file is so long.
///
/// # Errors
/// `Disk`.
fn ends_at<D: Volume>(disk: &mut D, file: &D::File, place: u64) -> Result<bool, CompareFault>
    ensures ok { IsTrue (D.honest disk.old) → IfOk result (λ ends.
        option_map length (D.contents disk.old (D.path_of file.now)) ≡ Some place ↔ (ends ≡ true)) }
    ensures failures { Counts (D.failures disk.old) (D.failures disk.new) (is_disk_compare result) }
    ensures rest { StaysWhole D.Disk disk.old disk.new }
{
    match disk.len(file) {
        Ok(len) => Ok(len == place),
        Err(_) => Err(CompareFault::Disk),
    }
}

/// Whether a file has these bytes at a place.
///
/// # Errors
/// `Disk`.
fn has_piece<D: Volume>(
    disk: &mut D,
    file: &mut D::File,
    place: u64,
    piece: &[u8],
) -> Result<bool, CompareFault>
    requires short { length piece.now ≤ 65536 }
    requires near { place ≤ 2 ^ 62 }
    ensures ok { IsTrue (D.honest disk.old) → IfOk result (λ has.
        HasPiece (D.contents disk.old (D.path_of file.old)) place piece.now has) }
    ensures failures { Counts (D.failures disk.old) (D.failures disk.new) (is_disk_compare result) }
    ensures path { D.path_of file.new ≡ D.path_of file.old }
    ensures rest { StaysWhole D.Disk disk.old disk.new }
{
    let mut room = [0; PIECE];
    let there = &mut room[..piece.len()];
    match read_range(disk, file, place, there) {
        Ok(count) => Ok(there[..count] == piece[..]),
        Err(_) => Err(CompareFault::Disk),
    }
}

/// Reads a file from a place on, up to its end or to that of the room, and returns how many bytes
/// were read.
///
/// # Errors
/// `DiskFault` if a call of the disk failed: the room may hold any bytes then.
fn read_range<D: Volume>(
    disk: &mut D,
    file: &mut D::File,
    place: u64,
    room: &mut [u8],
) -> Result<usize, DiskFault>
    requires near { place + length room.old < 2 ^ 64 }
    ensures failures { Counts (D.failures disk.old) (D.failures disk.new) (is_err result) }
    ensures path { D.path_of file.new ≡ D.path_of file.old }
    ensures fits { IfOk result (λ count. count ≤ length room.old) }
    ensures read { IsTrue (D.honest disk.old) → IfOk result (λ count. ReadsPrefix
        (option_map (drop place) (D.contents disk.old (D.path_of file.old)))
        (length room.old) count room.new) }
    ensures rest { StaysWhole D.Disk disk.old disk.new }
{
    let mut count = 0;
    while count < room.len() {
        let more = disk.read_at(file, place + count as u64, &mut room[count..])?;
        if more == 0 {
            return Ok(count);
        }
        count += more;
    }
    Ok(count)
}
