//! The first bytes of a journal's file.
ghost use Rattle.std.specs.Prelude.{◌≡◌, ◌≤◌, IsTrue, IfOk, OnOk, OnErr, is_some, is_err};
ghost use Rattle.bw_store.specs.Stores.{Written};
ghost use Rattle.bw_disk.specs.Disks.{IsOneCall};
ghost use Rattle.bw_disk.specs.DiskSteps.{ChangesAt, StaysWhole};
ghost use Rattle.bw_disk.specs.Volumes.{WrittenInPart};
ghost use Rattle.bw_journal.specs.Notes.{Starts, StartsInPart};
ghost use Rattle.bw_folder.specs.Journals.{IsOpenAt};
ghost use Rattle.bw_folder.specs.PendingNotes.{length_of};

use bw_disk::{Volume, read_prefix};
use bw_journal::JournalHeader;
use bw_store::StoreFault;

/// The file at a path, which is made if nothing is there.
///
/// # Errors
/// `StoreFault` if the disk failed: nothing changed.
pub(crate) fn open_or_make<D: Volume>(disk: &mut D, path: &str) -> Result<D::File, StoreFault>
    ensures path { IsTrue (D.honest disk.old) → IfOk result (λ file. D.path_of file ≡ path.now) }
    ensures found { IsTrue (D.honest disk.old) → OnOk result
        (IsOpenAt (D.contents disk.old path.now) (D.contents disk.new path.now)) }
    ensures failed { IsTrue (D.honest disk.old) → OnErr result
        (D.contents disk.new path.now ≡ D.contents disk.old path.now) }
    ensures rest { ChangesAt D.Disk path.now disk.old disk.new }
{
    if let Some(file) = disk.open(path).map_err(|_| StoreFault)? {
        return Ok(file);
    }
    match disk.create_new(path).map_err(|_| StoreFault)? {
        Some(file) => Ok(file),
        None => Err(StoreFault),
    }
}

/// Writes a header at the start of a file, unless it is there whole; other bytes are never written
/// over.
///
/// # Errors
/// `StoreFault` if the disk failed, or other bytes are there.
pub(crate) fn put_header<D: Volume>(
    disk: &mut D,
    file: &mut D::File,
    header: &[u8; JournalHeader::LEN],
) -> Result<(), StoreFault>
    ensures path { D.path_of file.new ≡ D.path_of file.old }
    ensures begun { IsTrue (D.honest disk.old) → OnOk result (Starts header.now
        (D.contents disk.old (D.path_of file.old)) (D.contents disk.new (D.path_of file.old))) }
    ensures failed { IsTrue (D.honest disk.old) → OnErr result (StartsInPart header.now
        (D.contents disk.old (D.path_of file.old)) (D.contents disk.new (D.path_of file.old))) }
    ensures grows { IsTrue (D.honest disk.old) → length_of (D.contents disk.old (D.path_of file.old))
        ≤ length_of (D.contents disk.new (D.path_of file.old)) }
    ensures rest { ChangesAt D.Disk (D.path_of file.old) disk.old disk.new }
{
    let mut room = [0u8; JournalHeader::LEN];
    let count = read_prefix(disk, file, &mut room).map_err(|_| StoreFault)?;
    let found = &room[..count];
    if found != &header[..count] {
        return Err(StoreFault);
    }
    if count == header.len() {
        return Ok(());
    }
    append(disk, file, 0, header)
}

/// Whether something is at a path.
///
/// # Errors
/// `StoreFault` if the disk failed.
pub(crate) fn exists<D: Volume>(disk: &mut D, path: &str) -> Result<bool, StoreFault>
    ensures value { IsTrue (D.honest disk.old) → IfOk result (λ found.
        found ≡ is_some (D.contents disk.old path.now)) }
    ensures rest { StaysWhole D.Disk disk.old disk.new }
{
    let found = disk.open(path).map_err(|_| StoreFault)?;
    Ok(found.is_some())
}

/// Writes bytes into a journal's file from an offset on, by one call of the disk.
///
/// # Errors
/// `StoreFault` if the disk failed: a prefix of the bytes may be written.
pub(crate) fn append<D: Volume>(
    disk: &mut D,
    file: &mut D::File,
    offset: u64,
    bytes: &[u8],
) -> Result<(), StoreFault>
    ensures call { IsOneCall D.calls D.failures disk.old disk.new (is_err result) }
    ensures path { D.path_of file.new ≡ D.path_of file.old }
    ensures written { IsTrue (D.honest disk.old) → OnOk result (Written
        (D.contents disk.old (D.path_of file.old)) offset bytes.now
        (D.contents disk.new (D.path_of file.old))) }
    ensures failed { IsTrue (D.honest disk.old) → OnErr result (WrittenInPart
        (D.contents disk.old (D.path_of file.old)) offset bytes.now
        (D.contents disk.new (D.path_of file.old))) }
    ensures grows { IsTrue (D.honest disk.old) → length_of (D.contents disk.old (D.path_of file.old))
        ≤ length_of (D.contents disk.new (D.path_of file.old)) }
    ensures rest { ChangesAt D.Disk (D.path_of file.old) disk.old disk.new }
{
    disk.append(file, offset, bytes).map_err(|_| StoreFault)
}
