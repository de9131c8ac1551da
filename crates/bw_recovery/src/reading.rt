//! Reading what a start has to know of a take's file: no sample.
ghost use Rattle.std.specs.Prelude.{◌≡◌, ℕ, List, Some, IsTrue, IfOk, take, slice_get, option_map};
ghost use Rattle.bw_store.specs.Stores.{Counts};
ghost use Rattle.bw_disk.specs.DiskSteps.{StaysWhole};
ghost use Rattle.bw_disk.specs.ReadFaults.{is_disk_fault};
ghost use Rattle.bw_recovery.specs.FilesRead.{SeesRead, IsReadOf};

use crate::adoption::{FileFacts, data_end, data_place};
use bw_disk::{ReadFault, Volume, read_prefix};
use bw_take::TakeState;
use std::alloc::Global;

/// What was read of a take's file.
#[derive(Drop)]
pub struct FileRead {
    /// Its length in bytes.
    pub len: u64,
    /// Its bytes before the place of the samples, as many as are there.
    pub front: Vec<u8>,
    /// The byte after its samples, if one is there.
    pub after: Option<u8>,
}

impl FileRead {
    /// The same, borrowed.
    pub fn facts(&self) -> FileFacts<'_>
        ensures len { result.len ≡ self.now.len }
        ensures front { result.front.now ≡ self.now.front.items }
        ensures after { result.after ≡ self.now.after }
    {
        FileFacts {
            len: self.len,
            front: self.front.as_slice(),
            after: self.after,
        }
    }
}

/// Reads what has to be known of the file of a take; None if nothing is at the path.
///
/// # Errors
/// `Disk` if a call of the disk failed; `Memory` if memory was refused.
///
/// # Not specified
/// When memory is refused, and how many calls of the disk it makes.
pub fn read_take<D: Volume>(
    disk: &mut D,
    alloc: Global,
    path: &str,
    state: &TakeState,
) -> Result<Option<FileRead>, ReadFault>
    ensures read { IsTrue (D.honest disk.old) →
        IfOk result (λ read. SeesRead state.now.parts (D.contents disk.old path.now) read) }
    ensures disk { StaysWhole D.Disk disk.old disk.new }
    ensures failures { Counts (D.failures disk.old) (D.failures disk.new) (is_disk_fault result) }
{
    let Ok(opened) = disk.open(path) else {
        return Err(ReadFault::Disk);
    };
    let Some(mut file) = opened else {
        return Ok(None);
    };
    let read = read_opened(disk, alloc, &mut file, state)?;
    Ok(Some(read))
}

/// Reads the first bytes of the file at a path, as many as are there; None if nothing is there.
///
/// # Errors
/// `Disk` if a call of the disk failed; `Memory` if memory was refused.
pub(crate) fn read_start<D: Volume>(
    disk: &mut D,
    alloc: Global,
    path: &str,
    count: usize,
) -> Result<Option<Vec<u8>>, ReadFault>
    ensures read { IsTrue (D.honest disk.old) → IfOk result (λ front.
        option_map (λ v. v.items) front ≡ option_map (take count) (D.contents disk.old path.now)) }
    ensures disk { StaysWhole D.Disk disk.old disk.new }
    ensures failures { Counts (D.failures disk.old) (D.failures disk.new) (is_disk_fault result) }
{
    let Ok(opened) = disk.open(path) else {
        return Err(ReadFault::Disk);
    };
    let Some(mut file) = opened else {
        return Ok(None);
    };
    let front = read_front(disk, alloc, &mut file, count)?;
    Ok(Some(front))
}

/// The same of an open file.
fn read_opened<D: Volume>(
    disk: &mut D,
    alloc: Global,
    file: &mut D::File,
    state: &TakeState,
) -> Result<FileRead, ReadFault>
    ensures read { IsTrue (D.honest disk.old) → IfOk result (λ read. (found : List ℕ) →
        D.contents disk.old (D.path_of file.old) ≡ Some found → IsReadOf state.now.parts found read) }
    ensures disk { StaysWhole D.Disk disk.old disk.new }
    ensures failures { Counts (D.failures disk.old) (D.failures disk.new) (is_disk_fault result) }
{
    let Ok(len) = disk.len(file) else {
        return Err(ReadFault::Disk);
    };
    let front = read_front(disk, alloc, file, data_place(state) as usize)?;
    let after = read_byte(disk, file, data_end(state))?;
    Ok(FileRead { len, front, after })
}

/// Reads the first bytes of a file, as many as are there.
fn read_front<D: Volume>(
    disk: &mut D,
    alloc: Global,
    file: &mut D::File,
    count: usize,
) -> Result<Vec<u8>, ReadFault>
    ensures path { D.path_of file.new ≡ D.path_of file.old }
    ensures read { IsTrue (D.honest disk.old) → IfOk result (λ front. (found : List ℕ) →
        D.contents disk.old (D.path_of file.old) ≡ Some found → front.items ≡ take count found) }
    ensures disk { StaysWhole D.Disk disk.old disk.new }
    ensures failures { Counts (D.failures disk.old) (D.failures disk.new) (is_disk_fault result) }
{
    let mut front = Vec::new(alloc);
    let Ok(()) = front.resize(count, 0u8) else {
        return Err(ReadFault::Memory);
    };
    let Ok(reached) = read_prefix(disk, file, &mut front) else {
        return Err(ReadFault::Disk);
    };
    front.truncate(reached);
    Ok(front)
}

/// Reads the byte at a place of a file, if one is there.
fn read_byte<D: Volume>(
    disk: &mut D,
    file: &mut D::File,
    place: u64,
) -> Result<Option<u8>, ReadFault>
    ensures path { D.path_of file.new ≡ D.path_of file.old }
    ensures read { IsTrue (D.honest disk.old) → IfOk result (λ byte. (found : List ℕ) →
        D.contents disk.old (D.path_of file.old) ≡ Some found → byte ≡ slice_get found place) }
    ensures disk { StaysWhole D.Disk disk.old disk.new }
    ensures failures { Counts (D.failures disk.old) (D.failures disk.new) (is_disk_fault result) }
{
    let mut room = [0u8; 1];
    match disk.read_at(file, place, &mut room) {
        Err(_) => Err(ReadFault::Disk),
        Ok(0) => Ok(None),
        Ok(_) => Ok(Some(room[0])),
    }
}
