//! Reading files from their start.
ghost use Rattle.std.specs.Prelude.{◌≡◌, ◌≤◌, ◌<◌, IsTrue, IsSome, IfOk, IfErr, OnOk, length, is_err, option_map};
ghost use Rattle.bw_store.specs.Stores.{Counts};
ghost use Rattle.bw_disk.specs.DiskSteps.{StaysWhole};
ghost use Rattle.bw_disk.specs.ReadFaults.{is_disk_fault};
ghost use Rattle.bw_disk.specs.Volumes.{ReadsPrefix};

use crate::disk::DiskFault;
use crate::volume::Volume;
use std::alloc::Global;
use thiserror::Error;

/// Why a file couldn't be read whole, or a folder listed.
#[derive(Clone, Copy, Debug, Drop, Error, PartialEq, Eq)]
pub enum ReadFault {
    /// A call of the disk failed.
    #[error("the disk failed")]
    Disk,
    /// Memory was refused.
    #[error("out of memory")]
    Memory,
}

/// Reads a file from its start on, up to its end or to that of the room, and returns how many bytes
/// were read.
///
/// # Errors
/// `DiskFault` if a call of the disk failed: the room may hold any bytes then.
///
/// # Not specified
/// How many calls of the disk it makes.
pub fn read_prefix<D: Volume>(
    disk: &mut D,
    file: &mut D::File,
    room: &mut [u8],
) -> Result<usize, DiskFault>
    ensures failures { Counts (D.failures disk.old) (D.failures disk.new) (is_err result) }
    ensures path { D.path_of file.new ≡ D.path_of file.old }
    ensures fits { IfOk result (λ count. count ≤ length room.old) }
    ensures read { IsTrue (D.honest disk.old) → IfOk result (λ count. ReadsPrefix
        (D.contents disk.old (D.path_of file.old)) (length room.old) count room.new) }
    ensures stands { IsTrue (D.honest disk.old) → 0 < length room.old → OnOk result
        (IsSome (D.contents disk.old (D.path_of file.old))) }
    // No file changes, honest disk or not.
    ensures rest { StaysWhole D.Disk disk.old disk.new }
{
    let mut count = 0;
    while count < room.len() {
        let more = disk.read_at(file, count as u64, &mut room[count..])?;
        if more == 0 {
            return Ok(count);
        }
        count += more;
    }
    Ok(count)
}

/// The content of the file at a path; None if nothing is there.
///
/// # Errors
/// `Disk` if a call of the disk failed; `Memory` if memory was refused.
///
/// # Not specified
/// - How many calls of the disk it makes.
/// - When memory is refused.
pub fn read_file<D: Volume>(
    disk: &mut D,
    alloc: Global,
    path: &str,
) -> Result<Option<Vec<u8>>, ReadFault>
    ensures failures { Counts (D.failures disk.old) (D.failures disk.new) (is_disk_fault result) }
    ensures content { IsTrue (D.honest disk.old) → IfOk result (λ found.
        option_map (λ v. v.items) found ≡ D.contents disk.old path.now) }
    // No file changes, honest disk or not.
    ensures rest { StaysWhole D.Disk disk.old disk.new }
{
    let Some(mut file) = disk.open(path).map_err(|_| ReadFault::Disk)? else {
        return Ok(None);
    };
    let len = disk.len(&file).map_err(|_| ReadFault::Disk)?;
    let mut content = zeros(alloc, len)?;
    let count = read_prefix(disk, &mut file, &mut content).map_err(|_| ReadFault::Disk)?;
    content.truncate(count);
    Ok(Some(content))
}

/// This many zeros.
fn zeros(alloc: Global, len: u64) -> Result<Vec<u8>, ReadFault>
    ensures ok { IfOk result (λ v. length v.items ≡ len) }
    ensures err { IfErr result (λ fault. fault ≡ ReadFault.Memory) }
{
    let Ok(len) = usize::try_from(len) else {
        return Err(ReadFault::Memory);
    };
    let mut zeros = Vec::new(alloc);
    match zeros.resize(len, 0) {
        Ok(()) => Ok(zeros),
        Err(_) => Err(ReadFault::Memory),
    }
}
