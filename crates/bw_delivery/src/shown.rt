//! What a start is shown of a folder on the disk of the journals.
ghost use Rattle.std.specs.Prelude.{◌≡◌, ℕ, List, IfOk};
ghost use Rattle.bw_disk.specs.MemoryVolumes.{disk_content};
ghost use Rattle.bw_delivery.specs.Machines.{shown_at};

use bw_disk::MemoryDisk;
use std::alloc::{AllocError, Global};

/// The disk of the journals, which shows the files of the takes too, as they are on the other disk.
///
/// # Errors
/// `AllocError` if memory was refused.
pub(crate) fn shown_notes(
    alloc: Global,
    takes: &MemoryDisk,
    notes: &MemoryDisk,
) -> Result<MemoryDisk, AllocError>
    ensures { IfOk result (λ shown. (path : List ℕ) →
        disk_content shown path
        ≡ shown_at (disk_content takes.now) (disk_content notes.now) path) }
{
    let mut shown = MemoryDisk::new(alloc);
    shown.copy_ending(notes, ".journal")?;
    shown.copy_ending(takes, ".wav")?;
    Ok(shown)
}

/// A disk with the same files.
///
/// # Errors
/// `AllocError` if memory was refused.
pub(crate) fn copy_of(alloc: Global, disk: &MemoryDisk) -> Result<MemoryDisk, AllocError>
    ensures { IfOk result (λ copy. (path : List ℕ) →
        disk_content copy path ≡ disk_content disk.now path) }
{
    let mut copy = MemoryDisk::new(alloc);
    copy.copy_ending(disk, "")?;
    Ok(copy)
}
