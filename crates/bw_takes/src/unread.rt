//! Which file of a take can't be read.
ghost use Rattle.std.specs.Prelude.{◌≡◌, ◌≤◌, IfErr};
ghost use Rattle.bw_disk.specs.DiskSteps.{StaysWhole};
ghost use Rattle.bw_disk.specs.declared.reading.ReadFault.TheVariants.{Memory};
ghost use Rattle.bw_takes.specs.UnreadEntries.{entry_ending};

use bw_disk::{ReadFault, Volume, read_file};
use bw_model::Name;
use bw_recovery::path_in;
use std::alloc::Global;

/// A file of a take in a folder.
#[derive(Clone, Copy, Debug, PartialEq, Eq)]
pub enum TakeEntry {
    /// Its samples.
    Wave,
    /// Its journal.
    Journal,
}

/// How the name of a take's file ends.
pub(crate) fn ending(entry: TakeEntry) -> &'static str
    ensures { result.now ≡ entry_ending entry }
{
    match entry {
        TakeEntry::Wave => ".wav",
        TakeEntry::Journal => ".journal",
    }
}

/// Which file of a take that can't be looked at can't be read: its journal, or else
/// its samples. Nothing is changed.
///
/// # Errors
/// `Memory` if memory was refused.
///
/// # Not specified
/// Which one it is, and when memory is refused.
pub(crate) fn find_unread<D: Volume>(
    alloc: Global,
    disk: &mut D,
    folder: &str,
    name: &Name,
) -> Result<TakeEntry, ReadFault>
    ensures grows { D.failures disk.old ≤ D.failures disk.new }
    ensures memory { IfErr result (λ fault. fault ≡ Memory) }
    ensures disk { StaysWhole D.Disk disk.old disk.new }
{
    let notes = path_in(alloc, folder, name, ".journal")?;
    match read_file(disk, alloc, notes.as_str()) {
        Err(ReadFault::Disk) => Ok(TakeEntry::Journal),
        Err(ReadFault::Memory) => Err(ReadFault::Memory),
        Ok(_) => Ok(TakeEntry::Wave),
    }
}
