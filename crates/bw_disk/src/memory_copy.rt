//! Files of one disk in memory that are copied to another.
ghost use Rattle.std.specs.Prelude.{◌≡◌, ◌==◌, ℕ, List, OnOk, string_bytes};
ghost use Rattle.std.specs.List.{ends_with};
ghost use Rattle.bw_disk.specs.MemoryDisks.{content_at, copied_at, added_at};

use crate::disk::Disk;
use crate::memory_disk::{MemoryDisk, StoredFile, find};
use std::alloc::{AllocError, Global};

impl MemoryDisk {
    /// Copies the files of another disk whose paths have this ending, unless something is at their
    /// paths. It is no call of either disk.
    ///
    /// # Errors
    /// `AllocError` if memory was refused: some of them may have been copied.
    ///
    /// # Not specified
    /// When memory is refused.
    pub fn copy_ending(&mut self, other: &MemoryDisk, ending: &str) -> Result<(), AllocError>
        ensures { OnOk result ((path : List ℕ) → ⟦<MemoryDisk as Disk>⟧.contents self.new path
            ≡ copied_at ending.now (⟦<MemoryDisk as Disk>⟧.contents self.old)
            (⟦<MemoryDisk as Disk>⟧.contents other.now) path) }
    {
        let mut place = 0;
        while place < other.files.len() {
            add_copy(&mut self.files, self.alloc, &other.files[place], ending)?;
            place += 1;
        }
        Ok(())
    }
}

/// Adds a copy of a file after the others, if its path has this ending and nothing is there.
fn add_copy(
    files: &mut Vec<StoredFile>,
    alloc: Global,
    file: &StoredFile,
    ending: &str,
) -> Result<(), AllocError>
    ensures { OnOk result ((path : List ℕ) → content_at files.new.items path
        ≡ added_at ending.now (content_at files.old.items) (string_bytes file.now.path)
        file.now.content.items path) }
{
    let path = file.path.as_str();
    if !has_ending(path, ending) {
        return Ok(());
    }
    if find(files, path).is_some() {
        return Ok(());
    }
    let path_copy = String::from_str(alloc, path)?;
    let content = file.content.as_slice().to_vec(alloc)?;
    files.push(StoredFile {
        path: path_copy,
        content,
        synced: None,
    })?;
    Ok(())
}

/// Whether a path has this ending.
fn has_ending(path: &str, ending: &str) -> bool
    ensures { result ≡ ends_with ◌==◌ path.now ending.now }
{
    path.as_bytes().ends_with(ending.as_bytes())
}
