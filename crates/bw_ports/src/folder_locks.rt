//! Locks of servers' folders.
ghost use Rattle.std.specs.Prelude.{◌≡◌, ℕ, List, Result};
ghost use Rattle.bw_ports.specs.declared.folder_locks.LockRefusal.{LockRefusal};
ghost use Rattle.bw_stream.specs.Moves.{failures_after};

use std::io;
use thiserror::Error;

/// Why a folder isn't locked.
///
/// It has no number, and no clause describes its text.
#[derive(Debug, Drop, Error)]
pub enum LockRefusal {
    /// Another process has the lock: a server with journals, or a command that changes its folder.
    #[error("another server runs here")]
    Running,
    /// The file of the lock can't be opened, made or locked.
    #[error("the folder can't be locked")]
    Unusable(io::Error),
    /// Memory was refused.
    #[error("out of memory")]
    Memory,
}

/// Takes the locks of servers' folders, and counts failures.
pub trait FolderLocks {
    /// The lock of a folder, which is free again once this is dropped, and once the process ends.
    type Lock: Drop;

    /// How many calls failed; the count stays at 2^64 - 1.
    ghost lock_failures: { Self → ℕ };

    /// What a call of `lock` for this folder may return, and the state after it.
    ghost locks: { Self → List ℕ → Result Self.Lock LockRefusal → Self → Type 0 };

    /// Takes the lock of a folder, the one that a server with journals holds. It doesn't wait. The
    /// lock's own file is made in the folder, if it isn't there.
    ///
    /// # Errors
    /// Why the lock isn't taken.
    ///
    /// # Not specified
    /// Anything beyond what each implementation says of itself: that no two processes have a lock is
    /// a premise.
    fn lock(&mut self, folder: &str) -> Result<Self::Lock, LockRefusal>
        ensures received { locks self.old folder.now result self.new }
        ensures count { lock_failures self.new ≡ failures_after result (lock_failures self.old) };
}
