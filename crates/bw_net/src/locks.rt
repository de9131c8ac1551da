//! The locks of folders of this machine.
use crate::counting::counted;
use crate::lock::FolderLock;
use crate::recordings::HostRecordings;
use bw_ports::{FolderLocks, LockRefusal};

/// The lock that a server with journals takes.
///
/// No clause says when a call succeeds: that two processes don't have it is tested.
impl FolderLocks for HostRecordings<'_> {
    ghost use Rattle.bw_net.specs.SeenFiles.{recordings_failures};

    type Lock = FolderLock;

    ghost lock_failures = { recordings_failures };

    ghost locks = { λ s folder result s'. Unit {0} };

    fn lock(&mut self, folder: &str) -> Result<FolderLock, LockRefusal> {
        let taken = FolderLock::take(self.rt, self.rt.alloc(), folder);
        counted(taken, &mut self.failures)
    }
}
