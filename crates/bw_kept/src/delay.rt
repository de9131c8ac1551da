//! Why a frame is put off.
use bw_recovery::NameFault;

/// Why a frame is answered DelayedStore with next 0: nothing of its name changes but what a recovery
/// mends.
#[derive(Clone, Copy, Debug, PartialEq, Eq)]
pub enum Delay {
    /// A call of a disk failed, or 256 files of the name were set aside already.
    CallFailed,
    /// Memory was refused; or notes are pending, and a sync has failed, at which the server ends.
    NoMemory,
    /// The name is left out: this is wrong with its journal or its file.
    LeftOut(NameFault),
    /// More numbers of it are done by its journal than messages can have, 2^24.
    TooManyNumbers,
    /// The disks of store and journal don't show alike whether the name has a file.
    TwoFolders,
    /// The table is full, and something waits of each of its names.
    NoPlace,
}
