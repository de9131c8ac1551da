//! The lock of a server's folder.
use crate::kinds::without_pipes;
use bw_ports::LockRefusal;
use std::alloc::Global;
use std::fs::{File, OpenOptions, TryLockError};
use std::io;

/// The file that is locked; no take's name has a dot.
const LOCK: &str = ".bwingest-lock";

/// The lock of a folder, which one process has at a time. The system frees it when the process
/// ends, also if it is killed. The file of the lock stays in the folder, and is empty.
#[derive(Drop)]
pub struct FolderLock {
    _file: File,
}

impl FolderLock {
    /// Takes the lock of a folder, which is held until the result is dropped.
    ///
    /// # Errors
    /// `Running` if another process has it; `Unusable` if its file can't be opened, made or locked;
    /// `Memory` if memory was refused.
    ///
    /// # Not specified
    /// Anything: it has no contract. That a second server is refused, and that a kill frees the
    /// lock, is tested.
    pub fn take(rt: &HostRuntime, alloc: Global, folder: &str) -> Result<FolderLock, LockRefusal> {
        let Ok(path) = format!(in alloc; "{folder}/{LOCK}") else {
            return Err(LockRefusal::Memory);
        };
        let file = open_lock(rt, path.as_str()).map_err(LockRefusal::Unusable)?;
        match file.try_lock() {
            Ok(()) => Ok(FolderLock { _file: file }),
            Err(TryLockError::WouldBlock) => Err(LockRefusal::Running),
            Err(TryLockError::Error(error)) => Err(LockRefusal::Unusable(error)),
        }
    }
}

/// The file at a path, which is made if nothing is there. Nothing is written to it. A pipe isn't
/// waited for.
fn open_lock(rt: &HostRuntime, path: &str) -> io::Result<File> {
    let mut options = OpenOptions::new();
    options.read(true).write(true).create(true);
    match options.open(rt, path) {
        Ok(file) => without_pipes(file, ".bwingest-lock is a pipe"),
        Err(error) => Err(named(rt.alloc(), error)),
    }
}

/// Why the lock's file can't be opened, with its name, unless memory is refused for that.
fn named(alloc: Global, error: io::Error) -> io::Error {
    match format!(in alloc; "{LOCK}: {error}") {
        Ok(words) => io::Error::new(error.kind(), words.as_str()),
        Err(_) => error,
    }
}
