//! The spools of this machine: each is held for one sender, and bound to what it was begun for.
ghost use Rattle.std.specs.Prelude.{⊤};

use crate::recordings::HostRecordings;
use crate::spool::SpoolCell;
use crate::states::{begin_file, first_bytes};
use bw_ports::{Hold, SpoolKeeper, SpoolKeeping, hold_for};
use std::fs::{self, File, OpenOptions, TryLockError};
use std::io::{self, Error, ErrorKind};

/// What the path of the file that binds a spool has more than the spool's.
const BINDING: &str = ".for";

/// The most bytes of that file that are read: more than a line has.
const MOST_BOUND: usize = 256;

/// Holds a spool of this machine, the one that standard input is appended to.
///
/// No clause says when a call succeeds: that two processes don't hold a spool, and that one isn't
/// used for something else, is tested. How it is decided is proved of `hold_for`.
#[derive(Drop)]
pub struct HostSpools<'a> {
    rt: &'a HostRuntime,
    spool: &'a SpoolCell,
    held: Option<HeldSpool>,
}

/// A spool that is held: as long as the file is open, it is locked.
#[derive(Drop)]
struct HeldSpool {
    file: File,
}

impl SpoolKeeper for HostSpools<'_> {
    ghost holds = { λ _ _ _ _ _. ⊤ };

    ghost opens = { λ _ _. ⊤ };

    ghost keeps = { λ _ _ _. ⊤ };

    fn hold(&mut self, path: &str, line: &[u8]) -> io::Result<()> {
        let file = open_spool(self.rt, path)?;
        bind(self.rt, path, file.metadata()?.len(), line)?;
        self.held = Some(HeldSpool { file });
        Ok(())
    }

    fn is_open(&self) -> bool {
        self.spool.is_drawn() && self.spool.is_open()
    }

    fn keep_rest(&mut self) -> Option<u64> {
        if !self.spool.is_drawn() || !self.spool.drain(self.rt) {
            return None;
        }
        let held = self.held.as_ref()?;
        match held.file.metadata() {
            Ok(found) => Some(found.len()),
            Err(_) => None,
        }
    }
}

/// The spool at a path, which is made if it isn't there, and locked. What isn't a file is opened
/// without waiting, since it is opened for both reading and writing.
fn open_spool(rt: &HostRuntime, path: &str) -> io::Result<File> {
    let file = OpenOptions::new()
        .read(true)
        .append(true)
        .create(true)
        .open(rt, path)?;
    if !file.metadata()?.is_file() {
        return Err(Error::new(ErrorKind::InvalidInput, "it isn't a file"));
    }
    match file.try_lock() {
        Ok(()) => Ok(file),
        Err(TryLockError::WouldBlock) => {
            Err(Error::new(ErrorKind::WouldBlock, "another sender uses it"))
        }
        Err(TryLockError::Error(error)) => Err(error),
    }
}

/// Binds a spool of `len` bytes to what a line says, unless that is done already.
fn bind(rt: &HostRuntime, path: &str, len: u64, line: &[u8]) -> io::Result<()> {
    let at = format!(in rt.alloc(); "{path}{BINDING}")?;
    let found = bound_at(rt, at.as_str())?;
    match hold_for(len, found.as_slice(), line) {
        Hold::Begins => {
            let _file = begin_file(rt, at.as_str(), line)?;
            Ok(())
        }
        Hold::GoesOn => Ok(()),
        Hold::Refuses => Err(other_purpose(rt, found.as_slice())),
    }
}

/// What the file at a path binds a spool to: nothing where there is no file.
fn bound_at(rt: &HostRuntime, path: &str) -> io::Result<Vec<u8>> {
    match fs::metadata(rt, path) {
        Ok(found) if found.is_file() => first_bytes(rt, path, MOST_BOUND),
        Ok(_other) => Err(Error::new(ErrorKind::InvalidInput, "its .for isn't a file")),
        Err(error) if error.kind() == ErrorKind::NotFound => Ok(Vec::new(rt.alloc())),
        Err(error) => Err(error),
    }
}

/// Why a spool that was begun for this isn't used.
fn other_purpose(rt: &HostRuntime, found: &[u8]) -> Error {
    match words_of(rt, found) {
        Ok(words) => Error::new(ErrorKind::InvalidInput, words.as_str()),
        Err(error) => error,
    }
}

fn words_of(rt: &HostRuntime, found: &[u8]) -> io::Result<String> {
    let line = String::from_utf8_lossy(rt.alloc(), found)?;
    let words = line.trim_end();
    Ok(format!(in rt.alloc(); "it was begun for {words}")?)
}

impl<'a> SpoolKeeping for HostRecordings<'a> {
    type Keeper = HostSpools<'a>;

    ghost lends = { λ _ _. ⊤ };

    fn keeper(&self) -> HostSpools<'a> {
        HostSpools {
            rt: self.rt,
            spool: self.spool,
            held: None,
        }
    }
}
