//! Files of senders' states, by the calls of std.
ghost use Rattle.std.specs.Prelude.{◌≡◌, None, true};
ghost use Rattle.std.specs.Fs.{new_options, with_append, with_create, with_read, with_truncate, with_write};

use crate::counting::counted;
use crate::kinds::without_pipes;
use bw_ports::{StateFiles, StateLog};
use std::fs::{File, OpenOptions};
use std::io::{self, ErrorKind, Read, Write};
use std::path::Path;

/// The files of states on this machine. It reports no bytes, since no clause of std says what a
/// file holds.
#[derive(Drop)]
pub struct HostStates<'a> {
    rt: &'a HostRuntime,
    failures: u64,
}

impl<'a> HostStates<'a> {
    ghost use Rattle.bw_net.specs.SeenFiles.{states_failures};

    /// The files of this runtime's system, which has not failed yet.
    ///
    /// # Not specified
    /// What the files hold: no clause of std says it.
    pub fn new(rt: &'a HostRuntime) -> HostStates<'a>
        ensures { states_failures result ≡ 0 }
    {
        HostStates { rt, failures: 0 }
    }
}

impl StateFiles for HostStates<'_> {
    ghost use Rattle.bw_net.specs.SeenFiles.{states_failures};

    type Log = StateFile;

    ghost state_at = { λ s path. None };

    ghost failures = { states_failures };

    fn read(&mut self, path: &str, most: usize) -> io::Result<Vec<u8>> {
        counted(first_bytes(self.rt, path, most), &mut self.failures)
    }

    fn begin(&mut self, path: &str, bytes: &[u8]) -> io::Result<StateFile> {
        counted(begin_file(self.rt, path, bytes), &mut self.failures)
    }

    fn go_on(&mut self, path: &str) -> io::Result<StateFile> {
        let opened = at_the_end().open(self.rt, path);
        let file = counted(opened, &mut self.failures)?;
        Ok(StateFile { file, failures: 0 })
    }
}

/// How a state is opened to be read: to be written too, so that a pipe isn't waited for.
fn as_it_is() -> OpenOptions
    ensures { result ≡ with_write (with_read new_options true) true }
{
    let mut options = OpenOptions::new();
    options.read(true).write(true);
    options
}

/// How a state is begun: made if it isn't there, and empty, whatever was there.
fn emptied() -> OpenOptions
    ensures { result ≡ with_truncate (with_create (with_write new_options true) true) true }
{
    let mut options = OpenOptions::new();
    options.write(true).create(true).truncate(true);
    options
}

/// How a state is gone on with: written at its end.
fn at_the_end() -> OpenOptions
    ensures { result ≡ with_append new_options true }
{
    let mut options = OpenOptions::new();
    options.append(true);
    options
}

/// The first bytes of the file at a path; none where there is no file.
pub(crate) fn first_bytes(rt: &HostRuntime, path: &str, most: usize) -> io::Result<Vec<u8>> {
    let mut bytes = Vec::new(rt.alloc());
    let file = match as_it_is().open(rt, path) {
        Ok(file) => without_pipes(file, "it is a pipe")?,
        Err(error) if error.kind() == ErrorKind::NotFound => return Ok(bytes),
        Err(error) => return Err(error),
    };
    file.take(most as u64).read_to_end(&mut bytes)?;
    Ok(bytes)
}

/// A file with just these bytes, which are synced, and its folder too.
pub(crate) fn begin_file(rt: &HostRuntime, path: &str, bytes: &[u8]) -> io::Result<StateFile> {
    let mut file = emptied().open(rt, path)?;
    file.write_all(bytes)?;
    file.sync_data()?;
    // Some file systems can't sync a folder. Without it a loss of power may take the state away,
    // and all is sent again.
    let _ = sync_folder_of(rt, path);
    Ok(StateFile { file, failures: 0 })
}

/// Syncs the folder of the file at a path, so that the file's name is in it after a loss of power.
pub(crate) fn sync_folder_of(rt: &HostRuntime, path: &str) -> io::Result<()> {
    let folder = match Path::new(path).parent() {
        Some(folder) if !folder.as_os_str().is_empty() => folder,
        _ => Path::new("."),
    };
    File::open(rt, folder)?.sync_all()
}

/// A state's file of this machine, which is written at its end.
#[derive(Drop)]
pub struct StateFile {
    file: File,
    failures: u64,
}

impl StateLog for StateFile {
    ghost use Rattle.bw_net.specs.SeenFiles.{state_failures};

    ghost written = { λ f. None };

    ghost failures = { state_failures };

    fn append(&mut self, bytes: &[u8]) -> io::Result<()> {
        counted(self.file.write_all(bytes), &mut self.failures)
    }

    fn sync(&mut self) -> io::Result<()> {
        counted(self.file.sync_data(), &mut self.failures)
    }
}
