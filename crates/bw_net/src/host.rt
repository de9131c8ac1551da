//! The system of the process: three calls of std.
ghost use Rattle.std.specs.Prelude.{◌≡◌, Some, None};
ghost use Rattle.std.specs.Fs.{IsFile, file_type, metadata_len};

use crate::counting::counted;
use crate::hosts::with_address;
use bw_ports::System;
use bw_stream::SeekSource;
use std::fs::{File, Metadata};
use std::{env, io};

/// The system that the process runs on, by the calls of std. It reports neither words nor files,
/// since no clause of std says what they are. A host that `send --network` is to connect to is its
/// address in the words.
#[derive(Drop)]
pub struct Host<'a> {
    rt: &'a HostRuntime,
    failures: u64,
}

impl<'a> Host<'a> {
    ghost use Rattle.bw_net.specs.SeenFiles.{host_failures};

    /// The system of this runtime, which has not failed yet.
    ///
    /// # Not specified
    /// What the words and files are: no clause of std says it.
    pub fn new(rt: &'a HostRuntime) -> Host<'a>
        ensures { host_failures result ≡ 0 }
    {
        Host { rt, failures: 0 }
    }
}

impl System for Host<'_> {
    ghost use Rattle.bw_net.specs.SeenFiles.{host_failures};

    type File = SeekSource<File>;

    ghost words = { λ s. None };

    ghost file_at = { λ s path. None };

    ghost failures = { host_failures };

    fn words(&mut self) -> io::Result<Vec<String>> {
        counted(words(self.rt), &mut self.failures)
    }

    fn open(&mut self, path: &str) -> io::Result<SeekSource<File>> {
        counted(open_source(self.rt, path), &mut self.failures)
    }
}

fn words(rt: &HostRuntime) -> io::Result<Vec<String>> {
    let mut words = Vec::new(rt.alloc());
    for word in env::args(rt)? {
        words.push(word)?;
    }
    with_address(rt, words)
}

/// The file at a path, read forward, or by seeks where its length is known.
pub(crate) fn open_source(rt: &HostRuntime, path: &str) -> io::Result<SeekSource<File>> {
    let file = File::open(rt, path)?;
    let len = known_len(&file.metadata()?);
    Ok(SeekSource::new(file, len))
}

/// A file's length in bytes. A pipe and a device have none, and are read forward.
fn known_len(metadata: &Metadata) -> Option<u64>
    ensures file { IsFile (file_type metadata.now) → result ≡ Some (metadata_len metadata.now) }
    ensures other { ¬ IsFile (file_type metadata.now) → result ≡ None }
{
    if metadata.is_file() {
        Some(metadata.len())
    } else {
        None
    }
}
