//! Files that are changed in place, by the calls of std.
ghost use Rattle.std.specs.Prelude.{◌≡◌, None};

use crate::counting::counted;
use crate::host::open_source;
use crate::recordings::HostRecordings;
use bw_ports::EditedFiles;
use bw_stream::SeekSource;
use std::fs::{File, OpenFile, OpenOptions};
use std::io::{self, Seek, SeekFrom, Write};

/// The files of this machine. It doesn't report their bytes, since no clause of std says what they
/// are.
impl EditedFiles for HostRecordings<'_> {
    ghost use Rattle.bw_net.specs.SeenFiles.{recordings_failures};

    type Edited = SeekSource<File>;

    ghost content_at = { λ s path. None };

    ghost edit_failures = { recordings_failures };

    fn open_edited(&mut self, path: &str) -> io::Result<SeekSource<File>> {
        counted(open_source(self.rt, path), &mut self.failures)
    }

    fn overwrite(&mut self, path: &str, place: u64, bytes: &[u8]) -> io::Result<()> {
        counted(
            write_in_place(self.rt, path, place, bytes),
            &mut self.failures,
        )
    }
}

/// Writes bytes into a file that is there, from a place on, and syncs it.
fn write_in_place(rt: &HostRuntime, path: &str, place: u64, bytes: &[u8]) -> io::Result<()> {
    let mut file = OpenOptions::new().read(true).write(true).open(rt, path)?;
    file.seek(SeekFrom::Start(place))?;
    file.write_all(bytes)?;
    file.sync_all()
}
