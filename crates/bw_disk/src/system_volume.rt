//! Files of the system that are found, read, cut, renamed and listed.
ghost use Rattle.std.specs.Prelude.{◌≡◌, ◌≤◌, IfOk, is_err, length};
ghost use Rattle.bw_disk.specs.Disks.{IsOneCall};
ghost use Rattle.bw_disk.specs.FileWrites.{PutsFrom};

use crate::disk::{Disk, DiskFault};
use crate::reading::ReadFault;
use crate::system::SystemDisk;
use crate::volume::Volume;
use std::alloc::Global;
use std::fs::{self, File, Files, OpenFile, OpenOptions};
use std::io::{self, ErrorKind, Read, Seek, SeekFrom};

/// The files of the system, by the calls of std, of which no clause says what they do: of each call
/// the counts are proved, and of `append` what is proved of `write_at`; all else only runs show.
///
/// It is a premise that no process but this one renames or makes files in the folder meanwhile: a
/// `rename` looks whether its second path is free, and then renames.
impl<R: Files + AllocGlobal + Clone + Drop> Volume for SystemDisk<R> {
    fn open(&mut self, path: &str) -> Result<Option<R::File>, DiskFault> {
        let answer = match OpenOptions::new()
            .read(true)
            .write(true)
            .open(&self.rt, path)
        {
            Ok(file) => Ok(Some(file)),
            Err(e) if e.kind() == ErrorKind::NotFound => Ok(None),
            Err(_) => Err(DiskFault),
        };
        self.call_counter.count(answer.is_err());
        answer
    }

    fn len(&mut self, file: &R::File) -> Result<u64, DiskFault> {
        let answer = match file.metadata() {
            Ok(metadata) => Ok(metadata.len()),
            Err(_) => Err(DiskFault),
        };
        self.call_counter.count(answer.is_err());
        answer
    }

    fn read_at(
        &mut self,
        file: &mut R::File,
        offset: u64,
        room: &mut [u8],
    ) -> Result<usize, DiskFault> {
        let answer = get(file, offset, room).map_err(|_| DiskFault);
        self.call_counter.count(answer.is_err());
        answer
    }

    /// Seeks to the offset, and then writes exactly these bytes, once.
    ///
    /// # Errors
    /// `DiskFault` if the seek or the write failed: after a failed seek nothing is written.
    ///
    /// # Not specified
    /// After a failed write that a seek came before: what the file holds, and its position.
    fn append(&mut self, file: &mut R::File, offset: u64, bytes: &[u8]) -> Result<(), DiskFault>
        ensures call { IsOneCall (λ d. d.calls) (λ d. d.failures) self.old self.new
            (is_err result) }
        ensures puts { PutsFrom R.File.Seek R.File.Write offset bytes.now file.old file.new result }
    {
        self.write_at(file, offset, bytes)
    }

    fn cut(&mut self, file: &mut R::File, len: u64) -> Result<(), DiskFault> {
        let answer = shorten(file, len).map_err(|_| DiskFault);
        self.call_counter.count(answer.is_err());
        answer
    }

    fn rename(&mut self, from: &str, to: &str) -> Result<bool, DiskFault> {
        let answer = move_to_free(&self.rt, from, to).map_err(|_| DiskFault);
        self.call_counter.count(answer.is_err());
        answer
    }

    fn list(&mut self, folder: &str) -> Result<Vec<String>, ReadFault> {
        let answer = match names_in(&self.rt, self.rt.alloc(), folder) {
            Ok(names) => Ok(names),
            Err(e) if e.kind() == ErrorKind::OutOfMemory => Err(ReadFault::Memory),
            Err(_) => Err(ReadFault::Disk),
        };
        self.call_counter.count(answer.is_err());
        answer
    }

    fn sync_data(&mut self, file: &R::File) -> Result<(), DiskFault> {
        let answer = file.sync_data().map_err(|_| DiskFault);
        self.call_counter.count(answer.is_err());
        answer
    }

    fn sync_folder(&mut self, folder: &str) -> Result<(), DiskFault> {
        let answer = sync_names(&self.rt, folder).map_err(|_| DiskFault);
        self.call_counter.count(answer.is_err());
        answer
    }
}

/// Reads bytes of a file from an offset on.
fn get<F: Seek + Read>(file: &mut F, offset: u64, room: &mut [u8]) -> io::Result<usize>
    ensures { IfOk result (λ count. count ≤ length room.old) }
{
    file.seek(SeekFrom::Start(offset))?;
    file.read(room)
}

/// Cuts a file that is longer than that.
fn shorten<F: OpenFile>(file: &F, len: u64) -> io::Result<()> {
    if file.metadata()?.len() > len {
        file.set_len(len)?;
    }
    Ok(())
}

/// Renames a file, unless something has its new path: then it returns false.
fn move_to_free<R: Files>(rt: &R, from: &str, to: &str) -> io::Result<bool> {
    match fs::symlink_metadata(rt, to) {
        Ok(_) => return Ok(false),
        Err(e) if e.kind() == ErrorKind::NotFound => {}
        Err(e) => return Err(e),
    }
    fs::rename(rt, from, to)?;
    Ok(true)
}

/// The names in a folder that are UTF-8 and don't begin with a dot.
fn names_in<R: Files + AllocGlobal + Clone + Drop>(
    rt: &R,
    alloc: Global,
    folder: &str,
) -> io::Result<Vec<String>> {
    let mut names = Vec::new(alloc);
    for entry in fs::read_dir(rt, folder)? {
        match entry {
            Ok(entry) => {
                let name = entry.file_name();
                if !name.starts_with('.') {
                    names.push(String::from_str(alloc, name)?)?;
                }
            }
            Err(e) if e.kind() == ErrorKind::InvalidFilename => {}
            Err(e) => return Err(e),
        }
    }
    Ok(names)
}

/// Syncs a folder.
fn sync_names<R: Files>(rt: &R, folder: &str) -> io::Result<()> {
    File::open(rt, folder)?.sync_all()
}
