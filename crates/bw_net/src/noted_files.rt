//! The files of this machine, whose failed calls are noted.
ghost use Rattle.std.specs.Prelude.{◌≡◌};

use crate::lines::LineCell;
use std::alloc::{AllocError, Allocator, Global};
use std::cell::Cell;
use std::fs::{Files, Metadata, OpenFile, OpenOptions};
use std::io::{self, ErrorKind, Read, Seek, SeekFrom, Write};
use std::net::SocketAddr;
use std::os::fd::AsRawFd;

/// After how many bytes the system is asked to begin to write them to the disk.
const WRITE_BACK: u64 = 2 << 20;

/// In how many steps of these bytes files differ: recorders that began together would all wait while
/// as many files as they are were written back at once.
const WRITE_BACK_STEPS: u64 = 32;

/// What a file is called whose path there was no memory for.
const SOME_FILE: &str = "a file";

/// The files of this machine. Each call that fails is noted with its path, for the lines of a server.
/// No clause says what the calls do, nor what is noted.
#[derive(Clone, Copy)]
pub struct NotedFiles<'a> {
    rt: &'a HostRuntime,
    lines: &'a LineCell,
}

impl<'a> NotedFiles<'a> {
    /// The files of this runtime, whose failed calls are noted there.
    ///
    /// # Not specified
    /// Anything: it has no contract.
    pub fn new(rt: &'a HostRuntime, lines: &'a LineCell) -> NotedFiles<'a> {
        NotedFiles { rt, lines }
    }

    /// Says on standard error why a name of a folder is left out: `FOLDER/NAME.journal: CAUSE, left out`.
    /// Operators see it until it is served.
    ///
    /// # Not specified
    /// Anything: it has no contract.
    pub fn note_left_out(&self, folder: &str, name: &str, cause: &str) {
        self.lines.note_fault_of_name(self.rt, folder, name, cause);
    }

    /// Whether what happens is said.
    ///
    /// # Not specified
    /// Whether it is.
    pub fn logs(&self) -> bool {
        self.lines.logs()
    }

    /// Says what happens in this line, if that is asked for. One for which memory was refused is left out.
    ///
    /// # Not specified
    /// Anything: it has no contract.
    pub fn note_event(&self, line: Result<Vec<u8>, AllocError>) {
        self.lines.note_event(self.rt, line);
    }

    /// A name is served: it isn't left out.
    ///
    /// # Not specified
    /// Anything: it has no contract.
    pub fn note_served(&self, name: &str) {
        self.lines.note_served(name);
    }

    /// Notes that a peer's message under this name was turned away. Returns whether the last one that was
    /// came from elsewhere, or under another name.
    ///
    /// # Not specified
    /// Anything: it has no contract.
    pub fn note_refused(&self, peer: SocketAddr, name: &str) -> bool {
        self.lines.note_refused(self.rt.alloc(), peer, name)
    }

    /// Says on standard error that a sync failed of the take's file at a path, or of its journal.
    ///
    /// # Not specified
    /// Anything: it has no contract.
    pub fn note_failed_sync(&self, path: &str) {
        self.lines.note_failed_sync(self.rt, path);
    }

    /// What a call for a path gave. If it failed, that is noted.
    fn noted<T>(&self, path: &str, given: io::Result<T>) -> io::Result<T>
        ensures { result ≡ given }
    {
        if let Err(error) = &given {
            self.lines.note_fault(self.rt, path, error);
        }
        given
    }

    /// What was opened at a path, whose failed calls are noted too; a take begins with it if it is new.
    fn opened<F>(
        &self,
        path: &str,
        is_new: bool,
        given: io::Result<F>,
    ) -> io::Result<NotedFile<'a, F>> {
        if is_new {
            self.note_creation(&given);
        }
        let inner = self.noted(path, given)?;
        Ok(NotedFile {
            inner,
            path: String::from_str(self.rt.alloc(), path).ok(),
            files: *self,
            unwritten: Cell::new(is_new),
            unsynced: Cell::new(is_new),
            position: Cell::new(0),
            written_back: Cell::new(0),
            due: Cell::new(first_write_back(path)),
        })
    }

    /// Notes that a file of a take can't be made, unless there is one.
    fn note_creation<F>(&self, given: &io::Result<F>) {
        if let Err(error) = given {
            if error.kind() != ErrorKind::AlreadyExists {
                self.lines.note_beginning(true);
            }
        }
    }
}

/// After how many bytes of the file at a path the system is first asked to begin to write them: for
/// names that are counted up, at as many places as there are steps.
fn first_write_back(path: &str) -> u64 {
    let mut sum = 0u64;
    for byte in path.as_bytes() {
        sum = sum.wrapping_add(u64::from(*byte));
    }
    WRITE_BACK / WRITE_BACK_STEPS * (sum % WRITE_BACK_STEPS + 1)
}

impl Alloc for NotedFiles<'_> {
    type A = Global;

    fn alloc(&self) -> Global {
        self.rt.alloc()
    }
}

impl<'a> Files for NotedFiles<'a> {
    type File = NotedFile<'a, <HostRuntime as Files>::File>;

    type Dir = NotedFile<'a, <HostRuntime as Files>::Dir>;

    fn open_file(&self, how: &OpenOptions, path: &str) -> io::Result<Self::File> {
        self.opened(path, how.asks_create_new(), self.rt.open_file(how, path))
    }

    fn open_dir(&self, path: &str) -> io::Result<Self::Dir> {
        self.opened(path, false, self.rt.open_dir(path))
    }

    fn metadata(&self, path: &str) -> io::Result<Metadata> {
        self.noted(path, self.rt.metadata(path))
    }

    fn symlink_metadata(&self, path: &str) -> io::Result<Metadata> {
        self.noted(path, self.rt.symlink_metadata(path))
    }

    fn copy(&self, from: &str, to: &str) -> io::Result<u64> {
        self.noted(from, self.rt.copy(from, to))
    }

    fn rename(&self, from: &str, to: &str) -> io::Result<()> {
        self.noted(from, self.rt.rename(from, to))
    }

    fn remove_file(&self, path: &str) -> io::Result<()> {
        self.noted(path, self.rt.remove_file(path))
    }

    fn create_dir(&self, path: &str) -> io::Result<()> {
        self.noted(path, self.rt.create_dir(path))
    }

    fn remove_dir(&self, path: &str) -> io::Result<()> {
        self.noted(path, self.rt.remove_dir(path))
    }

    fn remove_dir_all<B: Allocator>(&self, alloc: B, path: &str) -> io::Result<()> {
        self.noted(path, self.rt.remove_dir_all(alloc, path))
    }
}

/// An open file or folder, whose failed calls are noted. What it gives and takes is what its own file
/// does.
#[derive(Drop)]
pub struct NotedFile<'a, F> {
    inner: F,
    /// None if memory was refused for it.
    path: Option<String>,
    files: NotedFiles<'a>,
    /// Whether it was made and nothing is written yet.
    unwritten: Cell<bool>,
    /// Whether it was made and not synced yet.
    unsynced: Cell<bool>,
    /// Where the next byte is written.
    position: Cell<u64>,
    /// Up to where the system was asked to begin to write to the disk.
    written_back: Cell<u64>,
    /// From where on it is asked again.
    due: Cell<u64>,
}

impl<F> NotedFile<'_, F> {
    /// What a call gave. If it failed, that is noted.
    fn noted<T>(&self, given: io::Result<T>) -> io::Result<T>
        ensures { result ≡ given }
    {
        let path = match &self.path {
            Some(path) => path.as_str(),
            None => SOME_FILE,
        };
        self.files.noted(path, given)
    }

    /// Notes whether a take begins: by the first write of a new file, and by its first sync.
    fn note_first<T>(&self, is_first: &Cell<bool>, given: &io::Result<T>) {
        if !is_first.get() {
            return;
        }
        match given {
            Ok(_) => {
                is_first.set(false);
                self.files.lines.note_beginning(false);
            }
            Err(error) if error.kind() == ErrorKind::Interrupted => {}
            Err(_) => self.files.lines.note_beginning(true),
        }
    }
}

impl<F: AsRawFd> NotedFile<'_, F> {
    /// Counts bytes that were written, and has the system begin to write them to the disk once they are
    /// many: a sync at the end of a long take then finds little to do, so others don't wait for it. Bytes
    /// near the file's start, which are written again and again, stay in memory.
    fn write_back(&self, count: usize) {
        let position = self.position.get().saturating_add(count as u64);
        self.position.set(position);
        if position < self.due.get() {
            return;
        }
        let begin = self.written_back.get();
        self.written_back.set(position);
        self.due.set(position.saturating_add(WRITE_BACK));
        let len = position.saturating_sub(begin);
        if let (Ok(begin), Ok(len)) = (i64::try_from(begin), i64::try_from(len)) {
            // It is advice: if it isn't taken, the sync takes longer.
            let _advised = libc::posix_fadvise(
                self.inner.as_raw_fd(),
                begin,
                len,
                libc::POSIX_FADV_DONTNEED,
            );
        }
    }
}

impl<F: Read> Read for NotedFile<'_, F> {
    ghost remaining = { λ f. F.remaining f.inner };

    fn read(&mut self, buf: &mut [u8]) -> io::Result<usize> {
        let given = self.inner.read(buf);
        self.noted(given)
    }
}

impl<F: Write + AsRawFd> Write for NotedFile<'_, F> {
    ghost contents = { λ f. F.contents f.inner };

    fn write(&mut self, buf: &[u8]) -> io::Result<usize> {
        let given = self.inner.write(buf);
        self.note_first(&self.unwritten, &given);
        if let Ok(count) = &given {
            self.write_back(*count);
        }
        self.noted(given)
    }

    fn flush(&mut self) -> io::Result<()> {
        let given = self.inner.flush();
        self.noted(given)
    }
}

impl<F: Seek> Seek for NotedFile<'_, F> {
    ghost stream_position = { λ f. F.stream_position f.inner };

    ghost stream_bytes = { λ f. F.stream_bytes f.inner };

    fn seek(&mut self, to: SeekFrom) -> io::Result<u64> {
        let given = self.inner.seek(to);
        if let Ok(position) = &given {
            self.position.set(*position);
        }
        self.noted(given)
    }
}

impl<F: OpenFile> OpenFile for NotedFile<'_, F> {
    fn metadata(&self) -> io::Result<Metadata> {
        self.noted(self.inner.metadata())
    }

    fn set_len(&self, size: u64) -> io::Result<()> {
        self.noted(self.inner.set_len(size))
    }

    fn sync_all(&self) -> io::Result<()> {
        let given = self.inner.sync_all();
        self.note_first(&self.unsynced, &given);
        self.noted(given)
    }

    fn sync_data(&self) -> io::Result<()> {
        self.noted(self.inner.sync_data())
    }
}
