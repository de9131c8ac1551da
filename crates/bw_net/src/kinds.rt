//! What is at a path, by what std reports of it.
ghost use Rattle.std.specs.Prelude.{◌≡◌, ◌≢◌};
ghost use Rattle.std.specs.Fs.{IsDir, IsFile, file_type};
ghost use Rattle.bw_ports.specs.declared.file_kind.FileKind.TheVariants as kinds;

use bw_ports::FileKind;
use std::fs::{File, FileType, Metadata};
use std::io::{self, ErrorKind};
use std::os::unix::fs::FileTypeExt;

/// What has this metadata.
///
/// # Not specified
/// Which of pipe, socket and device it is: no clause of std says it.
pub(crate) fn kind_of(found: &Metadata) -> FileKind
    ensures file { IsFile (file_type found.now) → result ≡ kinds.Regular }
    ensures other { ¬ IsFile (file_type found.now) → result ≢ kinds.Regular }
    ensures folder { ¬ IsFile (file_type found.now) → IsDir (file_type found.now) → result ≡ kinds.Folder }
{
    if found.is_file() {
        return FileKind::Regular;
    }
    if found.is_dir() {
        return FileKind::Folder;
    }
    special_kind(&found.file_type())
}

/// What has this type, which is neither a file nor a folder.
fn special_kind(found: &FileType) -> FileKind
    ensures { result ≢ kinds.Regular }
{
    if found.is_fifo() {
        return FileKind::Pipe;
    }
    if found.is_socket() {
        return FileKind::Socket;
    }
    if found.is_char_device() || found.is_block_device() {
        return FileKind::Device;
    }
    FileKind::Unknown
}

/// A file that was opened to be read and written, unless it is a pipe. That opening doesn't wait for a
/// pipe's other end, as opening it for one of both would, and nothing can take the file's place in
/// between.
///
/// # Errors
/// If it is a pipe, or the system fails.
pub(crate) fn without_pipes(file: File, name: &str) -> io::Result<File> {
    match kind_of(&file.metadata()?) {
        FileKind::Pipe => Err(io::Error::new(ErrorKind::InvalidInput, name)),
        _ => Ok(file),
    }
}
