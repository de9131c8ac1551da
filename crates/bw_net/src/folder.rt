//! The folder that a server keeps its files in.
use std::alloc::Global;
use std::fs::{self, File, Files};
use std::io::{self, ErrorKind};

/// The file by which a folder is tested; no take's name has a dot.
const PROBE: &str = ".bwingest";

/// Whether there is a folder at a path.
///
/// # Not specified
/// Anything: it has no contract.
pub fn has_folder<R: Files>(rt: &R, folder: &str) -> bool {
    match fs::metadata(rt, folder) {
        Ok(found) => found.is_dir(),
        Err(_) => false,
    }
}

/// Tests a folder: a file is made in it, and removed. If something has that file's name already,
/// even a link, it is left alone, and the folder isn't tested.
///
/// # Errors
/// Why no file can be made: the folder is missing, isn't a folder, or is closed to this process.
///
/// # Not specified
/// Anything: it has no contract, neither on when the folder is usable, nor that the file is gone
/// afterwards, even after an error.
pub fn check_folder<R: Files>(rt: &R, alloc: Global, folder: &str) -> io::Result<()> {
    let path = format!(in alloc; "{folder}/{PROBE}")?;
    match File::create_new(rt, path.as_str()) {
        Ok(file) => drop(file),
        Err(error) if error.kind() == ErrorKind::AlreadyExists => return Ok(()),
        Err(error) => return Err(error),
    }
    fs::remove_file(rt, path.as_str())
}
