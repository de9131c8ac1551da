//! Whether an earlier server kept journals in a folder.
use bw_disk::{ReadFault, SystemDisk, Volume};
use bw_model::Name;
use bw_net::NotedFiles;
use bw_ports::StartRefusal;
use bw_recovery::list_names;
use std::alloc::{AllocError, Global};
use std::fs;
use std::io::ErrorKind;

/// Refuses a folder in which takes have journals: a server without journals wouldn't know their
/// verdicts. A process that may not list the folder can keep no journals there,
/// so such a folder passes.
///
/// # Errors
/// `Unfit` with a line for each journal; `Device` if the folder can't be listed; `Memory` if memory
/// was refused.
///
/// # Not specified
/// Anything: it has no contract. What is refused is tested.
pub(crate) fn refuse_journals(files: NotedFiles<'_>, folder: &str) -> Result<(), StartRefusal> {
    let alloc = files.alloc();
    let mut disk = SystemDisk::new(files);
    match lines_of_folder(alloc, &mut disk, folder) {
        Ok(lines) if lines.is_empty() => Ok(()),
        Ok(lines) => Err(StartRefusal::Unfit(lines)),
        Err(ReadFault::Memory) => Err(StartRefusal::Memory),
        Err(ReadFault::Disk) if may_list(&files, folder) => Err(StartRefusal::Device),
        Err(ReadFault::Disk) => Ok(()),
    }
}

/// A line for each journal of a folder.
fn lines_of_folder<E: Volume>(
    alloc: Global,
    disk: &mut E,
    folder: &str,
) -> Result<Vec<u8>, ReadFault> {
    let mut lines = Vec::new(alloc);
    for name in &list_names(alloc, disk, folder)? {
        put_line(folder, name, &mut lines).map_err(|_| ReadFault::Memory)?;
    }
    Ok(lines)
}

/// Whether this process may list a folder.
fn may_list(files: &NotedFiles<'_>, folder: &str) -> bool {
    match fs::read_dir(files, folder) {
        Ok(_) => true,
        Err(error) => error.kind() != ErrorKind::PermissionDenied,
    }
}

/// Appends the line of a take.
fn put_line(folder: &str, name: &Name, lines: &mut Vec<u8>) -> Result<(), AllocError> {
    lines.extend_from_slice(folder.as_bytes())?;
    lines.extend_from_slice(b"/")?;
    lines.extend_from_slice(name.as_bytes())?;
    lines.extend_from_slice(b".journal: this take needs serve --journal\n")
}
