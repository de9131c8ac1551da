//! The recordings that paths stand for: those of a folder, or the path itself.
ghost use Rattle.std.specs.Prelude.{◌≡◌, ◌≢◌, ◌↔◌, ◌++◌, ◌∷◌, [], ℕ, List, IfOk, IsTrue, MatchBool};
ghost use Rattle.std.specs.Prelude.{MatchResult, OnOk, map, string_bytes};
ghost use Rattle.std.specs.Char.{to_ascii_lowercase};
ghost use Rattle.std.specs.Cmp.Lexicographic.{slice_cmp};
ghost use Rattle.std.specs.List.Sorted.{IsPermutation, IsSorted};
ghost use Rattle.std.specs.Ordering.{nat_cmp};
ghost use Rattle.bw_disk.specs.DiskSteps.{StaysWhole};
ghost use Rattle.bw_ports.specs.declared.file_kind.FileKind.TheVariants.{Folder as IsFolder};
ghost use Rattle.bw_queue.specs.FolderRecordings.{EachGives, GivesRecording, IsEndedBy, IsRecordingName};
ghost use Rattle.bw_queue.specs.FolderRecordings.{ListsRecordings, SaysEmptyFolder, SaysUnlisted};
ghost use Rattle.bw_queue.specs.FolderRecordings.{StandsForPaths};
ghost use Rattle.bw_queue.specs.FolderRecordings.{is_slash_last as ends_with_slash, slash_between};
ghost use Rattle.bw_queue.specs.FolderRecordings.{path_within as path_of_file};
ghost use Rattle.bw_queue.specs.QueueFaults.{FaultSays, no_recordings_text, unreadable_text};
ghost use Rattle.bw_queue.specs.QueueSides.{CountsUnreadPaths, queue_side};

use crate::fault::{QueueFault, unreadable, without_recordings};
use bw_disk::{ReadFault, Volume};
use bw_ports::{FileKind, FileKinds};
use std::alloc::{AllocError, Global};

/// The paths of all recordings that these paths stand for.
///
/// # Errors
/// `Refused` with the line of a folder without recordings; `Unread` with that of one that can't be read;
/// `Memory`.
pub(crate) fn find_recordings<F: FileKinds, D: Volume>(
    alloc: Global,
    files: &F,
    disk: &mut D,
    paths: &[String],
) -> Result<Vec<String>, QueueFault>
    ensures counts { CountsUnreadPaths ⊥ (D.failures disk.old) (D.failures disk.new) result }
    ensures disk { StaysWhole D.Disk disk.old disk.new }
    ensures found { MatchResult result
        (λ found. EachGives (StandsForPaths (queue_side F.FileKinds files.now D.Disk disk.old))
        (map string_bytes paths.now) (map string_bytes found.items))
        (FaultSays (SaysEmptyFolder (queue_side F.FileKinds files.now D.Disk disk.old)
        (map string_bytes paths.now)) (SaysUnlisted (queue_side F.FileKinds files.now D.Disk disk.old)
        (map string_bytes paths.now))) }
{
    let mut found = Vec::new(alloc);
    for path in paths {
        let mut own = match recordings_at(alloc, files, disk, path.as_str()) {
            Ok(own) => own,
            Err(fault) => return Err(fault),
        };
        if let Err(_refused) = found.append(&mut own) {
            return Err(QueueFault::Memory);
        }
    }
    Ok(found)
}

/// The paths of the recordings that a path stands for.
///
/// # Errors
/// Those of `find_recordings`.
fn recordings_at<F: FileKinds, D: Volume>(
    alloc: Global,
    files: &F,
    disk: &mut D,
    path: &str,
) -> Result<Vec<String>, QueueFault>
    ensures counts { CountsUnreadPaths ⊥ (D.failures disk.old) (D.failures disk.new) result }
    ensures disk { StaysWhole D.Disk disk.old disk.new }
    ensures found { MatchResult result
        (λ own. StandsForPaths (queue_side F.FileKinds files.now D.Disk disk.old) path.now
        (map string_bytes own.items))
        (FaultSays
        (λ line. F.kinds files.now path.now IsFolder
        × ListsRecordings (queue_side F.FileKinds files.now D.Disk disk.old) path.now []
        × (line ≡ no_recordings_text path.now))
        (λ line. F.kinds files.now path.now IsFolder × (line ≡ unreadable_text path.now))) }
{
    match files.kind_at(path) {
        FileKind::Folder => recordings_in(alloc, files, disk, path),
        _ => match path_alone(alloc, path) {
            Ok(paths) => Ok(paths),
            Err(_) => Err(QueueFault::Memory),
        },
    }
}

/// A path as the only one.
fn path_alone(alloc: Global, path: &str) -> Result<Vec<String>, AllocError>
    ensures { IfOk result (λ paths. map string_bytes paths.items ≡ path.now ∷ []) }
{
    let mut paths = Vec::new(alloc);
    paths.push(String::from_str(alloc, path)?)?;
    Ok(paths)
}

/// The paths of a folder's recordings, in the order of their bytes.
///
/// # Errors
/// Those of `find_recordings`.
fn recordings_in<F: FileKinds, D: Volume>(
    alloc: Global,
    files: &F,
    disk: &mut D,
    folder: &str,
) -> Result<Vec<String>, QueueFault>
    ensures counts { CountsUnreadPaths ⊥ (D.failures disk.old) (D.failures disk.new) result }
    ensures disk { StaysWhole D.Disk disk.old disk.new }
    ensures found { MatchResult result
        (λ own. ListsRecordings (queue_side F.FileKinds files.now D.Disk disk.old) folder.now
        (map string_bytes own.items) × (map string_bytes own.items ≢ []))
        (FaultSays
        (λ line. ListsRecordings (queue_side F.FileKinds files.now D.Disk disk.old) folder.now []
        × (line ≡ no_recordings_text folder.now))
        (λ line. line ≡ unreadable_text folder.now)) }
{
    match disk.list(folder) {
        Ok(names) => match recordings_of(alloc, files, folder, &names) {
            Ok(paths) => {
                if paths.is_empty() {
                    Err(without_recordings(alloc, folder))
                } else {
                    Ok(paths)
                }
            }
            Err(_) => Err(QueueFault::Memory),
        },
        Err(ReadFault::Disk) => Err(unreadable(alloc, folder)),
        Err(ReadFault::Memory) => Err(QueueFault::Memory),
    }
}

/// The paths of the recordings among a folder's files of these names, in the order of their bytes.
fn recordings_of<F: FileKinds>(
    alloc: Global,
    files: &F,
    folder: &str,
    names: &[String],
) -> Result<Vec<String>, AllocError>
    ensures { IfOk result (λ own. (found : List (List ℕ))
        × EachGives (GivesRecording (F.kinds files.now) folder.now) (map string_bytes names.now) found
        × IsPermutation found (map string_bytes own.items)
        × IsSorted (slice_cmp nat_cmp) (map string_bytes own.items)) }
{
    let mut paths = gather_recordings(alloc, files, folder, names)?;
    paths.sort()?;
    Ok(paths)
}

/// The paths of the recordings among a folder's files of these names, in this order.
fn gather_recordings<F: FileKinds>(
    alloc: Global,
    files: &F,
    folder: &str,
    names: &[String],
) -> Result<Vec<String>, AllocError>
    ensures { IfOk result (λ found. EachGives (GivesRecording (F.kinds files.now) folder.now)
        (map string_bytes names.now) (map string_bytes found.items)) }
{
    let mut paths = Vec::new(alloc);
    for name in names {
        put_recording(alloc, files, folder, name.as_str(), &mut paths)?;
    }
    Ok(paths)
}

/// Appends the path of a folder's file of this name, if it is a recording.
fn put_recording<F: FileKinds>(
    alloc: Global,
    files: &F,
    folder: &str,
    name: &str,
    paths: &mut Vec<String>,
) -> Result<(), AllocError>
    ensures { OnOk result ((own : List (List ℕ)) × GivesRecording (F.kinds files.now) folder.now name.now own
        × (map string_bytes paths.new.items ≡ map string_bytes paths.old.items ++ own)) }
{
    if !is_recording_name(name) {
        return Ok(());
    }
    let path = path_within(alloc, folder, name)?;
    if files.kind_at(path.as_str()).is_odd(false) {
        return Ok(());
    }
    paths.push(path)?;
    Ok(())
}

/// The path of a file in a folder, which may end with a slash.
///
/// # Errors
/// `AllocError` if memory was refused.
///
/// # Not specified
/// When memory is refused.
#[tactic(auto, using(std::proofs::lemmas::List::append_assoc), unfolding(crate::specs::FolderRecordings::path_within))]
pub fn path_within(alloc: Global, folder: &str, name: &str) -> Result<String, AllocError>
    ensures { IfOk result (λ path. string_bytes path ≡ path_of_file folder.now name.now) }
{
    let slash = slash_after(folder);
    format!(in alloc; "{folder}{slash}{name}")
}

/// What comes between a folder and its file: a slash, unless the folder ends with one.
fn slash_after(folder: &str) -> &'static str
    ensures { result.now ≡ slash_between folder.now }
{
    if is_slash_last(folder.as_bytes()) {
        ""
    } else {
        "/"
    }
}

/// Whether a path ends with a slash.
fn is_slash_last(path: &[u8]) -> bool
    ensures { result ≡ ends_with_slash path.now }
{
    let len = path.len();
    if len == 0 {
        return false;
    }
    path[len - 1] == b'/'
}

/// Whether a file's name is that of a recording.
fn is_recording_name(file: &str) -> bool
    ensures { MatchBool result (IsRecordingName file.now) (¬ IsRecordingName file.now) }
{
    let name = file.as_bytes();
    is_ended_by(name, b".wav") || is_ended_by(name, b".bw64") || is_ended_by(name, b".rf64")
}

/// Whether the last bytes of a file's name are this ending, in small letters or not.
fn is_ended_by(file: &[u8], ending: &[u8]) -> bool
    requires { map to_ascii_lowercase ending.now ≡ ending.now }
    ensures { IsTrue result ↔ IsEndedBy ending.now file.now }
{
    let start = file.len().saturating_sub(ending.len());
    file[start..].eq_ignore_ascii_case(ending)
}
