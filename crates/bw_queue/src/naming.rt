//! Recordings are given the names of their takes.
ghost use Rattle.std.specs.Prelude.{◌≡◌, ◌≢◌, ◌⊎◌, ◌<◌, All, IfOk, IsTrue, MatchOption, MatchResult, length};
ghost use Rattle.std.specs.Prelude.{map};
ghost use Rattle.std.specs.Prelude.{string_bytes};
ghost use Rattle.bw_queue.specs.NamedRecordings.{AreNamedApart, AreNamed, IsNameFor, IsNameless, IsOneNamed};
ghost use Rattle.bw_queue.specs.NamedRecordings.{queued_path};
ghost use Rattle.bw_queue.specs.NamedRecordings.{SaysAlike, SaysNameless};
ghost use Rattle.bw_queue.specs.QueueFaults.{FaultSays, nameless_text};

use crate::fault::{QueueFault, alike, nameless};
use crate::namings::name_in;
use crate::path_name::name_of_path;
use crate::recording::QueuedRecording;
use bw_model::Name;
use std::alloc::{AllocError, Global};

/// The recordings at these paths, each with its name.
///
/// # Errors
/// `Refused` with the line of a path that has no name; `Memory`.
pub(crate) fn name_recordings(
    alloc: Global,
    lines: &[&[u8]],
    paths: &[String],
) -> Result<Vec<QueuedRecording>, QueueFault>
    ensures { MatchResult result
        (λ recordings. AreNamed (map (λ x. x.now) lines.now) (map string_bytes paths.now) recordings.items)
        (FaultSays (SaysNameless (map (λ x. x.now) lines.now) (map string_bytes paths.now)) (λ line. ⊥)) }
{
    let mut recordings = Vec::new(alloc);
    for path in paths {
        let recording = match name_recording(alloc, lines, path.as_str()) {
            Ok(recording) => recording,
            Err(fault) => return Err(fault),
        };
        if let Err(_refused) = recordings.push(recording) {
            return Err(QueueFault::Memory);
        }
    }
    Ok(recordings)
}

/// The recording at a path, with its name.
fn name_recording(alloc: Global, lines: &[&[u8]], path: &str) -> Result<QueuedRecording, QueueFault>
    ensures { MatchResult result
        (λ recording. (queued_path recording ≡ path.now)
        × IsNameFor (map (λ x. x.now) lines.now) path.now recording.name)
        (FaultSays (λ line. IsNameless (map (λ x. x.now) lines.now) path.now
        × (line ≡ nameless_text path.now))
        (λ line. ⊥)) }
{
    match name_for(alloc, lines, path)? {
        Some(name) => Ok(QueuedRecording {
            name,
            path: String::from_str(alloc, path)?,
        }),
        None => Err(nameless(alloc, path)),
    }
}

/// The name of the recording at a path: the one that a line gives it, or else the one that the path makes.
fn name_for(alloc: Global, lines: &[&[u8]], path: &str) -> Result<Option<Name>, AllocError>
    ensures { IfOk result (λ found. MatchOption found (IsNameless (map (λ x. x.now) lines.now) path.now)
        (IsNameFor (map (λ x. x.now) lines.now) path.now)) }
{
    match name_in(lines, path.as_bytes()) {
        Some(name) => Ok(Some(name)),
        None => name_of_path(alloc, path),
    }
}

/// Refuses recordings of which two have one name.
///
/// # Errors
/// `Refused` with the line of both; `Memory`.
pub(crate) fn refuse_alike(alloc: Global, recordings: &[QueuedRecording]) -> Result<(), QueueFault>
    ensures { MatchResult result (λ done. AreNamedApart recordings.now)
        (FaultSays (SaysAlike recordings.now) (λ line. ⊥)) }
{
    for place in 0..recordings.len() {
        let second = &recordings[place];
        if let Some(first) = one_named(&recordings[..place], &second.name) {
            return Err(alike(alloc, first.path.as_str(), second.path.as_str()));
        }
    }
    Ok(())
}

/// One of these recordings that has this name, if there is one.
fn one_named<'a>(recordings: &'a [QueuedRecording], name: &Name) -> Option<&'a QueuedRecording>
    ensures { MatchOption result (All (λ recording. recording.name ≢ name.now) recordings.now)
        (λ found. IsOneNamed recordings.now name.now found.now) }
{
    for recording in recordings {
        if recording.name == *name {
            return Some(recording);
        }
    }
    None
}
