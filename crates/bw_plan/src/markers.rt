//! The markers that a take has of a file's cue points.
ghost use Rattle.std.specs.Prelude.{◌≡◌, ◌==◌, IfOk, OnOk};
ghost use Rattle.std.specs.List.{list_any};
ghost use Rattle.bw_plan.specs.CleanedContents.{is_marker_kept, with_cue, markers_of};

use bw_layout::{CuePoint, RawCue};
use std::alloc::{AllocError, Global};

/// A take has at most so many markers.
const MARKERS_MAX: usize = 1024;

/// The markers of a take of so many frames: those of the cue points, in their order, that aren't
/// past its end and have a new identifier, up to 1,024.
///
/// # Errors
/// `AllocError` where memory was refused.
pub(crate) fn markers(
    alloc: Global,
    frames: u64,
    cues: &[RawCue],
) -> Result<Vec<CuePoint>, AllocError>
    ensures { IfOk result (λ v. v.items ≡ markers_of frames cues.now) }
{
    let mut kept = Vec::new(alloc);
    for (_i, cue) in cues.iter().enumerate() {
        keep(frames, &mut kept, cue)?;
    }
    Ok(kept)
}

/// Puts a cue point after the markers, if it is kept.
///
/// # Errors
/// `AllocError` where memory was refused.
fn keep(frames: u64, kept: &mut Vec<CuePoint>, cue: &RawCue) -> Result<(), AllocError>
    ensures { OnOk result (kept.new.items ≡ with_cue frames kept.old.items cue.now) }
{
    if !is_kept(frames, kept.as_slice(), cue) {
        return Ok(());
    }
    kept.push(CuePoint {
        id: cue.id,
        frame: cue.offset,
    })?;
    Ok(())
}

fn is_kept(frames: u64, kept: &[CuePoint], cue: &RawCue) -> bool
    ensures { result ≡ is_marker_kept frames kept.now cue.now }
{
    u64::from(cue.offset) <= frames && !has_marker(kept, cue.id) && kept.len() < MARKERS_MAX
}

/// Whether a marker has this identifier.
fn has_marker(markers: &[CuePoint], id: u32) -> bool
    ensures { result ≡ list_any (λ m. m.0 == id) markers.now }
{
    markers.iter().any(|marker| marker.id == id)
}
