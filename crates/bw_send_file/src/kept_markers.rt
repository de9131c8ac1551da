//! The markers of a recording, of those that were placed in it.
ghost use Rattle.std.specs.Prelude.{◌≡◌, ◌==◌, IfOk, OnOk};
ghost use Rattle.std.specs.List.{list_any};
ghost use Rattle.bw_plan.specs.CleanedContents.{is_marker_kept};
ghost use Rattle.bw_send_file.specs.Marked.{cue_placed, markers_placed, with_mark};

use bw_layout::CuePoint;
use std::alloc::{AllocError, Global};

/// A take has at most so many markers.
const MOST_MARKERS: usize = 1024;

/// The markers of a recording of so many frames: those that were placed, in their order, that aren't
/// past its end and have a new identifier, up to 1,024.
///
/// # Errors
/// `AllocError` if memory was refused.
pub(crate) fn kept_markers(
    alloc: Global,
    frames: u64,
    placed: &[CuePoint],
) -> Result<Vec<CuePoint>, AllocError>
    ensures { IfOk result (λ v. v.items ≡ markers_placed frames placed.now) }
{
    let mut kept = Vec::new(alloc);
    for (_i, point) in placed.iter().enumerate() {
        keep(frames, &mut kept, point)?;
    }
    Ok(kept)
}

/// Puts a point after the markers, if it is one.
///
/// # Errors
/// `AllocError` if memory was refused.
fn keep(frames: u64, kept: &mut Vec<CuePoint>, point: &CuePoint) -> Result<(), AllocError>
    ensures { OnOk result (kept.new.items ≡ with_mark frames kept.old.items point.now) }
{
    if !is_kept(frames, kept.as_slice(), point) {
        return Ok(());
    }
    kept.push(*point)?;
    Ok(())
}

fn is_kept(frames: u64, kept: &[CuePoint], point: &CuePoint) -> bool
    ensures { result ≡ is_marker_kept frames kept.now (cue_placed point.now) }
{
    u64::from(point.frame) <= frames && !has_marker(kept, point.id) && kept.len() < MOST_MARKERS
}

/// Whether a marker has this identifier.
fn has_marker(markers: &[CuePoint], id: u32) -> bool
    ensures { result ≡ list_any (λ m. m.0 == id) markers.now }
{
    markers.iter().any(|marker| marker.id == id)
}
