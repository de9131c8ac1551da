//! Which marker a line becomes.
ghost use Rattle.std.specs.Prelude.{◌≡◌, ◌==◌};
ghost use Rattle.std.specs.List.{list_any};
ghost use Rattle.bw_live.specs.MarkPlaces.{admitted_mark, greatest_id as greatest_label, later_id};
ghost use Rattle.bw_live.specs.MarkPlaces.{next_id as next_label, placed_mark};

use crate::answer::{MarkFault, MarkWish};
use bw_layout::CuePoint;

/// A take has at most so many markers.
const MOST_MARKERS: usize = 1024;

/// The marker that is asked for at a frame, after these.
///
/// # Errors
/// Why there is none.
pub fn place(markers: &[CuePoint], frame: u64, wish: MarkWish) -> Result<CuePoint, MarkFault>
    ensures { result ≡ placed_mark markers.now frame wish }
{
    match wish {
        MarkWish::Next => admit(markers, frame, next_id(markers)),
        MarkWish::Labelled(id) => admit(markers, frame, id),
        MarkWish::Unknown => Err(MarkFault::Unknown),
    }
}

/// A marker with this identifier, if it may be one.
///
/// # Errors
/// Why it may not.
fn admit(markers: &[CuePoint], frame: u64, id: u32) -> Result<CuePoint, MarkFault>
    ensures { result ≡ admitted_mark markers.now frame id }
{
    if has_marker(markers, id) {
        return Err(MarkFault::Taken);
    }
    if markers.len() >= MOST_MARKERS {
        return Err(MarkFault::TooMany);
    }
    if frame > 4_294_967_295 {
        return Err(MarkFault::TooLate);
    }
    Ok(CuePoint {
        id,
        frame: frame as u32,
    })
}

/// Whether a marker has this identifier.
fn has_marker(markers: &[CuePoint], id: u32) -> bool
    ensures { result ≡ list_any (λ m. m.0 == id) markers.now }
{
    markers.iter().any(|marker| marker.id == id)
}

/// The identifier after the greatest; the greatest there is after itself.
fn next_id(markers: &[CuePoint]) -> u32
    ensures { result ≡ next_label markers.now }
{
    greatest_id(markers).saturating_add(1)
}

/// The greatest identifier, 0 where there is no marker.
fn greatest_id(markers: &[CuePoint]) -> u32
    ensures { result ≡ greatest_label markers.now }
{
    let mut greatest = 0;
    for (_i, marker) in markers.iter().enumerate() {
        greatest = later(greatest, marker);
    }
    greatest
}

fn later(greatest: u32, marker: &CuePoint) -> u32
    ensures { result ≡ later_id greatest marker.now }
{
    greatest.max(marker.id)
}
