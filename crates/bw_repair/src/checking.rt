//! What a file reads as with its new sizes.
ghost use Rattle.std.specs.Prelude.{◌≡◌, ◌+◌, ◌^◌, ◌<◌, ◌≤◌, length, Some, IfOk, IfErr};
ghost use Rattle.bw_stream.specs.Readers.{Of};
ghost use Rattle.bw_repair.specs.Overlays.{overlaid};
ghost use Rattle.bw_repair.specs.RepairedFiles.{FaultsAs, IsReadAs, with_sizes};

use crate::decision::Sizes;
use crate::overlay::Overlay;
use bw_inspect::{InspectFault, Report, inspect};
use bw_stream::Source;
use std::alloc::Global;

/// Inspects a file as it would be with these sizes, where the head of its samples is at a place of
/// at least 12. The reader is at its start.
///
/// # Errors
/// The first fault that the file would have; Read; Memory.
///
/// # Not specified
/// - When memory is refused.
/// - Whether the reader, which is dropped, counted a failed read.
pub fn check<R: Source + Drop>(
    alloc: Global,
    reader: R,
    place: u64,
    sizes: Sizes,
) -> Result<Report, InspectFault>
    requires near { place < 2 ^ 62 }
    requires following { 12 ≤ place }
    // With these sizes the file has a reading, of which this is the report.
    ensures ok { IfOk result (λ r. Of (R.left reader) (λ b.
        place + 8 ≤ length b → IsReadAs (with_sizes b place sizes) r)) }
    ensures err { IfErr result (λ f. Of (R.left reader) (λ b.
        place + 8 ≤ length b → FaultsAs (with_sizes b place sizes) f)) }
{
    let data = sizes.data.to_le_bytes();
    let form = sizes.form.to_le_bytes();
    let mut whole = with_bytes(reader, place, &form, &data);
    inspect(alloc, &mut whole)
}

/// A file with these bytes for the size of its form and for that of its samples, whose head is at a
/// place.
fn with_bytes<'a, R: Source>(
    reader: R,
    place: u64,
    form_size: &'a [u8],
    samples_size: &'a [u8],
) -> Overlay<'a, Overlay<'a, R>>
    requires { place < 2 ^ 62 }
    ensures { Of (R.left reader) (λ b. ⟦<Overlay<'a, Overlay<'a, R>> as Source>⟧.left result
        ≡ Some (overlaid 4 form_size.now (overlaid (place + 4) samples_size.now b))) }
{
    let samples = Overlay::new(reader, place + 4, samples_size);
    Overlay::new(samples, 4, form_size)
}
