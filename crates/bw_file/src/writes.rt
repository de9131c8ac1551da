//! The writes of a growing file: each leaves what its caller can still repair.
ghost use Rattle.std.specs.Prelude.{◌≡◌, ◌≤◌, ◌<◌, ◌+◌, ◌*◌, ◌%◌, ◌^◌, ◌++◌, ℕ, OnOk};
ghost use Rattle.std.specs.Prelude.{OnErr, length, is_err, flat_map, not};
ghost use Rattle.bw_model.specs.Limits.{largest, most_markers};
ghost use Rattle.bw_model.specs.Layout.{chunk, pad};
ghost use Rattle.bw_model.specs.File.{cue_chunks};
ghost use Rattle.bw_file.specs.Conditions.{is_clean};
ghost use Rattle.bw_store.specs.Stores.{MayTear};
ghost use Rattle.bw_store.specs.StoreSteps.{Shared, WasAsked, WasAskedFirst};
ghost use Rattle.bw_store.specs.StoreSteps.{TearsIn, PutsIn};
ghost use Rattle.bw_file.specs.Plans.{samples_plan, cues_plan, header_plan, sizes_plan, form_plan};
ghost use Rattle.bw_file.specs.Plans.{grown_plan, closed_plan, field_plan, set_plan};
ghost use Rattle.bw_file.specs.Headers.{PutsLast, PutsHeader, PutsOver, Updates};
ghost use Rattle.bw_file.specs.OneField.{DiffersInField};
ghost use Rattle.bw_layout.specs.Headings.{header_of, place_of, fits_riff};

use crate::buffer::Buffer;
use crate::change::changed_range;
use crate::condition::Condition;
use bw_layout::{CuePoint, Heading, patch_sizes};
use bw_model::Name;
use bw_store::{StoreFault, TakeStore};

/// Writes samples where the data end, and a pad byte if the file's length would be odd.
pub(crate) fn put_samples<S: TakeStore>(
    store: &mut S,
    name: &Name,
    place: u64,
    samples: &[u8],
) -> Result<(), StoreFault>
    requires { place + length samples.now < 2 ^ 63 }
    ensures shared { Shared S.TakeStore (is_err result) name.now store.old store.new }
    ensures order { OnOk result (WasAsked S.TakeStore
        (samples_plan name.now place (length samples.now)) store.old store.new) }
    ensures begun { OnErr result (WasAskedFirst S.TakeStore
        (samples_plan name.now place (length samples.now)) store.old store.new) }
    ensures torn { TearsIn S.TakeStore name.now place
        (length samples.now + (place + length samples.now) % 2) store.old store.new }
    ensures put { PutsIn S.TakeStore result name.now
        (PutsLast place (samples.now ++ pad (place + length samples.now))) store.old store.new }
{
    store.write_at(name, place, samples)?;
    let end = place + samples.len() as u64;
    if end % 2 == 1 {
        store.write_at(name, end, &[0])?;
    }
    Ok(())
}

/// Writes the `cue ` chunk where the data chunk ends, if there are markers.
pub(crate) fn put_cues<S: TakeStore>(
    store: &mut S,
    name: &Name,
    buffer: &mut Buffer,
    place: u64,
    markers: &[CuePoint],
) -> Result<(), StoreFault>
    requires place { place < 2 ^ 63 }
    requires markers { length markers.now ≤ most_markers }
    ensures shared { Shared S.TakeStore (is_err result) name.now store.old store.new }
    ensures order { OnOk result (WasAsked S.TakeStore
        (cues_plan name.now place (length markers.now)) store.old store.new) }
    ensures begun { OnErr result (WasAskedFirst S.TakeStore
        (cues_plan name.now place (length markers.now)) store.old store.new) }
    ensures torn { TearsIn S.TakeStore name.now place
        (length (flat_map chunk (cue_chunks markers.now))) store.old store.new }
    ensures put { PutsIn S.TakeStore result name.now
        (PutsLast place (flat_map chunk (cue_chunks markers.now))) store.old store.new }
{
    if markers.is_empty() {
        return Ok(());
    }
    buffer.build_cues(markers);
    store.write_at(name, place, buffer.bytes())?;
    Ok(())
}

/// Writes a whole header, whatever is before the data.
pub(crate) fn put_header<S: TakeStore>(
    store: &mut S,
    name: &Name,
    buffer: &mut Buffer,
    heading: &Heading<'_>,
    data_len: u64,
    cues: u64,
) -> Result<(), StoreFault>
    requires samples { data_len ≤ largest }
    requires cues { cues ≤ most_markers }
    ensures shared { Shared S.TakeStore (is_err result) name.now store.old store.new }
    ensures order { OnOk result (WasAsked S.TakeStore
        (header_plan name.now (place_of heading.now)) store.old store.new) }
    ensures begun { OnErr result (WasAskedFirst S.TakeStore
        (header_plan name.now (place_of heading.now)) store.old store.new) }
    ensures torn { TearsIn S.TakeStore name.now 0 (place_of heading.now) store.old store.new }
    ensures put { PutsIn S.TakeStore result name.now
        (PutsHeader (header_of heading.now data_len cues)) store.old store.new }
    ensures first { PutsIn S.TakeStore result name.now
        (PutsLast 0 (header_of heading.now data_len cues)) store.old store.new }
{
    buffer.build_header(heading, data_len, cues);
    store.write_at(name, 0, buffer.bytes())?;
    Ok(())
}

/// Updates the header of a file without cue points from one length of its data to a longer one.
///
/// For a clean file that stays RIFF, or BW64, only the sizes are written.
pub(crate) fn put_grown_header<S: TakeStore>(
    condition: Condition,
    store: &mut S,
    name: &Name,
    buffer: &mut Buffer,
    heading: &Heading<'_>,
    before: u64,
    after: u64,
) -> Result<(), StoreFault>
    requires grows { before ≤ after }
    requires samples { after ≤ largest }
    ensures shared { Shared S.TakeStore (is_err result) name.now store.old store.new }
    ensures order { OnOk result (WasAsked S.TakeStore
        (grown_plan (is_clean condition) name.now (place_of heading.now)
        (fits_riff heading.now before 0) (fits_riff heading.now after 0)) store.old store.new) }
    ensures begun { OnErr result (WasAskedFirst S.TakeStore
        (grown_plan (is_clean condition) name.now (place_of heading.now)
        (fits_riff heading.now before 0) (fits_riff heading.now after 0)) store.old store.new) }
    ensures torn { TearsIn S.TakeStore name.now 0 (place_of heading.now) store.old store.new }
    ensures put { PutsIn S.TakeStore result name.now
        (PutsOver (is_clean condition) (header_of heading.now before 0)
        (header_of heading.now after 0)) store.old store.new }
{
    if condition.is_clean() && heading.is_riff(before, 0) == heading.is_riff(after, 0) {
        put_grown_sizes(store, name, heading, before, after)?;
        return Ok(());
    }
    put_header(store, name, buffer, heading, after, 0)?;
    Ok(())
}

/// Updates the header of a file for the cue points after its data.
///
/// For a clean file that stays RIFF, or BW64, only the form size is written, and nothing without
/// cue points.
pub(crate) fn put_closed_header<S: TakeStore>(
    condition: Condition,
    store: &mut S,
    name: &Name,
    buffer: &mut Buffer,
    heading: &Heading<'_>,
    data_len: u64,
    cues: u64,
) -> Result<(), StoreFault>
    requires samples { data_len ≤ largest }
    requires cues { cues ≤ most_markers }
    ensures shared { Shared S.TakeStore (is_err result) name.now store.old store.new }
    ensures order { OnOk result (WasAsked S.TakeStore
        (closed_plan (is_clean condition) name.now (place_of heading.now)
        (fits_riff heading.now data_len 0) (fits_riff heading.now data_len cues) cues)
        store.old store.new) }
    ensures begun { OnErr result (WasAskedFirst S.TakeStore
        (closed_plan (is_clean condition) name.now (place_of heading.now)
        (fits_riff heading.now data_len 0) (fits_riff heading.now data_len cues) cues)
        store.old store.new) }
    ensures torn { TearsIn S.TakeStore name.now 0 (place_of heading.now) store.old store.new }
    ensures put { PutsIn S.TakeStore result name.now
        (PutsOver (is_clean condition) (header_of heading.now data_len 0)
        (header_of heading.now data_len cues)) store.old store.new }
{
    if condition.is_clean() && heading.is_riff(data_len, 0) == heading.is_riff(data_len, cues) {
        put_closed_size(store, name, heading, data_len, cues)?;
        return Ok(());
    }
    put_header(store, name, buffer, heading, data_len, cues)?;
    Ok(())
}

/// Updates the header of a file without cue points to a heading with another `bext`.
///
/// For a clean file only the changed field is written.
pub(crate) fn put_retouched_header<S: TakeStore>(
    condition: Condition,
    store: &mut S,
    name: &Name,
    buffer: &mut Buffer,
    heading: &Heading<'_>,
    retouched: &Heading<'_>,
    data_len: u64,
) -> Result<(), StoreFault>
    requires place { place_of retouched.now ≡ place_of heading.now }
    requires samples { data_len ≤ largest }
    requires field { (tag : ℕ) × DiffersInField tag
        (header_of heading.now data_len 0) (header_of retouched.now data_len 0) }
    ensures shared { Shared S.TakeStore (is_err result) name.now store.old store.new }
    ensures order { (tag : ℕ) →
        DiffersInField tag (header_of heading.now data_len 0) (header_of retouched.now data_len 0) →
        OnOk result (WasAsked S.TakeStore
        (set_plan (is_clean condition) name.now (place_of heading.now) tag
        (header_of heading.now data_len 0) (header_of retouched.now data_len 0))
        store.old store.new) }
    ensures begun { (tag : ℕ) →
        DiffersInField tag (header_of heading.now data_len 0) (header_of retouched.now data_len 0) →
        OnErr result (WasAskedFirst S.TakeStore
        (set_plan (is_clean condition) name.now (place_of heading.now) tag
        (header_of heading.now data_len 0) (header_of retouched.now data_len 0))
        store.old store.new) }
    ensures torn { TearsIn S.TakeStore name.now 0 (place_of heading.now) store.old store.new }
    ensures put { PutsIn S.TakeStore result name.now
        (PutsOver (is_clean condition) (header_of heading.now data_len 0)
        (header_of retouched.now data_len 0)) store.old store.new }
{
    if condition.is_clean() {
        put_field(store, name, buffer, heading, retouched, data_len)?;
        return Ok(());
    }
    put_header(store, name, buffer, retouched, data_len, 0)?;
    Ok(())
}

/// Writes the sizes of longer data into a header that stays RIFF, or BW64.
fn put_grown_sizes<S: TakeStore>(
    store: &mut S,
    name: &Name,
    heading: &Heading<'_>,
    before: u64,
    after: u64,
) -> Result<(), StoreFault>
    requires kind { fits_riff heading.now before 0 ≡ fits_riff heading.now after 0 }
    requires grows { before ≤ after }
    requires samples { after ≤ largest }
    ensures shared { Shared S.TakeStore (is_err result) name.now store.old store.new }
    ensures order { OnOk result (WasAsked S.TakeStore
        (sizes_plan name.now (place_of heading.now) (fits_riff heading.now after 0))
        store.old store.new) }
    ensures begun { OnErr result (WasAskedFirst S.TakeStore
        (sizes_plan name.now (place_of heading.now) (fits_riff heading.now after 0))
        store.old store.new) }
    ensures torn { TearsIn S.TakeStore name.now 0 (place_of heading.now) store.old store.new }
    ensures put { PutsIn S.TakeStore result name.now
        (Updates (header_of heading.now before 0) (header_of heading.now after 0))
        store.old store.new }
{
    let form = heading.form_size(after, 0);
    if form <= heading.limit.bytes() {
        store.write_at(name, 4, &(form as u32).to_le_bytes())?;
        store.write_at(
            name,
            heading.data_place() - 4,
            &(after as u32).to_le_bytes(),
        )?;
        return Ok(());
    }
    store.write_at(name, 20, &patch_sizes(form, after))?;
    Ok(())
}

/// Writes the form size with cue points into a header that stays RIFF, or BW64.
fn put_closed_size<S: TakeStore>(
    store: &mut S,
    name: &Name,
    heading: &Heading<'_>,
    data_len: u64,
    cues: u64,
) -> Result<(), StoreFault>
    requires kind { fits_riff heading.now data_len 0 ≡ fits_riff heading.now data_len cues }
    requires samples { data_len ≤ largest }
    requires cues { cues ≤ most_markers }
    ensures shared { Shared S.TakeStore (is_err result) name.now store.old store.new }
    ensures order { OnOk result (WasAsked S.TakeStore
        (form_plan name.now cues (fits_riff heading.now data_len cues)) store.old store.new) }
    ensures begun { OnErr result (WasAskedFirst S.TakeStore
        (form_plan name.now cues (fits_riff heading.now data_len cues)) store.old store.new) }
    ensures torn { TearsIn S.TakeStore name.now 0 (place_of heading.now) store.old store.new }
    ensures put { PutsIn S.TakeStore result name.now
        (Updates (header_of heading.now data_len 0) (header_of heading.now data_len cues))
        store.old store.new }
{
    if cues == 0 {
        return Ok(());
    }
    let form = heading.form_size(data_len, cues);
    if form <= heading.limit.bytes() {
        store.write_at(name, 4, &(form as u32).to_le_bytes())?;
        return Ok(());
    }
    store.write_at(name, 20, &form.to_le_bytes())?;
    Ok(())
}

/// Writes the part of a header that another `bext` changes, if it changes any.
fn put_field<S: TakeStore>(
    store: &mut S,
    name: &Name,
    buffer: &mut Buffer,
    heading: &Heading<'_>,
    retouched: &Heading<'_>,
    data_len: u64,
) -> Result<(), StoreFault>
    requires place { place_of retouched.now ≡ place_of heading.now }
    requires samples { data_len ≤ largest }
    requires field { (tag : ℕ) × DiffersInField tag
        (header_of heading.now data_len 0) (header_of retouched.now data_len 0) }
    ensures shared { Shared S.TakeStore (is_err result) name.now store.old store.new }
    ensures order { (tag : ℕ) →
        DiffersInField tag (header_of heading.now data_len 0) (header_of retouched.now data_len 0) →
        OnOk result (WasAsked S.TakeStore
        (field_plan name.now tag
        (header_of heading.now data_len 0) (header_of retouched.now data_len 0))
        store.old store.new) }
    ensures begun { (tag : ℕ) →
        DiffersInField tag (header_of heading.now data_len 0) (header_of retouched.now data_len 0) →
        OnErr result (WasAskedFirst S.TakeStore
        (field_plan name.now tag
        (header_of heading.now data_len 0) (header_of retouched.now data_len 0))
        store.old store.new) }
    ensures torn { TearsIn S.TakeStore name.now 0 (place_of heading.now) store.old store.new }
    ensures put { PutsIn S.TakeStore result name.now
        (Updates (header_of heading.now data_len 0) (header_of retouched.now data_len 0))
        store.old store.new }
{
    buffer.build_headers(heading, retouched, data_len);
    let (before, after) = buffer.bytes().split_at(heading.data_place() as usize);
    let Some((place, len)) = changed_range(before, after) else {
        return Ok(());
    };
    let from = place as usize;
    store.write_at(name, place, &after[from..from + len as usize])?;
    Ok(())
}
