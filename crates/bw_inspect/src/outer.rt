//! The outer header of a file.
ghost use Rattle.std.specs.Prelude.{◌≡◌, ◌+◌, ◌-◌, ◌^◌, ◌≤◌, min, IsTrue, None, OnOk, IfOk, IfErr};
ghost use Rattle.std.specs.Prelude.{◌==◌, if◌then◌else◌};
ghost use Rattle.bw_model.specs.Limits.{largest};
ghost use Rattle.bw_model.specs.Bytes.{first_that_holds, unsaid};
ghost use Rattle.bw_inspect.specs.ReaderCalls.{Consumes, longest_end};
ghost use Rattle.bw_inspect.specs.Faults.{bytes_fault, is_of_bytes};
ghost use Rattle.bw_inspect.specs.Places.{Nowhere};
ghost use Rattle.bw_stream.specs.Readers.{Of};
ghost use Rattle.bw_inspect.specs.Contents.{IsStopped};
ghost use Rattle.bw_inspect.specs.OtherFormats.{NamesFormat};
ghost use Rattle.bw_inspect.specs.Outers.{BeginsForm, IsOpened, IsOutside, OnWide, form_faults};
ghost use Rattle.bw_inspect.specs.Outers.{names_form, opening_faults};
ghost use Rattle.bw_inspect.specs.Walks.{IsSmall};

use crate::chunk::{LARGEST, is_named};
use crate::ds64::{read_ds64, read_ds64_head};
use crate::fault::{InspectFault, InspectKind, fault_at};
use crate::other::{OtherFormat, other_format};
use crate::places::read_at;
use crate::walk::{Form, Walk, begin, list_chunk};
use bw_layout::{ChunkHead, ChunkId};
use bw_model::{read_id, read_u32};
use bw_stream::Source;
use std::alloc::Global;

/// Reads the outer header, and in BW64 and RF64 the `ds64` chunk after it. `other` becomes the
/// format that the first bytes name, if that is none that is read.
///
/// # Errors
/// The first fault of the outer header; Read; Memory.
pub(crate) fn read_outer<R: Source>(
    alloc: Global,
    reader: &mut R,
    other: &mut Option<OtherFormat>,
) -> Result<(Form, Walk), InspectFault>
    ensures consumed { Consumes R.Source longest_end result reader.old reader.new }
    ensures passed { IfOk result (λ r.
        R.moved reader.new ≤ R.moved reader.old + min r.1.place (8 + r.0.size)) }
    ensures size { IfOk result (λ r. r.0.size ≤ largest) }
    ensures place { IfOk result (λ r. r.1.place ≤ r.0.size + 9) }
    ensures small { IfOk result (λ r. IsSmall r.1) }
    ensures ok { IfOk result (λ r. Of (R.left reader.old) (λ b.
        BeginsForm b r.0 r.1 (R.left reader.new))) }
    ensures err { IfErr result (λ f. Of (R.left reader.old) (λ b.
        IsOutside b f (R.left reader.new))) }
    ensures other { NamesFormat result (R.left reader.old) other.new }
{
    let opening = read_opening(reader, other)?;
    if !is_named(opening.id, *b"RIFF") {
        return read_wide(alloc, reader, opening);
    }
    if opening.size32 == u32::MAX {
        return Err(fault_at(InspectKind::NoSize, 4));
    }
    let size = opening.size32 as u64;
    check_form_size(size)?;
    let form = Form {
        id: opening.id,
        size,
        sizes: None,
    };
    Ok((form, begin(alloc)))
}

/// Reads the first 12 bytes of a file: the form's id, its size as far as four bytes can hold it,
/// and `WAVE`; and the format that they name, if it is another.
///
/// # Errors
/// NotWave; Read.
fn read_opening<R: Source>(
    reader: &mut R,
    other: &mut Option<OtherFormat>,
) -> Result<ChunkHead, InspectFault>
    ensures consumed { Consumes R.Source 12 result reader.old reader.new }
    ensures ok { IfOk result (λ h. Of (R.left reader.old) (λ b.
        IsOpened b h (R.left reader.new))) }
    ensures err { IfErr result (λ f. Of (R.left reader.old) (λ b.
        IsStopped b 12 12 Nowhere (opening_faults b) f (R.left reader.new))) }
    ensures other { NamesFormat result (R.left reader.old) other.new }
{
    let mut bytes = [0; 12];
    *other = None;
    read_at(reader, 0, &mut bytes, fault_at(InspectKind::NotWave, 0))?;
    *other = other_format(&bytes);
    let id = ChunkId(read_id(&bytes, 0));
    if !is_form(id) {
        return Err(fault_at(InspectKind::NotWave, 0));
    }
    if !is_named(ChunkId(read_id(&bytes, 8)), *b"WAVE") {
        return Err(fault_at(InspectKind::NotWave, 8));
    }
    Ok(ChunkHead {
        id,
        size32: read_u32(&bytes, 4),
    })
}

/// Whether an id is that of a form that is read.
fn is_form(id: ChunkId) -> bool
    ensures { result ≡ names_form id }
{
    is_named(id, *b"RIFF") || is_named(id, *b"BW64") || is_named(id, *b"RF64")
}

/// Reads what comes before the second chunk of a BW64 or RF64 file, after its opening.
fn read_wide<R: Source>(
    alloc: Global,
    reader: &mut R,
    opening: ChunkHead,
) -> Result<(Form, Walk), InspectFault>
    ensures consumed { Consumes R.Source (longest_end - 12) result reader.old reader.new }
    ensures passed { IfOk result (λ r.
        R.moved reader.new + 12 ≤ R.moved reader.old + min r.1.place (8 + r.0.size)) }
    ensures size { IfOk result (λ r. r.0.size ≤ largest) }
    ensures place { IfOk result (λ r. r.1.place ≤ r.0.size + 9) }
    ensures small { IfOk result (λ r. IsSmall r.1) }
    ensures ok { IfOk result (λ r. OnWide opening (R.left reader.old) (λ b.
        BeginsForm b r.0 r.1 (R.left reader.new))) }
    ensures err { IfErr result (λ f. OnWide opening (R.left reader.old) (λ b.
        IsOutside b f (R.left reader.new))) }
{
    let entry = read_ds64_head(reader)?;
    let sizes = read_ds64(alloc, reader, entry)?;
    let size = form_size(opening.size32, sizes.form);
    check_form_size(size)?;
    if 8 + size < entry.place + 8 + entry.size {
        return Err(fault_at(InspectKind::Truncated, entry.place));
    }
    let mut walk = begin(alloc);
    list_chunk(reader, 8 + size, &mut walk, entry)?;
    let form = Form {
        id: opening.id,
        size,
        sizes: Some(sizes),
    };
    Ok((form, walk))
}

/// The size of a form if `ds64` gives one too: that of the outer header, if it can hold it.
fn form_size(size32: u32, reported: u64) -> u64
    ensures { result ≡ (if size32 == unsaid then reported else size32) }
{
    if size32 == u32::MAX {
        reported
    } else {
        size32 as u64
    }
}

/// Whether a form may have a size.
///
/// # Errors
/// TooLarge, NotWave.
fn check_form_size(size: u64) -> Result<(), InspectFault>
    ensures small { OnOk result (size ≤ largest) }
    ensures large { OnOk result (4 ≤ size) }
    ensures ok { OnOk result (first_that_holds (form_faults size) ≡ None) }
    ensures kind { IfErr result (λ f. IsTrue (is_of_bytes f.kind)) }
    ensures err { IfErr result (λ f. bytes_fault f ≡ first_that_holds (form_faults size)) }
{
    if size > LARGEST {
        return Err(fault_at(InspectKind::TooLarge, 4));
    }
    if size < 4 {
        return Err(fault_at(InspectKind::NotWave, 4));
    }
    Ok(())
}
