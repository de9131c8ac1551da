//! Kinds of chunks, and the sizes that they may have.
ghost use Rattle.std.specs.Prelude.{◌≡◌, ◌+◌, ◌^◌, ◌≤◌, IsTrue, IfOk, IfErr, Some, None, unwrap_or};
ghost use Rattle.bw_model.specs.Limits.{largest};
ghost use Rattle.bw_model.specs.Bytes.{first_that_holds};
ghost use Rattle.bw_model.specs.Reading.{is_id};
ghost use Rattle.bw_inspect.specs.Faults.{bytes_fault, is_of_bytes};
ghost use Rattle.bw_inspect.specs.Chunks.{Allows, kind_by, size_faults};

use crate::fault::{InspectFault, InspectKind, fault_at};
use bw_layout::ChunkId;

/// The largest form or chunk that is read, in bytes.
pub(crate) const LARGEST: u64 = 1 << 62;

/// The kinds of chunks that are read differently.
#[derive(Clone, Copy, Debug, PartialEq, Eq)]
pub(crate) enum ChunkKind {
    Fmt,
    Bext,
    Data,
    Cue,
    Other,
}

/// Whether an id is this name.
pub(crate) fn is_named(id: ChunkId, name: [u8; 4]) -> bool
    ensures { result ≡ is_id id name }
{
    id.0 == name
}

/// The kind of the chunks with an id.
pub(crate) fn kind_by_id(id: ChunkId) -> ChunkKind
    ensures { result ≡ kind_by id }
{
    if is_named(id, *b"fmt ") {
        ChunkKind::Fmt
    } else if is_named(id, *b"bext") {
        ChunkKind::Bext
    } else if is_named(id, *b"data") {
        ChunkKind::Data
    } else if is_named(id, *b"cue ") {
        ChunkKind::Cue
    } else {
        ChunkKind::Other
    }
}

/// The size of the chunk at a place, in a form that ends at `end`; `seen` says whether one of its
/// kind was seen.
///
/// # Errors
/// The first of NoSize, TooLarge, Truncated, Twice, BadFmt, BadBext and BadCue that holds.
pub(crate) fn checked_size(
    end: u64,
    place: u64,
    kind: ChunkKind,
    seen: bool,
    size: Option<u64>,
) -> Result<u64, InspectFault>
    requires { place ≤ 2 ^ 63 }
    ensures allowed { IfOk result (λ c. Allows kind c) }
    ensures small { IfOk result (λ c. c ≤ largest) }
    ensures within { IfOk result (λ c. place + 8 + c ≤ end) }
    ensures is { IfOk result (λ c. size ≡ Some c) }
    ensures ok { IfOk result (λ c.
        first_that_holds (size_faults end place kind seen size c) ≡ None) }
    ensures kind { IfErr result (λ f. IsTrue (is_of_bytes f.kind)) }
    ensures err { IfErr result (λ f. bytes_fault f ≡
        first_that_holds (size_faults end place kind seen size (unwrap_or size 0))) }
{
    let Some(size) = size else {
        return Err(fault_at(InspectKind::NoSize, place));
    };
    if size > LARGEST {
        return Err(fault_at(InspectKind::TooLarge, place));
    }
    if place + 8 + size > end {
        return Err(fault_at(InspectKind::Truncated, place));
    }
    if seen && kind != ChunkKind::Other {
        return Err(fault_at(InspectKind::Twice, place));
    }
    match kind {
        ChunkKind::Fmt if size < 16 => Err(fault_at(InspectKind::BadFmt, place)),
        ChunkKind::Bext if size < 602 => Err(fault_at(InspectKind::BadBext, place)),
        ChunkKind::Cue if size < 4 => Err(fault_at(InspectKind::BadCue, place)),
        _ => Ok(size),
    }
}
