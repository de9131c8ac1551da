//! What a report doesn't keep of a file: the prefix of an extensible format, and the coding
//! history.
ghost use Rattle.std.specs.Prelude.{◌≡◌, ◌⊎◌, ◌+◌, ◌<◌, ◌≤◌, codes, length, slice_range, Some, IsTrue, IfOk, IfErr, OnOk};
ghost use Rattle.bw_model.specs.Reading.{Entry, entry_of};
ghost use Rattle.bw_model.specs.Report.{content_of};
ghost use Rattle.bw_stream.specs.Readers.{Of};
ghost use Rattle.bw_inspect.specs.Faults.{is_of_bytes};
ghost use Rattle.bw_plan.specs.Recordings.{extension_at, history_at};
ghost use Rattle.bw_plan.specs.Outside.{IsOutOfBytes, HasNoHistory};

use crate::block_reader::zeros;
use crate::recording::find_chunk;
use bw_inspect::{InspectFault, InspectKind, ListedChunk, Report, read_at, skip_at};
use bw_layout::ChunkId;
use bw_model::LONGEST_HISTORY;
use bw_stream::Source;
use std::alloc::Global;

/// No form or chunk that is read has more bytes.
const LARGEST: u64 = 1 << 62;

/// Reads what an extensible `fmt ` chunk has after its first 16 bytes, to the end of the
/// subformat: 24 bytes, or none where the chunk is shorter. The reader is at the file's start.
///
/// # Errors
/// Truncated where the input ends before these bytes do; Read; Memory.
pub fn read_extension<R: Source>(
    alloc: Global,
    reader: &mut R,
    report: &Report,
) -> Result<Vec<u8>, InspectFault>
    ensures ok { IfOk result (λ v. Of (R.left reader.old) (λ b.
        v.items ≡ extension_at b (entry_of (codes "fmt ") report.now.chunks))) }
    // It is missed only where the chunk isn't in the bytes.
    ensures cut { IfErr result (λ f. IsTrue (is_of_bytes f.kind) → (e : Entry)
        × (entry_of (codes "fmt ") report.now.chunks ≡ Some e)
        × Of (R.left reader.old) (λ b. IsOutOfBytes b e)) }
{
    let Some(chunk) = find_chunk(report.chunks.as_slice(), ChunkId(*b"fmt ")) else {
        return Ok(Vec::new(alloc));
    };
    if chunk.size < 40 {
        return Ok(Vec::new(alloc));
    }
    read_part(alloc, reader, chunk, 16, 24)
}

/// Reads a `bext` chunk's coding history: none where there is no chunk, and at most 4,097 bytes,
/// which show whether it is too long. The reader is at the file's start.
///
/// # Errors
/// Truncated where the input ends before these bytes do, or the chunk has fewer than 602 bytes;
/// Read; Memory.
pub fn read_history<R: Source>(
    alloc: Global,
    reader: &mut R,
    report: &Report,
) -> Result<Vec<u8>, InspectFault>
    ensures ok { IfOk result (λ v. Of (R.left reader.old) (λ b.
        v.items ≡ history_at b (entry_of (codes "bext") report.now.chunks))) }
    // It is missed only where the chunk isn't in the bytes.
    ensures cut { IfErr result (λ f. IsTrue (is_of_bytes f.kind) → (e : Entry)
        × (entry_of (codes "bext") report.now.chunks ≡ Some e)
        × Of (R.left reader.old) (λ b. HasNoHistory b e)) }
{
    let Some(chunk) = find_chunk(report.chunks.as_slice(), ChunkId(*b"bext")) else {
        return Ok(Vec::new(alloc));
    };
    if chunk.size < 602 {
        return Err(cut(chunk));
    }
    let len = (chunk.size - 602).min(LONGEST_HISTORY as u64 + 1);
    read_part(alloc, reader, chunk, 602, len as usize)
}

fn cut(chunk: ListedChunk) -> InspectFault
    ensures { result ≡ record { kind = InspectKind.Truncated; offset = chunk.place } }
{
    InspectFault {
        kind: InspectKind::Truncated,
        offset: chunk.place,
    }
}

/// Reads `len` bytes of a chunk's content from a place in it on. The reader is at the file's
/// start.
///
/// # Errors
/// Truncated where the input ends before these bytes do; Read; Memory.
fn read_part<R: Source>(
    alloc: Global,
    reader: &mut R,
    chunk: ListedChunk,
    from: u64,
    len: usize,
) -> Result<Vec<u8>, InspectFault>
    requires within { from + len ≤ chunk.size }
    requires few { len ≤ 4097 }
    ensures ok { IfOk result (λ v. Of (R.left reader.old) (λ b.
        v.items ≡ slice_range (content_of b (Some chunk)) from (from + len))) }
    ensures cut { IfErr result (λ f. IsTrue (is_of_bytes f.kind) →
        Of (R.left reader.old) (λ b. IsOutOfBytes b chunk)) }
{
    if chunk.place > LARGEST || chunk.size > LARGEST {
        return Err(cut(chunk));
    }
    let place = chunk.place + 8 + from;
    let Ok(mut bytes) = zeros(alloc, len) else {
        return Err(InspectFault {
            kind: InspectKind::Memory,
            offset: chunk.place,
        });
    };
    skip_at(reader, 0, place, cut(chunk))?;
    read_at(reader, place, bytes.as_mut_slice(), cut(chunk))?;
    Ok(bytes)
}
