//! The contents of chunks.
ghost use Rattle.std.specs.Prelude.{◌≡◌, ◌+◌, ◌-◌, ◌^◌, ◌≤◌, ◌<◌, length, IfOk, IfErr, OnOk};
ghost use Rattle.bw_inspect.specs.ReaderCalls.{Consumes};
ghost use Rattle.bw_inspect.specs.Chunks.{Allows};
ghost use Rattle.bw_inspect.specs.Known.{HasFewCues, facts_of, fmt_reported, bext_kept, bext_reported};
ghost use Rattle.bw_inspect.specs.Places.{Nowhere};
ghost use Rattle.bw_inspect.specs.Contents.{InContent, IsCutShort, IsLearned, IsPart, IsUnlearned};
ghost use Rattle.bw_inspect.specs.Contents.{ReadTo};

use crate::chunk::ChunkKind;
use crate::cues::read_cues;
use crate::fault::{InspectFault, InspectKind, fault_at};
use crate::places::{read_at, skip_at};
use crate::report::{BextChunk, ListedChunk};
use crate::walk::{Known, Samples};
use bw_layout::{RawFmt, read_bext, read_fmt};
use bw_stream::Source;
use std::alloc::Global;

/// Reads the content of a chunk, and keeps what is reported of it.
///
/// # Errors
/// Truncated, and for `cue ` TooMany and BadCue; Read; Memory.
pub(crate) fn read_content<R: Source>(
    alloc: Global,
    reader: &mut R,
    known: &mut Known,
    kind: ChunkKind,
    entry: ListedChunk,
) -> Result<(), InspectFault>
    requires room { entry.place + 8 + entry.size < 2 ^ 63 }
    requires allowed { Allows kind entry.size }
    ensures consumed { Consumes R.Source entry.size result reader.old reader.new }
    ensures few { OnOk result (HasFewCues known.old → HasFewCues known.new) }
    ensures ok { OnOk result (InContent (R.left reader.old) entry 0 (λ b.
        IsLearned b kind entry (facts_of known.old) (facts_of known.new) (R.left reader.new))) }
    ensures err { IfErr result (λ f. InContent (R.left reader.old) entry 0 (λ b.
        IsUnlearned b kind entry f (R.left reader.new))) }
{
    match kind {
        ChunkKind::Fmt => {
            known.fmt = Some(read_fmt_chunk(reader, entry)?);
            Ok(())
        }
        ChunkKind::Bext => {
            known.bext = Some(read_bext_chunk(reader, entry)?);
            Ok(())
        }
        ChunkKind::Data => {
            pass_rest(reader, entry, 0)?;
            known.samples = Some(Samples {
                at: entry.place + 8,
                size: entry.size,
            });
            Ok(())
        }
        ChunkKind::Cue => {
            known.cues = Some(read_cues(alloc, reader, entry)?);
            Ok(())
        }
        ChunkKind::Other => pass_rest(reader, entry, 0),
    }
}

/// Reads the next part of a chunk's content, of which `done` bytes were read.
///
/// # Errors
/// Truncated; Read.
pub(crate) fn read_part<R: Source>(
    reader: &mut R,
    entry: ListedChunk,
    done: u64,
    buf: &mut [u8],
) -> Result<(), InspectFault>
    requires room { entry.place + 8 + entry.size < 2 ^ 63 }
    requires within { done + length buf.old ≤ entry.size }
    requires some { 0 < length buf.old }
    ensures consumed { Consumes R.Source (length buf.old) result reader.old reader.new }
    ensures ok { OnOk result (InContent (R.left reader.old) entry done (λ b.
        IsPart b entry done (length buf.old) buf.new (R.left reader.new))) }
    ensures err { IfErr result (λ f. InContent (R.left reader.old) entry done (λ b.
        IsCutShort b entry (done + length buf.old) Nowhere f (R.left reader.new))) }
{
    let cut = fault_at(InspectKind::Truncated, entry.place);
    read_at(reader, entry.place + 8 + done, buf, cut)
}

/// Passes over what is left of a chunk's content, of which `done` bytes were read.
///
/// # Errors
/// Truncated; Read.
pub(crate) fn pass_rest<R: Source>(
    reader: &mut R,
    entry: ListedChunk,
    done: u64,
) -> Result<(), InspectFault>
    requires room { entry.place + 8 + entry.size < 2 ^ 63 }
    requires within { done ≤ entry.size }
    ensures consumed { Consumes R.Source (entry.size - done) result reader.old reader.new }
    ensures ok { OnOk result (InContent (R.left reader.old) entry done (λ b.
        ReadTo b entry entry.size (R.left reader.new))) }
    ensures err { IfErr result (λ f. InContent (R.left reader.old) entry done (λ b.
        IsCutShort b entry entry.size Nowhere f (R.left reader.new))) }
{
    let cut = fault_at(InspectKind::Truncated, entry.place);
    skip_at(reader, entry.place + 8 + done, entry.size - done, cut)
}

/// Reads a `fmt ` chunk's content.
fn read_fmt_chunk<R: Source>(reader: &mut R, entry: ListedChunk) -> Result<RawFmt, InspectFault>
    requires room { entry.place + 8 + entry.size < 2 ^ 63 }
    requires long { 16 ≤ entry.size }
    ensures consumed { Consumes R.Source entry.size result reader.old reader.new }
    ensures ok { IfOk result (λ x. InContent (R.left reader.old) entry 0 (λ b.
        ReadTo b entry entry.size (R.left reader.new) × (x ≡ fmt_reported b entry))) }
    ensures err { IfErr result (λ f. InContent (R.left reader.old) entry 0 (λ b.
        IsCutShort b entry entry.size Nowhere f (R.left reader.new))) }
{
    let mut prefix = [0; 16];
    read_part(reader, entry, 0, &mut prefix)?;
    let Ok(fmt) = read_fmt(&prefix) else {
        return Err(fault_at(InspectKind::BadFmt, entry.place));
    };
    pass_rest(reader, entry, 16)?;
    Ok(fmt)
}

/// Reads a `bext` chunk's content, and passes over its coding history.
fn read_bext_chunk<R: Source>(reader: &mut R, entry: ListedChunk) -> Result<BextChunk, InspectFault>
    requires room { entry.place + 8 + entry.size < 2 ^ 63 }
    requires long { 602 ≤ entry.size }
    ensures consumed { Consumes R.Source entry.size result reader.old reader.new }
    ensures ok { IfOk result (λ x. InContent (R.left reader.old) entry 0 (λ b.
        ReadTo b entry entry.size (R.left reader.new) × (bext_kept x ≡ bext_reported b entry))) }
    ensures err { IfErr result (λ f. InContent (R.left reader.old) entry 0 (λ b.
        IsCutShort b entry entry.size Nowhere f (R.left reader.new))) }
{
    let mut prefix = [0; 602];
    read_part(reader, entry, 0, &mut prefix)?;
    let Ok(fields) = read_bext(&prefix) else {
        return Err(fault_at(InspectKind::BadBext, entry.place));
    };
    pass_rest(reader, entry, 602)?;
    Ok(BextChunk {
        fields,
        history_len: entry.size - 602,
    })
}
