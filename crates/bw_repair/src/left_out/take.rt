//! A take and the chunks that are joined to it, as sections of their files.
ghost use Rattle.std.specs.Prelude.{◌≡◌, ◌≤◌, ◌^◌, ◌++◌, true, false, IfErr, IfOk, OnOk};
ghost use Rattle.std.specs.List.{filter, list_any};
ghost use Rattle.bw_model.specs.Reading.{next_place};
ghost use Rattle.bw_repair.specs.ChunkSections.{capped, chunk_sections};
ghost use Rattle.bw_repair.specs.Joined.{is_riff_id as is_narrow_id, largest_of};
ghost use Rattle.bw_repair.specs.JoinSections.{AreSections, IsUnfitToJoin, take_sections};
ghost use Rattle.bw_repair.specs.LeftOut.{is_left_chunk, is_too_large, largest_riff};
ghost use Rattle.bw_repair.specs.ReadReports.{IsUnfit};

use crate::conversions::fault_at;
use crate::left_out::chunks::{front_of, push_chunks, total_len};
use crate::left_out::file::LARGEST_RIFF;
use crate::left_out::section::Section;
use crate::{ConvertFault, ConvertKind};
use bw_inspect::{InspectKind, ListedChunk, Report};
use bw_layout::ChunkId;
use std::alloc::{AllocError, Global};

/// The largest size of a form that has it in `ds64`.
const LARGEST: u64 = 1 << 62;

/// What the take with the chunks is made of.
#[derive(Drop)]
pub(crate) struct JoinedSections {
    /// Of the take's file.
    pub take: Vec<Section>,
    /// Of the file that has the chunks.
    pub left: Vec<Section>,
}

/// What the take with this report is made of, with the chunks of the file with the other report.
///
/// # Errors
/// TooLong; Unread where memory was refused.
pub(crate) fn join_sections(
    alloc: Global,
    take: &Report,
    left: &Report,
) -> Result<JoinedSections, ConvertFault>
    ensures ok { IfOk result (λ s. AreSections take.now left.now s.take.items s.left.items) }
    ensures err { IfErr result (λ f. IsUnfit (IsUnfitToJoin take.now left.now) f) }
{
    let end = chunks_end(take.chunks.as_slice());
    let others = end.saturating_sub(8);
    let chunks = left.chunks.as_slice();
    let Some(size) = total_len(chunks, false, others, most_of(take.form)) else {
        return Err(fault_at(ConvertKind::TooLong, 0));
    };
    match put_both(alloc, take.form, end, size, chunks) {
        Ok(sections) => Ok(sections),
        Err(_) => Err(fault_at(ConvertKind::Unread(InspectKind::Memory), 0)),
    }
}

/// The same of chunks that fit: the take's form has this size, and its own chunks end here.
///
/// # Errors
/// `AllocError` where memory was refused.
fn put_both(
    alloc: Global,
    id: ChunkId,
    end: u64,
    size: u64,
    chunks: &[ListedChunk],
) -> Result<JoinedSections, AllocError>
    requires small { list_any is_too_large (filter is_left_chunk chunks.now) ≡ false }
    requires narrow { is_narrow_id id ≡ true → size ≤ largest_riff }
    ensures take { IfOk result (λ s. s.take.items ≡ take_sections id size end) }
    ensures left { IfOk result (λ s. s.left.items ≡ chunk_sections 0 (filter is_left_chunk chunks.now)) }
{
    let mut take = Vec::new(alloc);
    push_take(&mut take, id, end, size)?;
    let mut left = Vec::new(alloc);
    push_chunks(&mut left, chunks, false, 0)?;
    Ok(JoinedSections { take, left })
}

/// Puts a take's sections after others.
///
/// # Errors
/// `AllocError` where memory was refused.
fn push_take(
    sections: &mut Vec<Section>,
    id: ChunkId,
    end: u64,
    size: u64,
) -> Result<(), AllocError>
    requires { is_narrow_id id ≡ true → size ≤ largest_riff }
    ensures { OnOk result (sections.new.items ≡ sections.old.items ++ take_sections id size end) }
{
    if is_narrow(id) {
        sections.push(Section {
            front: front_of(id.0, size as u32),
            gap: 8,
            size: end.saturating_sub(8),
        })?;
        return Ok(());
    }
    sections.push(Section {
        front: front_of(id.0, 0xffff_ffff),
        gap: 8,
        size: 12,
    })?;
    sections.push(Section {
        front: size.to_le_bytes(),
        gap: 8,
        size: end.saturating_sub(28),
    })?;
    Ok(())
}

/// Where these chunks end, as far as 64 bits give it.
fn chunks_end(chunks: &[ListedChunk]) -> u64
    ensures { result ≡ capped (next_place chunks.now) }
{
    let mut end = 12u64;
    for (_i, chunk) in chunks.iter().enumerate() {
        let content = chunk.place.saturating_add(8);
        end = content
            .saturating_add(chunk.size)
            .saturating_add(chunk.size % 2);
    }
    end
}

/// The largest size of a form with this id.
fn most_of(id: ChunkId) -> u64
    ensures most { result ≡ largest_of id }
    ensures near { result ≤ 2 ^ 62 }
    ensures narrow { is_narrow_id id ≡ true → result ≡ largest_riff }
{
    if is_narrow(id) { LARGEST_RIFF } else { LARGEST }
}

fn is_narrow(id: ChunkId) -> bool
    ensures { result ≡ is_narrow_id id }
{
    id.0 == *b"RIFF"
}
