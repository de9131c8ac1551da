//! The chunks of a file that a take doesn't carry.
ghost use Rattle.std.specs.Prelude.{◌≡◌, ◌≤◌, ◌^◌, ◌++◌, List, IfSome, OnOk, false};
ghost use Rattle.std.specs.List.{filter, list_any};
ghost use Rattle.bw_model.specs.Bytes.{le32};
ghost use Rattle.bw_repair.specs.LeftOut.{is_too_large};
ghost use Rattle.bw_repair.specs.ChunkSections.{chunk_sections, is_chosen as is_chosen_chunk, total_of};

use crate::left_out::section::Section;
use bw_inspect::ListedChunk;
use bw_plan::is_carried;
use std::alloc::AllocError;

/// The smallest size that no head gives: it says that `ds64` has the size.
const UNSAID: u64 = 0xffff_ffff;

/// Whether a take doesn't carry a chunk, or it is the format and that is wanted.
fn is_chosen(chunk: &ListedChunk, with_format: bool) -> bool
    ensures { result ≡ is_chosen_chunk with_format chunk.now }
{
    (with_format && chunk.id.0 == *b"fmt ") || !is_carried(chunk.id)
}

/// How long a form is with these others and the chosen chunks, if that is no more than `most`, and
/// heads give their sizes.
pub(crate) fn total_len(
    chunks: &[ListedChunk],
    with_format: bool,
    others: u64,
    most: u64,
) -> Option<u64>
    requires { most ≤ 2 ^ 62 }
    ensures total { result ≡ total_of most others (filter (is_chosen_chunk with_format) chunks.now) }
    ensures within { IfSome result (λ n. n ≤ most) }
{
    if others > most {
        return None;
    }
    let mut total = others;
    for (_i, chunk) in chunks.iter().enumerate() {
        if is_chosen(chunk, with_format) {
            if chunk.size >= UNSAID {
                return None;
            }
            let len = 8 + chunk.size + chunk.size % 2;
            if len > most - total {
                return None;
            }
            total += len;
        }
    }
    Some(total)
}

/// Puts the chosen chunks after other sections that end at a place of the file.
///
/// # Errors
/// `AllocError` where memory was refused.
pub(crate) fn push_chunks(
    sections: &mut Vec<Section>,
    chunks: &[ListedChunk],
    with_format: bool,
    start: u64,
) -> Result<(), AllocError>
    requires { list_any is_too_large (filter (is_chosen_chunk with_format) chunks.now) ≡ false }
    ensures { OnOk result (sections.new.items
        ≡ sections.old.items ++ chunk_sections start (filter (is_chosen_chunk with_format) chunks.now)) }
{
    let mut place = start;
    for (_i, chunk) in chunks.iter().enumerate() {
        if is_chosen(chunk, with_format) {
            let content = chunk.place.saturating_add(8);
            let size = chunk.size + chunk.size % 2;
            let gap = content.saturating_sub(place);
            sections.push(Section {
                front: front_of(chunk.id.0, chunk.size as u32),
                gap,
                size,
            })?;
            place = content.saturating_add(size);
        }
    }
    Ok(())
}

/// Four bytes and a number.
pub(crate) fn front_of(id: [u8; 4], number: u32) -> [u8; 8]
    ensures { result ≡ id ++ le32 number }
{
    let [a, b, c, d] = id;
    let [e, f, g, h] = number.to_le_bytes();
    [a, b, c, d, e, f, g, h]
}
