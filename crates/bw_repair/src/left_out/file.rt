//! The file that keeps the chunks, as sections of the recording.
ghost use Rattle.std.specs.Prelude.{◌≡◌, true, false, IfErr, IfOk};
ghost use Rattle.std.specs.List.{filter, list_any};
ghost use Rattle.bw_repair.specs.ChunkSections.{left_sections};
ghost use Rattle.bw_repair.specs.LeftOut.{fits_left, is_kept_chunk, is_too_large, left_size};
ghost use Rattle.bw_repair.specs.ReadReports.{IsUnfit};

use crate::conversions::fault_at;
use crate::left_out::chunks::{front_of, push_chunks, total_len};
use crate::left_out::section::Section;
use crate::{ConvertFault, ConvertKind};
use bw_inspect::{InspectKind, ListedChunk};
use std::alloc::{AllocError, Global};

/// The largest size of a RIFF form.
pub(crate) const LARGEST_RIFF: u64 = 0xffff_fffe;

/// What the file is made of: a recording has these chunks. Its id is zero.
///
/// # Errors
/// TooLong; Unread where memory was refused.
pub(crate) fn file_sections(
    alloc: Global,
    chunks: &[ListedChunk],
) -> Result<Vec<Section>, ConvertFault>
    ensures fit { IfOk result (λ v. fits_left chunks.now ≡ true) }
    ensures ok { IfOk result (λ v. v.items
        ≡ left_sections (filter is_kept_chunk chunks.now) (left_size chunks.now)) }
    ensures err { IfErr result (λ f. IsUnfit (fits_left chunks.now ≡ false) f) }
{
    let Some(size) = total_len(chunks, true, 12, LARGEST_RIFF) else {
        return Err(fault_at(ConvertKind::TooLong, 0));
    };
    match put_sections(alloc, chunks, size as u32) {
        Ok(sections) => Ok(sections),
        Err(_) => Err(fault_at(ConvertKind::Unread(InspectKind::Memory), 0)),
    }
}

/// The same of chunks that fit: the file's form has this size.
///
/// # Errors
/// `AllocError` where memory was refused.
fn put_sections(
    alloc: Global,
    chunks: &[ListedChunk],
    size: u32,
) -> Result<Vec<Section>, AllocError>
    requires { list_any is_too_large (filter is_kept_chunk chunks.now) ≡ false }
    ensures { IfOk result (λ v. v.items ≡ left_sections (filter is_kept_chunk chunks.now) size) }
{
    let mut sections = Vec::new(alloc);
    sections.push(Section {
        front: front_of([0; 4], size),
        gap: 8,
        size: 4,
    })?;
    push_chunks(&mut sections, chunks, true, 12)?;
    sections.push(Section {
        front: front_of(*b"data", 0),
        gap: 0,
        size: 0,
    })?;
    Ok(sections)
}
