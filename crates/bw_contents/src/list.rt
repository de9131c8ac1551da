//! The texts of a `LIST` chunk: `INFO`, and the labels and notes of `adtl`.
ghost use Rattle.std.specs.Prelude.{◌≡◌, ◌+◌, ◌≤◌, ◌++◌, length, drop, slice_range, OnOk};
ghost use Rattle.bw_model.specs.Bytes.{u32_at, even_up};
ghost use Rattle.bw_contents.specs.Lists.{list_says, part_content, part_says, parts_say, point_says};

use crate::content::{ChunkText, Kind, put_text};
use bw_layout::ChunkId;
use bw_model::{read_id, read_u32};
use std::alloc::{AllocError, Global};

/// Appends what a `LIST` with this content says.
pub(crate) fn put_list(
    alloc: Global,
    contents: &mut Vec<ChunkText>,
    bytes: &[u8],
) -> Result<(), AllocError>
    ensures { OnOk result (contents.new.items ≡ contents.old.items ++ list_says bytes.now) }
{
    if bytes.len() < 4 {
        return Ok(());
    }
    put_parts(alloc, contents, read_id(bytes, 0), &bytes[4..])
}

/// Appends what the chunks say that follow one another in a list of this type.
fn put_parts(
    alloc: Global,
    contents: &mut Vec<ChunkText>,
    list_type: [u8; 4],
    bytes: &[u8],
) -> Result<(), AllocError>
    ensures { OnOk result (contents.new.items
        ≡ contents.old.items ++ parts_say (length bytes.now) list_type bytes.now) }
{
    let mut rest = bytes;
    while rest.len() >= 8 {
        put_part(alloc, contents, list_type, rest)?;
        rest = after_part(rest);
    }
    Ok(())
}

/// What follows the chunk that these bytes begin with, and its pad byte.
fn after_part(bytes: &[u8]) -> &[u8]
    requires { 8 ≤ length bytes.now }
    ensures { result.now ≡ drop (8 + even_up (u32_at bytes.now 4)) bytes.now }
{
    let size = read_u32(bytes, 4) as usize;
    let end = 8 + (size + size % 2);
    &bytes[end.min(bytes.len())..]
}

/// The content of the chunk that these bytes begin with, as far as it is there.
fn content_of(bytes: &[u8]) -> &[u8]
    requires { 8 ≤ length bytes.now }
    ensures { result.now ≡ part_content bytes.now }
{
    let size = read_u32(bytes, 4) as usize;
    &bytes[8..(8 + size).min(bytes.len())]
}

/// Appends what the chunk says that these bytes begin with.
fn put_part(
    alloc: Global,
    contents: &mut Vec<ChunkText>,
    list_type: [u8; 4],
    bytes: &[u8],
) -> Result<(), AllocError>
    requires { 8 ≤ length bytes.now }
    ensures { OnOk result (contents.new.items
        ≡ contents.old.items ++ part_says list_type bytes.now) }
{
    let id = read_id(bytes, 0);
    let text = content_of(bytes);
    if list_type == *b"INFO" {
        put_text(alloc, contents, Kind::Info { id: ChunkId(id) }, text)
    } else if list_type == *b"adtl" {
        put_point(alloc, contents, id, text)
    } else {
        Ok(())
    }
}

/// Appends the label or the note of a cue point, if this is one.
fn put_point(
    alloc: Global,
    contents: &mut Vec<ChunkText>,
    id: [u8; 4],
    bytes: &[u8],
) -> Result<(), AllocError>
    ensures { OnOk result (contents.new.items ≡ contents.old.items ++ point_says id bytes.now) }
{
    if bytes.len() < 4 {
        return Ok(());
    }
    let point = read_u32(bytes, 0);
    if id == *b"labl" {
        put_text(alloc, contents, Kind::Label { point }, &bytes[4..])
    } else if id == *b"note" {
        put_text(alloc, contents, Kind::Note { point }, &bytes[4..])
    } else {
        Ok(())
    }
}
