//! Reading the chunks that say something.
ghost use Rattle.std.specs.Prelude.{◌≡◌, ◌+◌, ◌^◌, ◌<◌, ◌≤◌, ◌++◌, drop, take, vec_len, Some, IfOk, OnOk};
ghost use Rattle.bw_stream.specs.Readers.{Of};
ghost use Rattle.bw_inspect.specs.Places.{AtPlace};
ghost use Rattle.bw_contents.specs.Contents.{bytes_read, chunk_says, chunks_say, content_says, cut_says};
ghost use Rattle.bw_contents.specs.Contents.{history_says, is_looked_into, most_chunks_read};
ghost use Rattle.bw_contents.specs.XmlChunks.{xml_size_says};

use crate::content::{ChunkText, Contents, Kind, put_text};
use crate::format::put_format;
use crate::list::put_list;
use crate::xml::{is_other_xml, put_ixml, put_xml_size};
use bw_inspect::{InspectFault, InspectKind, ListedChunk, read_at, skip_at};
use bw_layout::ChunkId;
use bw_stream::Source;
use std::alloc::{AllocError, Global};

/// How many bytes of a chunk are read.
const MOST_BYTES: u64 = 65_536;

/// How many chunks of a file are looked at.
const MOST_CHUNKS_READ: usize = 64;

/// The largest place at which a chunk is looked for, in bytes.
const LARGEST: u64 = 1 << 62;

/// Reads what these chunks of a reader at its start say, in their order: of the first 64 chunks,
/// and of each its first 65,536 bytes.
///
/// # Errors
/// Truncated, at a chunk, if the reader's bytes end before its content does, or if it begins before
/// the chunk before it ends; Read; Memory, at a chunk.
///
/// # Not specified
/// When memory is refused.
pub fn read_contents<R: Source>(
    alloc: Global,
    reader: &mut R,
    chunks: &[ListedChunk],
) -> Result<Contents, InspectFault>
    ensures { IfOk result (λ said. Of (R.left reader.old) (λ b. said ≡ chunks_say b chunks.now)) }
{
    let mut contents = Vec::new(alloc);
    let mut place = 0;
    for chunk in first_chunks(chunks) {
        place = read_chunk(alloc, reader, place, chunk, &mut contents)?;
    }
    Ok(Contents::new(contents))
}

/// The chunks that are looked at.
fn first_chunks(chunks: &[ListedChunk]) -> &[ListedChunk]
    ensures { result.now ≡ take most_chunks_read chunks.now }
{
    &chunks[..MOST_CHUNKS_READ.min(chunks.len())]
}

/// Reads what a chunk says, with a reader at a place. Returns the place where the reader is then.
///
/// # Errors
/// Truncated; Read; Memory.
fn read_chunk<R: Source>(
    alloc: Global,
    reader: &mut R,
    place: u64,
    chunk: &ListedChunk,
    contents: &mut Vec<ChunkText>,
) -> Result<u64, InspectFault>
    requires { place < 2 ^ 63 }
    ensures small { IfOk result (λ next. next < 2 ^ 63) }
    ensures ok { IfOk result (λ next. AtPlace (R.left reader.old) place (λ b.
        (R.left reader.new ≡ Some (drop next b))
        × (contents.new.items ≡ contents.old.items ++ chunk_says b chunk.now))) }
{
    if is_other_xml(chunk.id) {
        return put_size(alloc, place, chunk, contents);
    }
    if !is_looked_into(chunk.id) {
        return Ok(place);
    }
    let bytes = read_bytes(alloc, reader, place, chunk)?;
    match put_chunk(alloc, contents, chunk, bytes.as_slice()) {
        Ok(()) => Ok(chunk.place + 8 + bytes.len() as u64),
        Err(_) => Err(fault_at(InspectKind::Memory, chunk)),
    }
}

/// Appends the size of a chunk of XML. Returns the place, where the reader still is.
///
/// # Errors
/// Memory.
fn put_size(
    alloc: Global,
    place: u64,
    chunk: &ListedChunk,
    contents: &mut Vec<ChunkText>,
) -> Result<u64, InspectFault>
    ensures { IfOk result (λ next. (next ≡ place)
        × (contents.new.items ≡ contents.old.items ++ xml_size_says chunk.now.id chunk.now.size)) }
{
    match put_xml_size(alloc, contents, chunk.id, chunk.size) {
        Ok(()) => Ok(place),
        Err(_) => Err(fault_at(InspectKind::Memory, chunk)),
    }
}

/// Reads the first bytes of a chunk's content, with a reader at a place.
///
/// # Errors
/// Truncated; Read; Memory.
fn read_bytes<R: Source>(
    alloc: Global,
    reader: &mut R,
    place: u64,
    chunk: &ListedChunk,
) -> Result<Vec<u8>, InspectFault>
    requires { place < 2 ^ 63 }
    ensures small { IfOk result (λ v. chunk.now.place + 8 + vec_len v < 2 ^ 63) }
    ensures ok { IfOk result (λ v. AtPlace (R.left reader.old) place (λ b.
        (R.left reader.new ≡ Some (drop (chunk.now.place + 8 + vec_len v) b))
        × (v.items ≡ bytes_read b chunk.now))) }
{
    let cut = fault_at(InspectKind::Truncated, chunk);
    if chunk.place > LARGEST || chunk.place + 8 < place {
        return Err(cut);
    }
    let start = chunk.place + 8;
    skip_at(reader, place, start - place, cut)?;
    let Ok(mut bytes) = vec![in alloc; 0; chunk.size.min(MOST_BYTES) as usize] else {
        return Err(fault_at(InspectKind::Memory, chunk));
    };
    read_at(reader, start, &mut bytes, cut)?;
    Ok(bytes)
}

fn fault_at(kind: InspectKind, chunk: &ListedChunk) -> InspectFault
    ensures { result ≡ record { kind = kind; offset = chunk.now.place } }
{
    InspectFault {
        kind,
        offset: chunk.place,
    }
}

/// Appends what a chunk says whose content begins so, and whether there is more of it.
fn put_chunk(
    alloc: Global,
    contents: &mut Vec<ChunkText>,
    chunk: &ListedChunk,
    bytes: &[u8],
) -> Result<(), AllocError>
    ensures { OnOk result (contents.new.items
        ≡ contents.old.items ++ (content_says chunk.now bytes.now ++ cut_says chunk.now)) }
{
    put_content(alloc, contents, chunk, bytes)?;
    put_cut(alloc, contents, chunk)?;
    Ok(())
}

/// Appends whether there is more of a chunk than is read.
fn put_cut(
    alloc: Global,
    contents: &mut Vec<ChunkText>,
    chunk: &ListedChunk,
) -> Result<(), AllocError>
    ensures { OnOk result (contents.new.items ≡ contents.old.items ++ cut_says chunk.now) }
{
    if chunk.size > MOST_BYTES {
        put_text(
            alloc,
            contents,
            Kind::Cut { id: chunk.id },
            b"after 65536 bytes",
        )
    } else {
        Ok(())
    }
}

/// Appends what a chunk says whose content begins so.
fn put_content(
    alloc: Global,
    contents: &mut Vec<ChunkText>,
    chunk: &ListedChunk,
    bytes: &[u8],
) -> Result<(), AllocError>
    ensures { OnOk result (contents.new.items
        ≡ contents.old.items ++ content_says chunk.now bytes.now) }
{
    let id = chunk.id;
    if id.0 == *b"fmt " {
        put_format(alloc, contents, bytes)
    } else if id.0 == *b"bext" {
        put_history(alloc, contents, bytes)
    } else if id.0 == *b"iXML" {
        put_ixml(alloc, contents, chunk.size > MOST_BYTES, bytes)
    } else {
        put_list(alloc, contents, bytes)
    }
}

/// Appends the coding history of a `bext` chunk, if it has one.
fn put_history(alloc: Global, contents: &mut Vec<ChunkText>, bytes: &[u8]) -> Result<(), AllocError>
    ensures { OnOk result (contents.new.items ≡ contents.old.items ++ history_says bytes.now) }
{
    if bytes.len() > 602 {
        put_text(alloc, contents, Kind::History, &bytes[602..])
    } else {
        Ok(())
    }
}

/// Whether chunks with this id are read.
fn is_looked_into(id: ChunkId) -> bool
    ensures { result ≡ is_looked_into id }
{
    id.0 == *b"fmt " || (id.0 == *b"bext" || (id.0 == *b"iXML" || id.0 == *b"LIST"))
}
