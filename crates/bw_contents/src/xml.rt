//! Chunks of XML.
ghost use Rattle.std.specs.Prelude.{◌≡◌, ◌≤◌, ◌++◌, ◌==◌, not, length, OnOk};
ghost use Rattle.std.specs.List.{prefix_len};
ghost use Rattle.bw_contents.specs.XmlChunks.{before_padding, fault_says, is_other_xml, is_utf16, ixml_says};
ghost use Rattle.bw_contents.specs.XmlChunks.{unread_says, xml_size_says};

use crate::content::{ChunkText, Kind, put_text};
use crate::document::{document_says, is_text};
use crate::markup::{begins_with, cut_at_mark};
use bw_layout::ChunkId;
use itoa::Buffer;
use std::alloc::{AllocError, Global};

/// Appends what an `iXML` chunk says whose content begins so, and is cut off there or is whole.
pub(crate) fn put_ixml(
    alloc: Global,
    contents: &mut Vec<ChunkText>,
    is_cut: bool,
    bytes: &[u8],
) -> Result<(), AllocError>
    ensures { OnOk result (contents.new.items
        ≡ contents.old.items ++ ixml_says is_cut bytes.now) }
{
    match document_says(alloc, before_padding(bytes))? {
        Some(mut said) => contents.append(&mut said),
        None => put_fault(alloc, contents, is_cut, bytes),
    }
}

/// Appends why these bytes are no document that is read, if they are the whole chunk.
fn put_fault(
    alloc: Global,
    contents: &mut Vec<ChunkText>,
    is_cut: bool,
    bytes: &[u8],
) -> Result<(), AllocError>
    ensures { OnOk result (contents.new.items
        ≡ contents.old.items ++ fault_says is_cut bytes.now) }
{
    if is_cut {
        return Ok(());
    }
    put_unread(alloc, contents, bytes)
}

/// Appends why these bytes are no document that is read.
fn put_unread(alloc: Global, contents: &mut Vec<ChunkText>, bytes: &[u8]) -> Result<(), AllocError>
    ensures { OnOk result (contents.new.items ≡ contents.old.items ++ unread_says bytes.now) }
{
    let id = ChunkId(*b"iXML");
    let text = before_padding(bytes);
    if is_utf16(bytes) {
        put_text(alloc, contents, Kind::Unread { id }, b"UTF-16")
    } else if !is_text(text) {
        put_text(alloc, contents, Kind::Unread { id }, b"not UTF-8")
    } else if cut_at_mark(b"<!DOCTYPE", text).is_some() {
        put_text(
            alloc,
            contents,
            Kind::Unread { id },
            b"document type declaration",
        )
    } else {
        put_text(alloc, contents, Kind::Malformed { id }, b"not well-formed")
    }
}

/// Whether XML is in UTF-16: a byte order mark, or `<` as two bytes.
fn is_utf16(bytes: &[u8]) -> bool
    ensures { result ≡ is_utf16 bytes.now }
{
    (begins_with(bytes, &[0xfe, 0xff]) || begins_with(bytes, &[0xff, 0xfe]))
        || (begins_with(bytes, b"<\0") || begins_with(bytes, b"\0<"))
}

/// The bytes before the first zero byte: recorders fill what they reserve for a chunk.
fn before_padding(bytes: &[u8]) -> &[u8]
    ensures { result.now ≡ before_padding bytes.now }
{
    &bytes[..text_len(bytes)]
}

fn text_len(bytes: &[u8]) -> usize
    ensures value { result ≡ prefix_len (λ c. not (c == 0)) bytes.now }
    ensures within { result ≤ length bytes.now }
{
    bytes.iter().take_while(|c| **c != 0).count()
}

/// Whether chunks with this id are XML of which the size alone is said.
pub(crate) fn is_other_xml(id: ChunkId) -> bool
    ensures { result ≡ is_other_xml id }
{
    id.0 == *b"axml" || id.0 == *b"aXML"
}

/// Appends the size of a chunk of XML, in bytes.
pub(crate) fn put_xml_size(
    alloc: Global,
    contents: &mut Vec<ChunkText>,
    id: ChunkId,
    size: u64,
) -> Result<(), AllocError>
    ensures { OnOk result (contents.new.items ≡ contents.old.items ++ xml_size_says id size) }
{
    let mut text = Vec::new(alloc);
    let mut digits = Buffer::new();
    text.extend_from_slice(digits.format(size).as_bytes())?;
    text.extend_from_slice(b" bytes")?;
    put_text(alloc, contents, Kind::Xml { id }, text.as_slice())
}
