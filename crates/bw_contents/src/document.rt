//! An XML document, piece by piece, and what its elements say.
ghost use Rattle.std.specs.Prelude.{◌≡◌, [], take, reverse, option_map, IfOk, Some, None, if◌then◌else◌};
ghost use Rattle.std.specs.Char.{encode_utf8};
ghost use Rattle.std.specs.List.{list_all};
ghost use Rattle.std.specs.Str.{bytes_eq, is_utf8};
ghost use Rattle.bw_contents.specs.Documents.{after_order_mark, after_piece, data_added, document_says};
ghost use Rattle.bw_contents.specs.Documents.{element_begun, element_ended, has_no_control, is_no_control};
ghost use Rattle.bw_contents.specs.Documents.{is_xml_text};
ghost use Rattle.bw_contents.specs.Documents.{none_open, path_around};
ghost use Rattle.bw_contents.specs.Documents.{path_step, said_after_pieces, said_at_end, text_added, trimmed};
ghost use Rattle.bw_contents.specs.Markup.{after_white_space, is_white_space};

use crate::content::ChunkText;
use crate::ixml::IxmlTexts;
use crate::markup::{after_white_space, begins_with, is_white_space};
use crate::piece::{PieceKind, piece_at};
use std::alloc::{AllocError, Global};
use std::marker::Model;
use std::str::from_utf8;

/// What is known between two pieces.
#[derive(Debug, Drop)]
struct Elements {
    /// The names of the open elements, each after a slash.
    path: Vec<u8>,
    /// The character data since the last tag.
    text: Vec<u8>,
    /// Whether the root has begun.
    begun: bool,
    texts: IxmlTexts,
}

impl Model for Elements {
    ghost use Rattle.bw_contents.specs.Documents.{OpenElements};

    ghost Value = { OpenElements };

    ghost view = { λ e. record {
      path = e.path.items;
      text = e.text.items;
      begun = e.begun;
      texts = e.texts;
    } };
}

impl Elements {
    fn new(alloc: Global) -> Elements
        ensures { result ≡ none_open }
    {
        Elements {
            path: Vec::new(alloc),
            text: Vec::new(alloc),
            begun: false,
            texts: IxmlTexts::new(alloc),
        }
    }

    /// Takes a piece, and returns whether it may follow.
    fn take(&mut self, alloc: Global, kind: PieceKind, text: &[u8]) -> Result<bool, AllocError>
        ensures { IfOk result (λ ok.
            (if ok then Some self.new else None) ≡ after_piece kind text.now self.old) }
    {
        match kind {
            PieceKind::Begin => self.begin(text),
            PieceKind::End => self.end(alloc, text),
            PieceKind::Text => self.add_data(text),
            PieceKind::CData => self.add_text(text),
            PieceKind::Char { code } => self.add_char(code),
            PieceKind::Nothing => Ok(true),
        }
    }

    /// Takes a start tag, unless the root has ended.
    fn begin(&mut self, name: &[u8]) -> Result<bool, AllocError>
        ensures { IfOk result (λ ok.
            (if ok then Some self.new else None) ≡ element_begun name.now self.old) }
    {
        if self.path.is_empty() && self.begun {
            return Ok(false);
        }
        self.path.push(b'/')?;
        self.path.extend_from_slice(name)?;
        self.text.clear();
        self.begun = true;
        Ok(true)
    }

    /// Takes the end of an element, if the innermost one has this name.
    fn end(&mut self, alloc: Global, name: &[u8]) -> Result<bool, AllocError>
        ensures { IfOk result (λ ok.
            (if ok then Some self.new else None) ≡ element_ended name.now self.old) }
    {
        let Some(len) = len_around(self.path.as_slice(), name) else {
            return Ok(false);
        };
        let text = trimmed(self.text.as_slice());
        self.texts.put(alloc, self.path.as_slice(), text)?;
        self.path.truncate(len);
        self.text.clear();
        Ok(true)
    }

    /// Takes character data that isn't in a CDATA section.
    fn add_data(&mut self, text: &[u8]) -> Result<bool, AllocError>
        ensures { IfOk result (λ ok.
            (if ok then Some self.new else None) ≡ data_added text.now self.old) }
    {
        if self.path.is_empty() && is_white(text) {
            return Ok(true);
        }
        self.add_text(text)
    }

    /// Takes character data, if there is an open element.
    fn add_text(&mut self, text: &[u8]) -> Result<bool, AllocError>
        ensures { IfOk result (λ ok.
            (if ok then Some self.new else None) ≡ text_added text.now self.old) }
    {
        if self.path.is_empty() {
            return Ok(false);
        }
        self.text.extend_from_slice(text)?;
        Ok(true)
    }

    /// Takes a character, if there is an open element.
    fn add_char(&mut self, code: char) -> Result<bool, AllocError>
        ensures { IfOk result (λ ok.
            (if ok then Some self.new else None) ≡ text_added (encode_utf8 code) self.old) }
    {
        let mut buffer = [0; 4];
        self.add_text(code.encode_utf8(&mut buffer).as_bytes())
    }

    /// What was said, if the root has ended.
    fn into_said(self) -> Option<Vec<ChunkText>>
        ensures { option_map (λ v. v.items) result ≡ said_at_end self }
    {
        if self.path.is_empty() && self.begun {
            Some(self.texts.into_said())
        } else {
            None
        }
    }
}

/// How long the path is of the element in which the innermost one is, if that has this name.
fn len_around(path: &[u8], name: &[u8]) -> Option<usize>
    ensures { option_map (λ n. take n path.now) result ≡ path_around path.now name.now }
{
    let len = path.len().saturating_sub(name.len() + 1);
    if is_step(&path[len..], name) {
        Some(len)
    } else {
        None
    }
}

/// Whether these bytes are a name after a slash.
fn is_step(bytes: &[u8], name: &[u8]) -> bool
    ensures { result ≡ bytes_eq bytes.now (path_step name.now) }
{
    begins_with(bytes, b"/") && bytes[1..] == name[..]
}

/// A text without white space around it.
fn trimmed(bytes: &[u8]) -> &[u8]
    ensures { result.now ≡ trimmed bytes.now }
{
    without_end(after_white_space(bytes))
}

/// A text without the white space at its end.
fn without_end(bytes: &[u8]) -> &[u8]
    ensures { result.now ≡ reverse (after_white_space (reverse bytes.now)) }
{
    let mut len = 0;
    for place in 0..bytes.len() {
        if !is_white_space(bytes[place]) {
            len = place + 1;
        }
    }
    &bytes[..len]
}

fn is_white(bytes: &[u8]) -> bool
    ensures { result ≡ list_all is_white_space bytes.now }
{
    bytes.iter().all(|c| is_white_space(*c))
}

/// Whether these bytes may be those of a document.
fn is_xml_text(bytes: &[u8]) -> bool
    ensures { result ≡ is_xml_text bytes.now }
{
    is_text(bytes) && has_no_control(bytes)
}

/// Whether there is no control character but white space.
fn has_no_control(bytes: &[u8]) -> bool
    ensures { result ≡ has_no_control bytes.now }
{
    bytes.iter().all(|c| is_no_control(*c))
}

fn is_no_control(c: u8) -> bool
    ensures { result ≡ is_no_control c }
{
    is_white_space(c) || c > 31
}

/// Whether these bytes are UTF-8.
pub(crate) fn is_text(bytes: &[u8]) -> bool
    ensures { result ≡ is_utf8 bytes.now }
{
    match from_utf8(bytes) {
        Ok(_) => true,
        Err(_) => false,
    }
}

/// What follows a byte order mark at the front, if there is one.
fn after_order_mark(bytes: &[u8]) -> &[u8]
    ensures { result.now ≡ after_order_mark bytes.now }
{
    if begins_with(bytes, &[0xef, 0xbb, 0xbf]) {
        &bytes[3..]
    } else {
        bytes
    }
}

/// What the elements of a document say, if these bytes are one.
pub(crate) fn document_says(
    alloc: Global,
    bytes: &[u8],
) -> Result<Option<Vec<ChunkText>>, AllocError>
    ensures { IfOk result (λ found. option_map (λ v. v.items) found ≡ document_says bytes.now) }
{
    if !is_xml_text(bytes) {
        return Ok(None);
    }
    read_pieces(alloc, bytes.len(), after_order_mark(bytes))
}

/// What the elements of a document of at most so many pieces say, if these bytes are one.
fn read_pieces(
    alloc: Global,
    most: usize,
    bytes: &[u8],
) -> Result<Option<Vec<ChunkText>>, AllocError>
    ensures { IfOk result (λ found. option_map (λ v. v.items) found
        ≡ said_after_pieces most none_open [] bytes.now) }
{
    let mut elements = Elements::new(alloc);
    let mut tag: &[u8] = &[];
    let mut rest = bytes;
    for _ in 0..most {
        if rest.is_empty() {
            return Ok(elements.into_said());
        }
        let Some(piece) = piece_at(tag, rest) else {
            return Ok(None);
        };
        if !elements.take(alloc, piece.kind, piece.text)? {
            return Ok(None);
        }
        tag = piece.tag;
        rest = piece.rest;
    }
    Ok(elements.into_said())
}
