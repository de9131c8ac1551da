//! The pieces that an XML document is written in.
ghost use Rattle.std.specs.Prelude.{◌≡◌, ◌≤◌, length, option_map, slice_index};
ghost use Rattle.std.specs.List.{prefix_len};
ghost use Rattle.bw_contents.specs.Pieces.{after_quoted, after_value, attribute_at, begin_at, cdata_at};
ghost use Rattle.bw_contents.specs.Pieces.{comment_at, content_piece_at, data_at, end_tag_at, instruction_at};
ghost use Rattle.bw_contents.specs.Pieces.{is_data_byte, piece_at, xml_piece_of, reference_at, tag_part_at};
ghost use Rattle.bw_contents.specs.Pieces.{whole_piece};
ghost use Rattle.bw_contents.specs.Markup.{is_white_space};

use crate::markup::{
    after_white_space, after_word, begins_with, char_named, cut_at_mark, is_white_space, name_at,
};

/// What a piece is.
#[derive(Clone, Copy, Debug, PartialEq, Eq)]
pub(crate) enum PieceKind {
    /// The name at the front of a start tag.
    Begin,
    /// The end of the element with this name.
    End,
    /// Character data.
    Text,
    /// The character data of a CDATA section.
    CData,
    /// A reference to a character.
    Char { code: char },
    /// A comment, a processing instruction, an attribute, or the end of a start tag.
    Nothing,
}

/// A piece of a document.
#[derive(Clone, Copy, Debug)]
pub(crate) struct Piece<'a> {
    pub kind: PieceKind,
    pub text: &'a [u8],
    /// The name of the element whose start tag goes on after it, or nothing.
    pub tag: &'a [u8],
    /// What follows it.
    pub rest: &'a [u8],
}

/// The next piece, in the start tag of this element if there is a name.
#[tactic(auto, unfolding(crate::specs::Pieces::piece_at))]
pub(crate) fn piece_at<'a>(tag: &'a [u8], bytes: &'a [u8]) -> Option<Piece<'a>>
    ensures { option_map xml_piece_of result ≡ piece_at tag.now bytes.now }
{
    if tag.is_empty() {
        content_piece_at(bytes)
    } else {
        tag_part_at(tag, bytes)
    }
}

/// A piece after which no start tag goes on.
fn whole_piece<'a>(kind: PieceKind, text: &'a [u8], rest: &'a [u8]) -> Piece<'a>
    ensures { xml_piece_of result ≡ whole_piece kind text.now rest.now }
{
    Piece {
        kind,
        text,
        tag: &[],
        rest,
    }
}

/// What isn't in a start tag.
#[tactic(auto, unfolding(crate::specs::Pieces::content_piece_at))]
fn content_piece_at(bytes: &[u8]) -> Option<Piece<'_>>
    ensures { option_map xml_piece_of result ≡ content_piece_at bytes.now }
{
    if begins_with(bytes, b"<!--") {
        comment_at(&bytes[4..])
    } else if begins_with(bytes, b"<![CDATA[") {
        cdata_at(&bytes[9..])
    } else if begins_with(bytes, b"<?") {
        instruction_at(&bytes[2..])
    } else if begins_with(bytes, b"</") {
        end_tag_at(&bytes[2..])
    } else if begins_with(bytes, b"<") {
        begin_at(&bytes[1..])
    } else if begins_with(bytes, b"&") {
        reference_at(&bytes[1..])
    } else {
        data_at(bytes)
    }
}

/// A comment after `<!--`.
#[tactic(auto, unfolding(crate::specs::Pieces::comment_at))]
fn comment_at(bytes: &[u8]) -> Option<Piece<'_>>
    ensures { option_map xml_piece_of result ≡ comment_at bytes.now }
{
    let (_comment, rest) = cut_at_mark(b"--", bytes)?;
    let rest = after_word(b">", rest)?;
    Some(whole_piece(PieceKind::Nothing, &[], rest))
}

/// A CDATA section after `<![CDATA[`.
#[tactic(auto, unfolding(crate::specs::Pieces::cdata_at))]
fn cdata_at(bytes: &[u8]) -> Option<Piece<'_>>
    ensures { option_map xml_piece_of result ≡ cdata_at bytes.now }
{
    let (text, rest) = cut_at_mark(b"]]>", bytes)?;
    Some(whole_piece(PieceKind::CData, text, rest))
}

/// A processing instruction, or the declaration of XML, after `<?`.
#[tactic(auto, unfolding(crate::specs::Pieces::instruction_at))]
fn instruction_at(bytes: &[u8]) -> Option<Piece<'_>>
    ensures { option_map xml_piece_of result ≡ instruction_at bytes.now }
{
    let (_target, rest) = name_at(bytes)?;
    let (_instruction, rest) = cut_at_mark(b"?>", rest)?;
    Some(whole_piece(PieceKind::Nothing, &[], rest))
}

/// An end tag after `</`.
#[tactic(auto, unfolding(crate::specs::Pieces::end_tag_at))]
fn end_tag_at(bytes: &[u8]) -> Option<Piece<'_>>
    ensures { option_map xml_piece_of result ≡ end_tag_at bytes.now }
{
    let (name, rest) = name_at(bytes)?;
    let rest = after_word(b">", after_white_space(rest))?;
    Some(whole_piece(PieceKind::End, name, rest))
}

/// The name of a start tag after `<`.
#[tactic(auto, unfolding(crate::specs::Pieces::begin_at))]
fn begin_at(bytes: &[u8]) -> Option<Piece<'_>>
    ensures { option_map xml_piece_of result ≡ begin_at bytes.now }
{
    let (name, rest) = name_at(bytes)?;
    Some(Piece {
        kind: PieceKind::Begin,
        text: name,
        tag: name,
        rest,
    })
}

/// A reference after `&`.
#[tactic(auto, unfolding(crate::specs::Pieces::reference_at))]
fn reference_at(bytes: &[u8]) -> Option<Piece<'_>>
    ensures { option_map xml_piece_of result ≡ reference_at bytes.now }
{
    let (name, rest) = cut_at_mark(b";", bytes)?;
    let code = char_named(name)?;
    Some(whole_piece(PieceKind::Char { code }, &[], rest))
}

/// How many bytes at the front are character data.
fn data_len(bytes: &[u8]) -> usize
    ensures value { result ≡ prefix_len is_data_byte bytes.now }
    ensures within { result ≤ length bytes.now }
{
    bytes
        .iter()
        .take_while(|c| !(**c == b'<' || **c == b'&'))
        .count()
}

/// Character data up to the next `<` or `&`.
#[tactic(auto, unfolding(crate::specs::Pieces::data_at))]
fn data_at(bytes: &[u8]) -> Option<Piece<'_>>
    ensures { option_map xml_piece_of result ≡ data_at bytes.now }
{
    let (text, rest) = bytes.split_at(data_len(bytes));
    if cut_at_mark(b"]]>", text).is_some() {
        return None;
    }
    Some(whole_piece(PieceKind::Text, text, rest))
}

/// The end of the start tag of an element with this name, or an attribute after white space.
#[tactic(auto, unfolding(crate::specs::Pieces::tag_part_at))]
fn tag_part_at<'a>(tag: &'a [u8], bytes: &'a [u8]) -> Option<Piece<'a>>
    ensures { option_map xml_piece_of result ≡ tag_part_at tag.now bytes.now }
{
    let rest = after_white_space(bytes);
    if begins_with(rest, b">") {
        Some(whole_piece(PieceKind::Nothing, &[], &rest[1..]))
    } else if begins_with(rest, b"/>") {
        Some(whole_piece(PieceKind::End, tag, &rest[2..]))
    } else if begins_with_white_space(bytes) {
        attribute_at(tag, rest)
    } else {
        None
    }
}

/// Whether the first byte is white space.
fn begins_with_white_space(bytes: &[u8]) -> bool
    ensures { result ≡ is_white_space (slice_index bytes.now 0) }
{
    !bytes.is_empty() && is_white_space(bytes[0])
}

/// An attribute.
#[tactic(auto, unfolding(crate::specs::Pieces::attribute_at))]
fn attribute_at<'a>(tag: &'a [u8], bytes: &'a [u8]) -> Option<Piece<'a>>
    ensures { option_map xml_piece_of result ≡ attribute_at tag.now bytes.now }
{
    let (_name, rest) = name_at(bytes)?;
    let value = after_word(b"=", after_white_space(rest))?;
    let rest = after_quoted(after_white_space(value))?;
    Some(Piece {
        kind: PieceKind::Nothing,
        text: &[],
        tag,
        rest,
    })
}

/// What follows an attribute's value in quotes.
#[tactic(auto, unfolding(crate::specs::Pieces::after_quoted))]
fn after_quoted(bytes: &[u8]) -> Option<&[u8]>
    ensures { option_map (λ rest. rest.now) result ≡ after_quoted bytes.now }
{
    if begins_with(bytes, b"'") {
        after_value(b"'", &bytes[1..])
    } else if begins_with(bytes, b"\"") {
        after_value(b"\"", &bytes[1..])
    } else {
        None
    }
}

/// What follows an attribute's value after its first quote.
#[tactic(auto, unfolding(crate::specs::Pieces::after_value))]
fn after_value<'a>(quote: &[u8], bytes: &'a [u8]) -> Option<&'a [u8]>
    ensures { option_map (λ rest. rest.now) result ≡ after_value quote.now bytes.now }
{
    let (value, rest) = cut_at_mark(quote, bytes)?;
    if cut_at_mark(b"<", value).is_some() {
        return None;
    }
    Some(rest)
}
