//! What chunks say beside the report, in lines and as JSON.
ghost use Rattle.std.specs.Prelude.{◌≡◌, ◌++◌, flat_map, map, IfOk, OnOk};
ghost use Rattle.serde_json.specs.Data.{array};
ghost use Rattle.serde_json.specs.View.{items_of, members_view, view};
ghost use Rattle.bw_report.specs.ContentTexts.{content_line, contents_lines, contents_or_null, id_text};
ghost use Rattle.bw_report.specs.ContentTexts.{index_text, kind_detail, said_kind, point_text, said_data};
ghost use Rattle.bw_report.specs.ContentTexts.{said_line, with_kind, with_said};
ghost use Rattle.bw_contents.specs.Texts.{kind_point};
ghost use Rattle.bw_report.specs.Values.{number_or_null};

use crate::human::visible;
use crate::shown::put_shown;
use crate::units::put_number;
use crate::value::{hex_value, put_text, text_before_zero, text_value};
use bw_contents::{ChunkText, Contents, Kind};
use bw_layout::ChunkId;
use serde_json::{Map, Value, put};
use std::alloc::{AllocError, Global};

/// Appends the lines of what the chunks say, if it is known.
pub(crate) fn put_contents(
    alloc: Global,
    text: &mut Vec<u8>,
    contents: &Option<Contents>,
) -> Result<(), AllocError>
    ensures { OnOk result (text.new.items ≡ text.old.items ++ contents_lines contents.now) }
{
    match contents {
        Some(contents) => put_lines(alloc, text, contents.as_slice()),
        None => Ok(()),
    }
}

fn put_lines(alloc: Global, text: &mut Vec<u8>, contents: &[ChunkText]) -> Result<(), AllocError>
    ensures { OnOk result (text.new.items ≡ text.old.items ++ flat_map said_line contents.now) }
{
    for content in contents {
        put_line(alloc, text, content)?;
    }
    Ok(())
}

/// Appends the line of a text's bytes before its first zero byte, if there are any.
fn put_line(alloc: Global, text: &mut Vec<u8>, content: &ChunkText) -> Result<(), AllocError>
    ensures { OnOk result (text.new.items ≡ text.old.items ++ said_line content.now) }
{
    let kind = content.kind;
    let bytes = text_before_zero(content.text.as_slice());
    put_shown_line(alloc, text, &kind, bytes)
}

fn put_shown_line(
    alloc: Global,
    text: &mut Vec<u8>,
    kind: &Kind,
    bytes: &[u8],
) -> Result<(), AllocError>
    ensures { OnOk result (text.new.items ≡ text.old.items ++ content_line kind.now bytes.now) }
{
    if bytes.is_empty() {
        return Ok(());
    }
    put_kind(text, kind)?;
    text.extend_from_slice(b" ")?;
    put_shown(alloc, text, bytes)?;
    text.extend_from_slice(b"\n")
}

/// Appends what a text is.
fn put_kind(text: &mut Vec<u8>, kind: &Kind) -> Result<(), AllocError>
    ensures { OnOk result (text.new.items ≡ text.old.items ++ said_kind kind.now) }
{
    text.extend_from_slice(kind.name().as_bytes())?;
    put_detail(text, kind)
}

/// Appends of what a text is, where there are several.
fn put_detail(text: &mut Vec<u8>, kind: &Kind) -> Result<(), AllocError>
    ensures { OnOk result (text.new.items ≡ text.old.items ++ kind_detail kind.now) }
{
    match kind {
        Kind::Tag => Ok(()),
        Kind::Speakers => Ok(()),
        Kind::Subformat => Ok(()),
        Kind::History => Ok(()),
        Kind::Info { id } => put_id(text, id),
        Kind::Label { point } => put_point(text, *point),
        Kind::Note { point } => put_point(text, *point),
        Kind::Cut { id } => put_id(text, id),
        Kind::Project => Ok(()),
        Kind::Scene => Ok(()),
        Kind::Take => Ok(()),
        Kind::Tape => Ok(()),
        Kind::IxmlNote => Ok(()),
        Kind::Track { index } => put_index(text, index),
        Kind::Function { index } => put_index(text, index),
        Kind::Channel { index } => put_index(text, index),
        Kind::Malformed { id } => put_id(text, id),
        Kind::Unread { id } => put_id(text, id),
        Kind::Xml { id } => put_id(text, id),
    }
}

fn put_id(text: &mut Vec<u8>, id: &ChunkId) -> Result<(), AllocError>
    ensures { OnOk result (text.new.items ≡ text.old.items ++ id_text id.now) }
{
    text.extend_from_slice(b" ")?;
    text.extend_from_slice(&visible(&id.0))
}

fn put_point(text: &mut Vec<u8>, point: u32) -> Result<(), AllocError>
    ensures { OnOk result (text.new.items ≡ text.old.items ++ point_text point) }
{
    text.extend_from_slice(b" ")?;
    put_number(text, point.into())
}

/// Appends the index of a track, if it has one.
fn put_index(text: &mut Vec<u8>, index: &Option<u32>) -> Result<(), AllocError>
    ensures { OnOk result (text.new.items ≡ text.old.items ++ index_text index.now) }
{
    match index {
        Some(index) => put_point(text, *index),
        None => Ok(()),
    }
}

/// What the chunks say, in their order, or null.
pub(crate) fn contents_value(
    alloc: Global,
    contents: &Option<Contents>,
) -> Result<Value, AllocError>
    ensures { IfOk result (λ v. view v ≡ contents_or_null contents.now) }
{
    match contents {
        Some(contents) => list_value(alloc, contents.as_slice()),
        None => Ok(Value::Null),
    }
}

fn list_value(alloc: Global, contents: &[ChunkText]) -> Result<Value, AllocError>
    ensures { IfOk result (λ v. view v ≡ array (items_of (map said_data contents.now))) }
{
    let mut values = Vec::new(alloc);
    for content in contents {
        values.push(content_value(alloc, content)?)?;
    }
    Ok(Value::Array(values))
}

fn content_value(alloc: Global, content: &ChunkText) -> Result<Value, AllocError>
    ensures { IfOk result (λ v. view v ≡ said_data content.now) }
{
    let mut members = Map::new(alloc);
    put_content(alloc, &mut members, content)?;
    Ok(Value::Object(members))
}

fn put_content(
    alloc: Global,
    members: &mut Map<String, Value>,
    content: &ChunkText,
) -> Result<(), AllocError>
    ensures { OnOk result (members_view members.new.entries
        ≡ with_said content.now (members_view members.old.entries)) }
{
    let kind = content.kind;
    let text = content.text.as_slice();
    put_text(alloc, members, "text", "text_hex", text)?;
    put_kind_members(alloc, members, kind)?;
    Ok(())
}

fn put_kind_members(
    alloc: Global,
    members: &mut Map<String, Value>,
    kind: Kind,
) -> Result<(), AllocError>
    ensures { OnOk result (members_view members.new.entries
        ≡ with_kind kind (members_view members.old.entries)) }
{
    let id = kind.id();
    put(members, alloc, "point", point_value(kind))?;
    let name = Value::try_from_str(alloc, kind.name())?;
    put(members, alloc, "kind", name)?;
    put(members, alloc, "id_hex", hex_value(alloc, &id.0)?)?;
    put(members, alloc, "id", text_value(alloc, &id.0)?)
}

/// The cue point or the track that a text is about, or null.
fn point_value(kind: Kind) -> Value
    ensures { view result ≡ number_or_null (kind_point kind) }
{
    match kind.point() {
        Some(point) => Value::from(point),
        None => Value::Null,
    }
}
