//! Texts, numbers and levels as JSON values.
ghost use Rattle.std.specs.Prelude.{◌≡◌, ◌≤◌, ◌==◌, not, length, take_while, IfOk, OnOk};
ghost use Rattle.std.specs.List.{prefix_len};
ghost use Rattle.serde_json.specs.View.{view, members_view};
ghost use Rattle.bw_report.specs.Values.{hex_data, level_data, number_or_null, text_data};
ghost use Rattle.bw_report.specs.Values.{with_text};

use serde_json::{Map, Value, put};
use std::alloc::{AllocError, Global};
use std::str::from_utf8;

/// A text: a string if its bytes are UTF-8, else null.
pub(crate) fn text_value(alloc: Global, bytes: &[u8]) -> Result<Value, AllocError>
    ensures { IfOk result (λ v. view v ≡ text_data bytes.now) }
{
    match from_utf8(bytes) {
        Ok(text) => Value::try_from_str(alloc, text),
        Err(_) => Ok(Value::Null),
    }
}

/// Bytes as hex digits, in lower case.
pub(crate) fn hex_value(alloc: Global, bytes: &[u8]) -> Result<Value, AllocError>
    ensures { IfOk result (λ v. view v ≡ hex_data bytes.now) }
{
    Ok(Value::String(hex::encode(alloc, bytes)?))
}

/// A number, or null.
pub(crate) fn number_value(number: Option<u64>) -> Value
    ensures { view result ≡ number_or_null number }
{
    match number {
        Some(number) => Value::from(number),
        None => Value::Null,
    }
}

/// A level of `bext`, 100 times its value: a signed 16-bit number by its bits. 7FFFh, which means
/// not given, is null.
pub(crate) fn level_value(level: u16) -> Value
    ensures { view result ≡ level_data level }
{
    if level == 0x7fff {
        Value::Null
    } else if level < 0x8000 {
        Value::from(level)
    } else {
        Value::from(i32::from(level) - 0x1_0000)
    }
}

/// Puts a text of a file into an object: as a string or null, and as hex digits. Of a field these
/// are the bytes before its first zero byte.
pub(crate) fn put_text(
    alloc: Global,
    members: &mut Map<String, Value>,
    key: &str,
    hex_key: &str,
    field: &[u8],
) -> Result<(), AllocError>
    ensures { OnOk result (members_view members.new.entries
        ≡ with_text key.now hex_key.now (take_while (λ c. not (c == 0)) field.now)
        (members_view members.old.entries)) }
{
    let text = text_before_zero(field);
    put(members, alloc, key, text_value(alloc, text)?)?;
    put(members, alloc, hex_key, hex_value(alloc, text)?)
}

/// A field's bytes before its first zero byte.
pub(crate) fn text_before_zero(field: &[u8]) -> &[u8]
    ensures { result.now ≡ take_while (λ c. not (c == 0)) field.now }
{
    &field[..text_len(field)]
}

fn text_len(field: &[u8]) -> usize
    ensures value { result ≡ prefix_len (λ c. not (c == 0)) field.now }
    ensures within { result ≤ length field.now }
{
    field.iter().take_while(|c| **c != 0).count()
}
