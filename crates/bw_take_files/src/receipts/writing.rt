//! A receipt is written.
ghost use Rattle.std.specs.Prelude.{◌≡◌, ◌∷◌, ◌++◌, [], IfOk, OnOk, Some, flat_map, string_bytes};
ghost use Rattle.serde_json.specs.Read.{read};
ghost use Rattle.serde_json.specs.View.{view};
ghost use Rattle.serde_json.specs.Written.{compact_text};
ghost use Rattle.bw_take_files.specs.Spellings.{hex_escape, receipt_json as json_of, receipt_object};
ghost use Rattle.bw_take_files.specs.Spellings.{receipt_text, source_byte, take_text, word_byte};

use crate::receipts::receipt::Receipt;
use serde_json::{Value, json};
use std::alloc::{AllocError, Global};

/// The line of words of a receipt, ended by a line feed: `receipt NAME FRAMES sha256=DIGITS ADDRESS
/// SOURCE`. In the address and in the source's name control characters and backslashes are `\x` and
/// two digits, and in the address blanks, too.
///
/// # Errors
/// `AllocError` if memory was refused.
#[tactic(auto, using(std::proofs::lemmas::List::append_assoc))]
pub fn receipt_line(
    alloc: Global,
    receipt: &Receipt,
    address: &str,
    source: &str,
) -> Result<Vec<u8>, AllocError>
    ensures { IfOk result (λ line. line.items
        ≡ receipt_text receipt.now address.now source.now) }
{
    let mut line = Vec::new(alloc);
    put_take(alloc, receipt, &mut line)?;
    put_word(alloc, address, &mut line)?;
    line.extend_from_slice(b" ")?;
    put_source(alloc, source, &mut line)?;
    line.extend_from_slice(b"\n")?;
    Ok(line)
}

/// Appends what a receipt says of its take, and a blank.
#[tactic(auto, unfolding(crate::specs::Spellings::take_text))]
fn put_take(alloc: Global, receipt: &Receipt, line: &mut Vec<u8>) -> Result<(), AllocError>
    ensures { OnOk result (line.new.items ≡ line.old.items
        ++ take_text receipt.now.name receipt.now.frames receipt.now.digest) }
{
    let Ok(name) = std::str::from_utf8(receipt.name.as_bytes()) else {
        return Err(AllocError);
    };
    let frames = receipt.frames;
    let digits = hex::encode(alloc, receipt.digest)?;
    let text = format!(in alloc; "receipt {name} {frames} sha256={digits} ")?;
    line.extend_from_slice(text.as_bytes())
}

/// Appends a text as one word.
fn put_word(alloc: Global, text: &str, line: &mut Vec<u8>) -> Result<(), AllocError>
    ensures { OnOk result (line.new.items ≡ line.old.items ++ flat_map word_byte text.now) }
{
    for byte in text.as_bytes() {
        put_word_byte(alloc, *byte, line)?;
    }
    Ok(())
}

/// Appends a text, whose blanks stay.
fn put_source(alloc: Global, text: &str, line: &mut Vec<u8>) -> Result<(), AllocError>
    ensures { OnOk result (line.new.items ≡ line.old.items ++ flat_map source_byte text.now) }
{
    for byte in text.as_bytes() {
        put_source_byte(alloc, *byte, line)?;
    }
    Ok(())
}

fn put_word_byte(alloc: Global, byte: u8, line: &mut Vec<u8>) -> Result<(), AllocError>
    ensures { OnOk result (line.new.items ≡ line.old.items ++ word_byte byte) }
{
    if byte == b' ' {
        put_escaped(alloc, byte, line)
    } else {
        put_source_byte(alloc, byte, line)
    }
}

fn put_source_byte(alloc: Global, byte: u8, line: &mut Vec<u8>) -> Result<(), AllocError>
    ensures { OnOk result (line.new.items ≡ line.old.items ++ source_byte byte) }
{
    if byte < 32 || byte == 127 || byte == b'\\' {
        put_escaped(alloc, byte, line)
    } else {
        line.push(byte)?;
        Ok(())
    }
}

fn put_escaped(alloc: Global, byte: u8, line: &mut Vec<u8>) -> Result<(), AllocError>
    ensures { OnOk result (line.new.items ≡ line.old.items ++ hex_escape byte) }
{
    let digits = hex::encode(alloc, &[byte])?;
    line.extend_from_slice(b"\\x")?;
    line.extend_from_slice(digits.as_bytes())
}

/// The line of JSON of a receipt, ended by a line feed: an object of its name, frames and digest, the
/// address and the source's name.
///
/// # Errors
/// `AllocError` if memory was refused.
pub fn receipt_json(
    alloc: Global,
    receipt: &Receipt,
    address: &str,
    source: &str,
) -> Result<Vec<u8>, AllocError>
    ensures { IfOk result (λ line. line.items ≡ json_of receipt.now address.now source.now) }
{
    let text = object_text(alloc, receipt, address, source)?;
    let mut line = Vec::new(alloc);
    line.extend_from_slice(text.as_bytes())?;
    line.extend_from_slice(b"\n")?;
    Ok(line)
}

/// The text of the object of a receipt.
fn object_text(
    alloc: Global,
    receipt: &Receipt,
    address: &str,
    source: &str,
) -> Result<String, AllocError>
    ensures text { IfOk result (λ t. string_bytes t
        ≡ compact_text (receipt_object receipt.now address.now source.now)) }
    ensures reads_back { IfOk result (λ t. read (string_bytes t)
        ≡ Some (receipt_object receipt.now address.now source.now)) }
{
    let value = receipt_value(alloc, receipt, address, source)?;
    value.to_string(alloc)
}

/// The object of a receipt.
fn receipt_value(
    alloc: Global,
    receipt: &Receipt,
    address: &str,
    source: &str,
) -> Result<Value, AllocError>
    ensures { IfOk result (λ v. view v ≡ receipt_object receipt.now address.now source.now) }
{
    let Ok(name) = std::str::from_utf8(receipt.name.as_bytes()) else {
        return Err(AllocError);
    };
    let frames = receipt.frames;
    let digits = hex::encode(alloc, receipt.digest)?;
    let digits = digits.as_str();
    json!(in alloc; {
        "address": address,
        "frames": frames,
        "name": name,
        "sha256": digits,
        "source": source
    })
}
