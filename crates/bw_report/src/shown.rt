//! Names and texts of files as they are printed: they can't end a line, or write to a terminal.
ghost use Rattle.std.specs.Prelude.{◌≡◌, ◌++◌, ◌∷◌, [], OnOk};
ghost use Rattle.std.specs.Str.{is_utf8};
ghost use Rattle.bw_report.specs.ShownTexts.{escaped, name_byte, name_line, shown_byte, shown_text};

use std::alloc::{AllocError, Global};
use std::str::from_utf8;

/// Appends the line of a name. Control characters and backslashes are `\x` and two digits.
pub(crate) fn put_name(alloc: Global, text: &mut Vec<u8>, name: &str) -> Result<(), AllocError>
    ensures { OnOk result (text.new.items ≡ text.old.items ++ name_line name.now) }
{
    text.extend_from_slice(b"file ")?;
    for byte in name.as_bytes() {
        put_name_byte(alloc, text, *byte)?;
    }
    text.extend_from_slice(b"\n")
}

/// Appends a text of a file as a name is shown; of one that isn't UTF-8, each byte from 128 on is
/// `\x` and two digits too.
pub(crate) fn put_shown(alloc: Global, text: &mut Vec<u8>, bytes: &[u8]) -> Result<(), AllocError>
    ensures { OnOk result (text.new.items ≡ text.old.items ++ shown_text bytes.now) }
{
    let is_text = is_text(bytes);
    for byte in bytes {
        put_shown_byte(alloc, text, is_text, *byte)?;
    }
    Ok(())
}

/// Whether these bytes are UTF-8.
fn is_text(bytes: &[u8]) -> bool
    ensures { result ≡ is_utf8 bytes.now }
{
    match from_utf8(bytes) {
        Ok(_) => true,
        Err(_) => false,
    }
}

fn put_shown_byte(
    alloc: Global,
    text: &mut Vec<u8>,
    is_text: bool,
    byte: u8,
) -> Result<(), AllocError>
    ensures { OnOk result (text.new.items ≡ text.old.items ++ shown_byte is_text byte) }
{
    if !is_text && byte > 127 {
        put_escaped(alloc, text, byte)
    } else {
        put_name_byte(alloc, text, byte)
    }
}

fn put_name_byte(alloc: Global, text: &mut Vec<u8>, byte: u8) -> Result<(), AllocError>
    ensures { OnOk result (text.new.items ≡ text.old.items ++ name_byte byte) }
{
    if byte < 32 || byte == 127 || byte == b'\\' {
        put_escaped(alloc, text, byte)
    } else {
        text.push(byte)?;
        Ok(())
    }
}

fn put_escaped(alloc: Global, text: &mut Vec<u8>, byte: u8) -> Result<(), AllocError>
    ensures { OnOk result (text.new.items ≡ text.old.items ++ escaped byte) }
{
    let digits = hex::encode(alloc, &[byte])?;
    text.extend_from_slice(b"\\x")?;
    text.extend_from_slice(digits.as_bytes())
}
