//! Texts of files as they are printed: they can't end a line, or write to a terminal.
ghost use Rattle.std.specs.Prelude.{◌≡◌, ◌++◌, OnOk};
ghost use Rattle.bw_recorder.specs.QuotedTexts.{quoted_byte, quoted_text};

use std::alloc::{AllocError, Global};

/// Appends a text between quotation marks. A byte that isn't printable ASCII, a quotation mark or a
/// backslash is `\x` and two digits.
///
/// # Errors
/// `AllocError` where memory was refused.
pub(crate) fn put_quoted(alloc: Global, text: &mut Vec<u8>, bytes: &[u8]) -> Result<(), AllocError>
    ensures { OnOk result (text.new.items ≡ text.old.items ++ quoted_text bytes.now) }
{
    text.extend_from_slice(b"\"")?;
    for byte in bytes {
        put_byte(alloc, text, *byte)?;
    }
    text.extend_from_slice(b"\"")
}

fn put_byte(alloc: Global, text: &mut Vec<u8>, byte: u8) -> Result<(), AllocError>
    ensures { OnOk result (text.new.items ≡ text.old.items ++ quoted_byte byte) }
{
    if (32..=126).contains(&byte) && byte != b'"' && byte != b'\\' {
        text.push(byte)?;
        return Ok(());
    }
    let digits = hex::encode(alloc, &[byte])?;
    text.extend_from_slice(b"\\x")?;
    text.extend_from_slice(digits.as_bytes())
}
