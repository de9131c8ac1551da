//! Notes of takes that were closed.
ghost use Rattle.std.specs.Prelude.{◌≡◌, IfOk};
ghost use Rattle.bw_journal.specs.Closings.{is_closing, notes_close};

use crate::line::{first_line, unstuff};
use std::alloc::AllocError;

/// The byte of the verdict Stored.
const STORED: u8 = 0;

/// The kind byte of a CLOSE.
const CLOSE: u8 = 5;

/// The place of the kind byte: a verdict and a digest come before it.
const KIND: usize = 33;

/// Whether bytes begin with the note of a CLOSE that was stored, by its verdict and its kind; its check
/// isn't looked at. `content` gets what their first line stands for.
///
/// # Errors
/// `AllocError` if memory was refused.
///
/// # Not specified
/// When memory is refused, and what replaces `content`.
pub fn notes_close(bytes: &[u8], content: &mut Vec<u8>) -> Result<bool, AllocError>
    ensures { IfOk result (λ closes. closes ≡ notes_close bytes.now) }
{
    let Some(line) = first_line(bytes) else {
        return Ok(false);
    };
    if unstuff(line, content)? {
        Ok(is_closing(content))
    } else {
        Ok(false)
    }
}

/// Whether a content has the verdict Stored and the kind of a CLOSE.
fn is_closing(content: &[u8]) -> bool
    ensures { result ≡ is_closing content.now }
{
    content.len() > KIND && content[0] == STORED && content[KIND] == CLOSE
}
