//! Notes of numbers that wrote nothing to the file of their take.
ghost use Rattle.std.specs.Prelude.{◌≡◌, IfOk};
ghost use Rattle.bw_folder.specs.FileNotes.{is_unwritten, writes_file};

use bw_journal::first_content;
use std::alloc::AllocError;

/// The byte of the verdict Stored.
const STORED: u8 = 0;

/// The kind byte of a MARK.
const MARK: u8 = 3;

/// The place of the kind byte: a verdict and a digest come before it.
const KIND: usize = 33;

/// Whether the number of a note wrote to its take's file: not that of a MARK, nor one whose verdict isn't
/// Stored. Other bytes than one whole entry count as written. `content` gets what their first line
/// stands for.
///
/// # Errors
/// `AllocError` if memory was refused.
pub(crate) fn writes_file(bytes: &[u8], content: &mut Vec<u8>) -> Result<bool, AllocError>
    ensures { IfOk result (λ writes. writes ≡ writes_file bytes.now) }
{
    let Some(len) = first_content(bytes, content)? else {
        return Ok(true);
    };
    Ok(len != bytes.len() || !is_unwritten(content))
}

/// Whether a content has another verdict than Stored, or the kind of a MARK.
fn is_unwritten(content: &[u8]) -> bool
    ensures { result ≡ is_unwritten content.now }
{
    content.len() > KIND && (content[0] != STORED || content[KIND] == MARK)
}
