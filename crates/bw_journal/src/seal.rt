//! Contents as lines, each with its check.
ghost use Rattle.std.specs.Prelude.{◌≡◌, ◌+◌, ◌≤◌, ◌++◌, ◌∷◌, [], IfOk, IfSome, OnOk, OnErr, IsOk, length};
ghost use Rattle.std.specs.Prelude.{take, drop, option_map, vec_len, vec_capacity};
ghost use Rattle.std.specs.Str.{bytes_eq};
ghost use Rattle.bw_layout.specs.AppendedBytes.{Gains};
ghost use Rattle.bw_journal.specs.Lines.{stuffed, bytes_if};
ghost use Rattle.bw_journal.specs.Seals.{opened as opened_in, check as check_of};
ghost use Rattle.bw_journal.specs.Entries.{first_content as first_content_of};

use crate::line::{END, count_stuffing, first_line, stuff, unstuff};
use sha2::{Digest, Sha256};
use std::alloc::AllocError;

/// Puts the content of the line at the start of the bytes in place of others, and returns how many
/// bytes the line takes; None if no line ends there, or its check is wrong.
///
/// # Errors
/// `AllocError` if memory was refused.
///
/// # Not specified
/// When memory is refused, and what replaces the other bytes after None or an error.
#[tactic(auto, unfolding(crate::specs::Entries::first_content))]
pub fn first_content(bytes: &[u8], content: &mut Vec<u8>) -> Result<Option<usize>, AllocError>
    ensures value { IfOk result (λ found.
        option_map (λ n. (content.new.items, n)) found ≡ first_content_of bytes.now) }
    ensures within { IfOk result (λ found. IfSome found (λ n. n ≤ length bytes.now)) }
{
    let Some(line) = first_line(bytes) else {
        return Ok(None);
    };
    if open(line, content)? {
        Ok(Some(line.len() + 1))
    } else {
        Ok(None)
    }
}

/// Puts the content of a line in place of other bytes, and returns true; false if the line isn't
/// what a content and its check are written as.
///
/// # Errors
/// `AllocError` if memory was refused.
#[tactic(auto, unfolding(crate::specs::Seals::opened))]
pub(crate) fn open(line: &[u8], content: &mut Vec<u8>) -> Result<bool, AllocError>
    ensures { IfOk result (λ opens. opened_in line.now ≡ bytes_if opens content.new.items) }
{
    if !unstuff(line, content)? || content.len() < 8 {
        return Ok(false);
    }
    let end = content.len() - 8;
    if !is_check(&content[end..], &content[..end]) {
        return Ok(false);
    }
    content.truncate(end);
    Ok(true)
}

/// Whether these bytes are the check of a content.
#[tactic(auto, unfolding(crate::specs::Seals::check))]
pub(crate) fn is_check(found: &[u8], content: &[u8]) -> bool
    ensures { result ≡ bytes_eq found.now (check_of content.now) }
{
    let digest = Sha256::digest(content);
    found == &digest[..8]
}

/// The digest of a content, which begins with its check.
#[tactic(auto, unfolding(crate::specs::Seals::check))]
pub(crate) fn check(content: &[u8]) -> [u8; 32]
    ensures { take 8 result ≡ check_of content.now }
{
    Sha256::digest(content)
}

/// Makes a line, with its end, of the bytes of a Vec from a place on.
///
/// # Errors
/// `AllocError` if memory was refused, never if there is room: nothing has changed.
pub(crate) fn stuff_from(out: &mut Vec<u8>, start: usize) -> Result<(), AllocError>
    requires { start ≤ vec_len out.old }
    ensures ok { OnOk result (out.new.items
        ≡ take start out.old.items ++ (stuffed (drop start out.old.items) ++ 2 ∷ [])) }
    ensures len { OnOk result (vec_len out.new
        ≡ start + length (stuffed (drop start out.old.items)) + 1) }
    ensures err { OnErr result (out.new.items ≡ out.old.items) }
    ensures capacity { vec_capacity out.old ≤ vec_capacity out.new }
    ensures succeeds { start + length (stuffed (drop start out.old.items)) + 1
        ≤ vec_capacity out.old → IsOk result }
{
    let len = out.len() - start;
    let more = count_stuffing(&out[start..]) + 1;
    out.resize(out.len() + more, END)?;
    stuff(&mut out[start..], len);
    Ok(())
}

/// Appends bytes; there is room for them.
pub(crate) fn push(out: &mut Vec<u8>, bytes: &[u8])
    requires { vec_len out.old + length bytes.now ≤ vec_capacity out.old }
    ensures { Gains bytes.now (length bytes.now) out.old out.new }
{
    out.extend_from_slice(bytes).unwrap();
}
