//! Lines of bytes: no byte of a line is 0 or 2, and a 2 ends it.
ghost use Rattle.std.specs.Prelude.{◌≡◌, ◌+◌, ◌≤◌, ◌++◌, ◌∷◌, [], IfOk, IfSome, IsNone, length, take, drop};
ghost use Rattle.bw_journal.specs.Lines.{journal_lines, plain as plain_of, stuffed, bytes_if};
ghost use Rattle.bw_journal.specs.Lines.{before_zero as before_zero_of};

use std::alloc::AllocError;

/// The byte that ends a line.
pub(crate) const END: u8 = 2;

/// The byte before each that stands for one of the three that a line doesn't have.
const STUFFING: u8 = 1;

/// What is added to a byte that a line doesn't have.
const ADDED: u8 = 3;

/// The line at the start of the bytes, without its end; none if a zero, or their end, comes first.
pub(crate) fn first_line(bytes: &[u8]) -> Option<&[u8]>
    ensures none { IsNone result → journal_lines bytes.now ≡ [] }
    ensures some { IfSome result (λ line. journal_lines bytes.now
        ≡ line.now ∷ journal_lines (drop (length line.now + 1) bytes.now)) }
    ensures within { IfSome result (λ line. length line.now + 1 ≤ length bytes.now) }
{
    for place in 0..bytes.len() {
        if bytes[place] == 0 {
            return None;
        }
        if bytes[place] == END {
            return Some(&bytes[..place]);
        }
    }
    None
}

/// The bytes before the first zero.
pub fn before_zero(bytes: &[u8]) -> &[u8]
    ensures { result.now ≡ before_zero_of bytes.now }
{
    for place in 0..bytes.len() {
        if bytes[place] == 0 {
            return &bytes[..place];
        }
    }
    bytes
}

/// Puts the bytes that a line stands for in place of others, and returns true; false if it stands
/// for none.
///
/// # Errors
/// `AllocError` if memory was refused.
pub(crate) fn unstuff(line: &[u8], out: &mut Vec<u8>) -> Result<bool, AllocError>
    ensures { IfOk result (λ stands. plain_of line.now ≡ bytes_if stands out.new.items) }
{
    out.clear();
    let mut after_one = false;
    for byte in line {
        if after_one {
            if *byte < ADDED || *byte > ADDED + END {
                return Ok(false);
            }
            out.push(*byte - ADDED)?;
            after_one = false;
        } else if *byte == STUFFING {
            after_one = true;
        } else if *byte < ADDED {
            return Ok(false);
        } else {
            out.push(*byte)?;
        }
    }
    Ok(!after_one)
}

/// How many more bytes a line has than those that it stands for.
pub(crate) fn count_stuffing(bytes: &[u8]) -> usize
    ensures value { result + length bytes.now ≡ length (stuffed bytes.now) }
    ensures few { result ≤ length bytes.now }
{
    let mut count = 0;
    for byte in bytes {
        if *byte < ADDED {
            count += 1;
        }
    }
    count
}

/// Puts the line of the first bytes, with its end, in place of all of them.
pub(crate) fn stuff(bytes: &mut [u8], len: usize)
    requires within { len ≤ length bytes.old }
    requires room { length bytes.old ≡ length (stuffed (take len bytes.old)) + 1 }
    ensures { bytes.new ≡ stuffed (take len bytes.old) ++ 2 ∷ [] }
{
    let mut place = bytes.len() - 1;
    bytes[place] = END;
    for step in 0..len {
        let byte = bytes[len - 1 - step];
        if byte < ADDED {
            bytes[place - 1] = byte + ADDED;
            place -= 2;
            bytes[place] = STUFFING;
        } else {
            place -= 1;
            bytes[place] = byte;
        }
    }
}
