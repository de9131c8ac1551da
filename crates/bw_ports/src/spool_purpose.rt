//! What a spool is begun for, and whether one that is found is used for it.
ghost use Rattle.std.specs.Prelude.{◌≡◌, ◌++◌, IfOk, OnOk, decimal};
ghost use Rattle.bw_ports.specs.Purposes.{line_of, HoldsBy};

use itoa::Buffer;
use std::alloc::{AllocError, Global};

/// What a spool is begun for: a take, and the form of its samples.
#[derive(Clone, Copy, Debug)]
pub struct Purpose<'a> {
    /// The take's name.
    pub name: &'a [u8],
    /// Frames a second.
    pub rate: u32,
    pub channels: u32,
    /// Bits of a sample.
    pub bits: u32,
    /// How many bytes come before the samples.
    pub skip: u32,
}

/// How a spool that is found is used for a purpose.
#[derive(Clone, Copy, Debug, PartialEq, Eq)]
pub enum Hold {
    /// It is bound to it from now on: it holds nothing yet, or nothing says what it was begun for.
    Begins,
    /// It goes on, since it was begun for it.
    GoesOn,
    /// It isn't used, since it was begun for something else.
    Refuses,
}

/// The line that binds a spool to a purpose.
///
/// # Errors
/// `AllocError` if memory was refused.
///
/// # Not specified
/// When memory is refused.
pub fn purpose_line(alloc: Global, purpose: &Purpose<'_>) -> Result<Vec<u8>, AllocError>
    ensures { IfOk result (λ line. line.items ≡ line_of purpose.now) }
{
    let mut line = Vec::from_slice(alloc, b"name=")?;
    line.extend_from_slice(purpose.name)?;
    put_number(&mut line, b" pcm=", purpose.rate)?;
    put_number(&mut line, b",", purpose.channels)?;
    put_number(&mut line, b",", purpose.bits)?;
    put_number(&mut line, b" skip=", purpose.skip)?;
    line.extend_from_slice(b"\n")?;
    Ok(line)
}

/// Appends a text and a number.
///
/// # Errors
/// `AllocError` if memory was refused.
fn put_number(line: &mut Vec<u8>, before: &[u8], number: u32) -> Result<(), AllocError>
    ensures { OnOk result (line.new.items ≡ line.old.items ++ before.now ++ decimal number) }
{
    line.extend_from_slice(before)?;
    line.extend_from_slice(Buffer::new().format(number).as_bytes())
}

/// How a spool of `len` bytes with this text at its side is used for the purpose of this line.
pub fn hold_for(len: u64, found: &[u8], line: &[u8]) -> Hold
    ensures { HoldsBy result len found.now line.now }
{
    if len == 0 || found.is_empty() {
        Hold::Begins
    } else if found == line {
        Hold::GoesOn
    } else {
        Hold::Refuses
    }
}
