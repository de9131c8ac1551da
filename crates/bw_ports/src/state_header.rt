//! The header of a state.
ghost use Rattle.std.specs.Prelude.{◌≡◌, ◌++◌, ◌∷◌, [], IfOk, OnOk};
ghost use Rattle.bw_ports.specs.Headers.{state_header, origin_of};

use itoa::Buffer;
use std::alloc::{AllocError, Global};

/// What a state is about: of another take, another server or another file it says nothing.
#[derive(Clone, Copy, Debug)]
pub struct Subject<'a> {
    /// The take's name.
    pub name: &'a [u8],
    /// Where its server listens.
    pub address: &'a [u8],
    /// The length of the file that it is sent from, in bytes.
    pub len: u64,
    /// When the file was last changed, in nanoseconds since the start of 1970 (UTC).
    pub changed: u64,
    /// The length of its first block, in bytes; 0 if there is none.
    pub block: u32,
    /// The SHA-256 digest (FIPS 180-4) of the requests before the first block.
    pub opening: [u8; 32],
}

/// The header of a state about this, without the line feed that ends it.
///
/// # Errors
/// `AllocError` if memory was refused.
///
/// # Not specified
/// When memory is refused.
pub fn header_text(alloc: Global, subject: &Subject<'_>) -> Result<Vec<u8>, AllocError>
    ensures { IfOk result (λ text. text.items ≡ state_header (origin_of subject.now)) }
{
    let mut text = Vec::from_slice(alloc, b"bwingest-state-1")?;
    put_word(&mut text, subject.name)?;
    put_word(&mut text, subject.address)?;
    put_word(&mut text, Buffer::new().format(subject.len).as_bytes())?;
    put_word(&mut text, Buffer::new().format(subject.changed).as_bytes())?;
    put_word(&mut text, Buffer::new().format(subject.block).as_bytes())?;
    let digest = hex::encode(alloc, subject.opening)?;
    put_word(&mut text, digest.as_str().as_bytes())?;
    Ok(text)
}

/// Appends a space and a word.
///
/// # Errors
/// `AllocError` if memory was refused.
fn put_word(text: &mut Vec<u8>, word: &[u8]) -> Result<(), AllocError>
    ensures { OnOk result (text.new.items ≡ text.old.items ++ 32 ∷ word.now) }
{
    text.extend_from_slice(b" ")?;
    text.extend_from_slice(word)
}
