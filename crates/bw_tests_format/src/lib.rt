//! Worked rows of layouts, takes and journals, with bytes from outside, and each call once; what else of
//! frames, replies and readers no clause says and no run shows; and servers in memory that note in
//! journals. The crates below have no tests of their own, since a crate with tests is proved twice.
#![tactic(auto)]

#[cfg(test)]
mod tests;

use std::alloc::{AllocError, Global};

/// The RIFF file of two frames at 48,000 Hz, one channel, 16 bits: 694 bytes.
///
/// # Errors
/// `AllocError` if memory was refused.
pub fn two_frames(alloc: Global) -> Result<Vec<u8>, AllocError> {
    let mut file = Vec::with_capacity(alloc, 694)?;
    file.extend_from_slice(b"RIFF\xae\x02\0\0WAVEJUNK\x1c\0\0\0")?;
    file.resize(48, 0)?;
    file.extend_from_slice(b"fmt \x10\0\0\0\x01\0\x01\0\x80\xbb\0\0\0\x77\x01\0\x02\0\x10\0")?;
    file.extend_from_slice(b"bext\x5a\x02\0\0")?;
    file.resize(426, 0)?;
    file.push(1)?;
    file.resize(682, 0)?;
    file.extend_from_slice(b"data\x04\0\0\0\x01\0\x02\0")?;
    Ok(file)
}
