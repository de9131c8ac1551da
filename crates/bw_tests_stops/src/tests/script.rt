//! The messages of a take, with what is known of it: all kinds of requests, one that is refused, a
//! file that turns from RIFF to BW64, and data of an odd length.
use std::alloc::{AllocError, Global};

/// How many messages there are.
pub(crate) const COUNT: usize = 8;

/// The message with this number, and after the last one none.
///
/// 48,000 Hz, one channel, 24 bits: a frame has three bytes. With the third block the file is longer
/// than a RIFF form of 8,192 bytes.
pub(crate) fn body(alloc: Global, number: usize) -> Result<Vec<u8>, AllocError> {
    match number {
        0 => b"\x01\x02a1\0\0\0\0\x80\xbb\0\0\x01\0\x18\0\x03\0A=P".to_vec(alloc),
        1 => b"\x02\x02a1\x01\0\0\0\x01\x02\x03".to_vec(alloc),
        2 => b"\x02\x02a1\x02\0\0\0\x01".to_vec(alloc),
        3 => b"\x04\x02a1\x03\0\0\0\x02bw".to_vec(alloc),
        4 => samples(alloc, b"\x02\x02a1\x04\0\0\0", 7_506),
        5 => b"\x03\x02a1\x05\0\0\0\x07\0\0\0\x02\0\0\0".to_vec(alloc),
        6 => b"\x02\x02a1\x06\0\0\0\x04\x05\x06".to_vec(alloc),
        _ => b"\x05\x02a1\x07\0\0\0\xc8\x09\0\0\0\0\0\0".to_vec(alloc),
    }
}

/// A BLOCK of this many bytes.
fn samples(alloc: Global, head: &[u8], count: usize) -> Result<Vec<u8>, AllocError> {
    let mut bytes = Vec::with_capacity(alloc, 8_192)?;
    bytes.extend_from_slice(head)?;
    for at in 0..count {
        bytes.push((at % 251) as u8)?;
    }
    Ok(bytes)
}
