//! A request in hex.
ghost use Rattle.std.specs.Prelude.{◌≡◌, ◌≢◌, Ok, IfOk, OnErr, MatchOption, length};
ghost use Rattle.bw_model.specs.Take.{Request as Requested};
ghost use Rattle.bw_model.specs.Wire.{decoded_request};
ghost use Rattle.bw_wire.specs.RequestTexts.{IsRequestText, IsEven};

use crate::decoder::decode_request;
use bw_model::Request;
use hex::FromHexError;
use std::alloc::{AllocError, Global};

/// The request whose kind byte and payload a text spells in hex, if it spells one.
///
/// # Errors
/// `AllocError` if memory was refused: only a text of an even length needs memory.
///
/// # Not specified
/// For an even number of digits: when memory is refused, and that it is refused only if they spell
/// a request.
pub fn request_from_hex(alloc: Global, text: &[u8]) -> Result<Option<Request>, AllocError>
    ensures ok { IfOk result (λ found. MatchOption found
        ((r : Requested) → ¬ IsRequestText text.now r) (λ r. IsRequestText text.now r)) }
    ensures err { OnErr result (IsEven (length text.now)) }
{
    match hex::decode(alloc, text) {
        Ok(bytes) => request_in(alloc, bytes.as_slice()),
        Err(FromHexError::OutOfMemory) => Err(AllocError),
        Err(FromHexError::InvalidHexCharacter { .. }) => Ok(None),
        Err(FromHexError::OddLength) => Ok(None),
        Err(FromHexError::InvalidStringLength) => Ok(None),
    }
}

/// The request that a kind byte and a payload spell, if they spell one.
///
/// # Errors
/// `AllocError` if memory was refused: only a request needs memory.
fn request_in(alloc: Global, bytes: &[u8]) -> Result<Option<Request>, AllocError>
    ensures ok { IfOk result (λ found. MatchOption found
        ((r : Requested) → decoded_request bytes.now ≢ Ok r)
        (λ r. decoded_request bytes.now ≡ Ok r)) }
    ensures err { OnErr result ((r : Requested) × (decoded_request bytes.now ≡ Ok r)) }
{
    match decode_request(bytes) {
        Ok(request) => Ok(Some(request.to_request(alloc)?)),
        Err(_) => Ok(None),
    }
}
