//! What comes before the first block of a take.
ghost use Rattle.std.specs.Prelude.{◌≡◌, ◌≤◌, ◌++◌, ℕ, List, length};
ghost use Rattle.std.specs.Prelude.{IfOk, IfErr, OnOk, MatchOption};
ghost use Rattle.sha2.specs.Sha256.{sha256};
ghost use Rattle.bw_model.specs.Take.{Block, Request as Message};
ghost use Rattle.bw_model.specs.Wire.{Second, last_number, body, framed};
ghost use Rattle.bw_wire.specs.EncodedFrames.{said};
ghost use Rattle.bw_send_file.specs.declared.fault.FeedFault.TheVariants.{Memory};
ghost use Rattle.bw_send_file.specs.TakeOpenings.{IsNoBlock, IsOpeningOf, StopsOpening};

use crate::FeedFault;
use bw_model::{Name, Request, RequestRef};
use bw_upload::{Feed, Given};
use bw_wire::encode;
use sha2::{Digest, Sha256};
use std::alloc::{AllocError, Global};

/// How many requests a sender has numbers for.
const MOST_REQUESTS: u32 = 16_777_216;

/// What comes before the first block of a take.
#[derive(Clone, Copy, Debug)]
pub struct Opening {
    /// The SHA-256 digest (FIPS 180-4) of the frames of the requests before it, as they are sent.
    pub digest: [u8; 32],
    /// Its length in bytes; 0 if there is none.
    pub block: u32,
}

/// The opening of a take of this name with the requests that a feed gives.
///
/// # Errors
/// The feed's fault; Unsendable if it has nothing yet, or gives more requests than a take has;
/// Memory.
///
/// # Not specified
/// What the feed still gives afterwards.
pub fn opening_of<X: Feed<Fault = FeedFault>>(
    alloc: Global,
    name: &Name,
    feed: &mut X,
) -> Result<Opening, FeedFault>
    // The SHA-256 digest of the frames before the first block, and that block's length.
    ensures ok { IfOk result (λ opening. (requests : List Message) → X.left feed.old requests →
        IsOpeningOf name.now requests opening) }
    ensures err { IfErr result (λ fault. StopsOpening X.Feed feed.old fault) }
{
    let mut frames = Vec::new(alloc);
    for number in 0..MOST_REQUESTS {
        match feed.next()? {
            Given::Request(request) => {
                match block_len(&request) {
                    Some(len) => return Ok(opening_before(frames.as_slice(), len)),
                    None => put_frame(alloc, &mut frames, name, number, &request)?,
                }
            }
            Given::NotYet => return Err(FeedFault::Unsendable),
            Given::End => return Ok(opening_before(frames.as_slice(), 0)),
        }
    }
    Err(FeedFault::Unsendable)
}

/// The opening with these frames before a block of this length.
fn opening_before(frames: &[u8], block: u32) -> Opening
    ensures digest { result.digest ≡ sha256 frames.now }
    ensures block { result.block ≡ block }
{
    Opening {
        digest: Sha256::digest(frames),
        block,
    }
}

/// The length of a block; None for another request.
fn block_len(request: &Request) -> Option<u32>
    ensures { MatchOption result (IsNoBlock request.now)
        (λ len. (bytes : List ℕ) × (request.now ≡ Block bytes) × (len ≡ length bytes)) }
{
    match request.as_ref() {
        RequestRef::Block { bytes } => Some(bytes.len() as u32),
        _ => None,
    }
}

/// Appends the frame of a request.
///
/// # Errors
/// Memory.
fn put_frame(
    alloc: Global,
    frames: &mut Vec<u8>,
    name: &Name,
    number: u32,
    request: &Request,
) -> Result<(), FeedFault>
    requires { number ≤ last_number Second }
    ensures ok { OnOk result (frames.new.items ≡
        frames.old.items ++ framed (body (said name.now number request.now))) }
    ensures err { IfErr result (λ fault. fault ≡ Memory) }
{
    match append_frame(alloc, frames, name, number, request) {
        Ok(()) => Ok(()),
        Err(_) => Err(FeedFault::Memory),
    }
}

fn append_frame(
    alloc: Global,
    frames: &mut Vec<u8>,
    name: &Name,
    number: u32,
    request: &Request,
) -> Result<(), AllocError>
    requires { number ≤ last_number Second }
    ensures { OnOk result (frames.new.items ≡
        frames.old.items ++ framed (body (said name.now number request.now))) }
{
    let frame = encode(alloc, name, number, &request.as_ref())?;
    frames.extend_from_slice(frame.as_slice())
}
