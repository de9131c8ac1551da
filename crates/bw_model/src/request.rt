//! Requests on a take, borrowed and owned.
ghost use Rattle.std.specs.Prelude.{◌≡◌, ◌<◌, ◌≤◌, ◌&&◌, nat_le, length, IsTrue, IfOk, OnErr};
ghost use Rattle.bw_model.specs.Limits.{longest_block};
ghost use Rattle.bw_model.specs.Wire.{is_request, are_bytes};
ghost use Rattle.bw_model.specs.Requests.{meaning, carried_bytes, samples_in};

use std::alloc::{AllocError, Global};
use std::marker::Model;

/// The longest coding history that a message carries, in bytes.
pub const LONGEST_HISTORY: usize = 4096;

/// The longest block of samples that a message carries, in bytes.
pub const LONGEST_BLOCK: usize = 32_768;

/// The longest value of a field that a message carries, in bytes.
pub const LONGEST_VALUE: usize = 256;

/// A request that borrows its bytes.
#[derive(Clone, Copy, Debug, PartialEq, Eq)]
pub enum RequestRef<'a> {
    /// Gives the take its format (Hz, samples per frame, bits per sample) and its coding history.
    OpenTake {
        rate: u32,
        channels: u16,
        bits: u16,
        history: &'a [u8],
    },
    /// Appends whole frames.
    Block {
        bytes: &'a [u8],
    },
    /// Adds a cue point: its identifier, and the frame that it marks.
    Mark {
        id: u32,
        frame: u32,
    },
    /// Sets a field of `bext`.
    SetField {
        tag: u8,
        value: &'a [u8],
    },
    /// Closes the take, which must have this many frames.
    CloseTake {
        frames: u64,
    },
}

impl RequestRef<'_> {
    /// Whether a message may carry it: a history of at most 4,096 bytes, a block of 1 to 32,768,
    /// a value of at most 256.
    pub fn fits(&self) -> bool
        ensures value { result ≡ is_request (meaning self.now) }
        ensures samples { IsTrue result → samples_in (meaning self.now) ≤ longest_block }
    {
        // The numbers are bound, and not left out, so that their types' ranges are known.
        match *self {
            RequestRef::OpenTake {
                rate: _rate,
                channels: _channels,
                bits: _bits,
                history,
            } => has_at_most(history, LONGEST_HISTORY),
            RequestRef::Block { bytes } => !bytes.is_empty() && has_at_most(bytes, LONGEST_BLOCK),
            RequestRef::Mark {
                id: _id,
                frame: _frame,
            } => true,
            RequestRef::SetField { tag: _tag, value } => has_at_most(value, LONGEST_VALUE),
            RequestRef::CloseTake { frames: _frames } => true,
        }
    }

    /// An owned copy of a request that fits.
    ///
    /// # Errors
    /// `AllocError` if memory was refused, never for a request that carries no bytes.
    ///
    /// # Not specified
    /// When memory is refused.
    pub fn to_request(&self, alloc: Global) -> Result<Request, AllocError>
        requires { IsTrue (is_request (meaning self.now)) }
        ensures ok { IfOk result (λ r. r ≡ meaning self.now) }
        ensures err { OnErr result (0 < length (carried_bytes (meaning self.now))) }
    {
        let owned = match *self {
            RequestRef::OpenTake {
                rate,
                channels,
                bits,
                history,
            } => Owned::OpenTake {
                rate,
                channels,
                bits,
                history: to_vec(alloc, history)?,
            },
            RequestRef::Block { bytes } => Owned::Block {
                bytes: to_vec(alloc, bytes)?,
            },
            RequestRef::Mark { id, frame } => Owned::Mark { id, frame },
            RequestRef::SetField { tag, value } => Owned::SetField {
                tag,
                value: to_vec(alloc, value)?,
            },
            RequestRef::CloseTake { frames } => Owned::CloseTake { frames },
        };
        Ok(Request { owned })
    }
}

/// A request that owns its bytes, and that a message may carry.
#[derive(Debug, Drop)]
pub struct Request {
    owned: Owned,
}

#[derive(Debug, Drop)]
enum Owned {
    OpenTake {
        rate: u32,
        channels: u16,
        bits: u16,
        history: Vec<u8>,
    },
    Block {
        bytes: Vec<u8>,
    },
    Mark {
        id: u32,
        frame: u32,
    },
    SetField {
        tag: u8,
        value: Vec<u8>,
    },
    CloseTake {
        frames: u64,
    },
}

impl Model for Request {
    ghost use Rattle.std.specs.Prelude.{IsTrue};
    ghost use Rattle.bw_model.specs.Take.{Request as Requested};
    ghost use Rattle.bw_model.specs.Limits.{longest_block};
    ghost use Rattle.bw_model.specs.Wire.{is_request};
    ghost use Rattle.bw_model.specs.OwnedRequests.{owned_meaning};

    ghost Value = { Requested };

    ghost view = { λ r. owned_meaning r.owned };

    ghost invariant = { λ r. IsTrue (is_request (owned_meaning r.owned)) };
}

impl Request {
    /// The same request, borrowed.
    pub fn as_ref(&self) -> RequestRef<'_>
        ensures same { meaning result ≡ self.now }
        ensures fits { IsTrue (is_request (meaning result)) }
    {
        match &self.owned {
            Owned::OpenTake {
                rate,
                channels,
                bits,
                history,
            } => RequestRef::OpenTake {
                rate: *rate,
                channels: *channels,
                bits: *bits,
                history: history.as_slice(),
            },
            Owned::Block { bytes } => RequestRef::Block {
                bytes: bytes.as_slice(),
            },
            Owned::Mark { id, frame } => RequestRef::Mark {
                id: *id,
                frame: *frame,
            },
            Owned::SetField { tag, value } => RequestRef::SetField {
                tag: *tag,
                value: value.as_slice(),
            },
            Owned::CloseTake { frames } => RequestRef::CloseTake { frames: *frames },
        }
    }
}

/// Whether there are at most this many bytes.
#[tactic(auto, using(crate::proofs::Ranges::are_bytes_lem))]
fn has_at_most(bytes: &[u8], most: usize) -> bool
    ensures { result ≡ (nat_le (length bytes.now) most && are_bytes bytes.now) }
{
    bytes.len() <= most
}

fn to_vec(alloc: Global, bytes: &[u8]) -> Result<Vec<u8>, AllocError>
    ensures ok { IfOk result (λ v. v.items ≡ bytes.now) }
    ensures err { OnErr result (0 < length bytes.now) }
{
    let mut items = Vec::new(alloc);
    items.reserve_exact(bytes.len())?;
    items.extend_from_slice(bytes)?;
    Ok(items)
}
