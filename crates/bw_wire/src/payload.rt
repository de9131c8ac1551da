//! Payloads: what follows the number of a message.
ghost use Rattle.std.specs.Prelude.{◌≡◌, ◌≤◌, IsTrue};
ghost use Rattle.bw_model.specs.Wire.{is_payload as is_payload_of, request_of as request_in};
ghost use Rattle.bw_model.specs.Requests.{meaning};

use bw_model::{
    LONGEST_BLOCK, LONGEST_HISTORY, LONGEST_VALUE, RequestRef, read_u16, read_u32, read_u64,
};

pub(crate) const OPEN: u8 = 1;

pub(crate) const BLOCK: u8 = 2;

pub(crate) const MARK: u8 = 3;

pub(crate) const SET_FIELD: u8 = 4;

pub(crate) const CLOSE: u8 = 5;

pub(crate) const ASK: u8 = 6;

pub(crate) const BYE: u8 = 9;

/// Whether the bytes are as long as a payload of this kind.
pub(crate) fn is_payload(kind: u8, payload: &[u8]) -> bool
    ensures { result ≡ is_payload_of kind payload.now }
{
    match kind {
        OPEN => is_opening(payload),
        BLOCK => !payload.is_empty() && payload.len() <= LONGEST_BLOCK,
        MARK | CLOSE => payload.len() == 8,
        SET_FIELD => !payload.is_empty() && payload.len() <= 1 + LONGEST_VALUE,
        ASK => payload.is_empty(),
        _ => false,
    }
}

/// Whether a coding history of the length that the payload gives follows the format.
fn is_opening(payload: &[u8]) -> bool
    ensures { result ≡ is_payload_of 1 payload.now }
{
    if payload.len() < 10 {
        return false;
    }
    let history_len = usize::from(read_u16(payload, 8));
    payload.len() == 10 + history_len && history_len <= LONGEST_HISTORY
}

/// The request of a kind with its payload.
pub(crate) fn request_of(kind: u8, payload: &[u8]) -> RequestRef<'_>
    requires request { kind ≤ 5 }
    requires payload { IsTrue (is_payload_of kind payload.now) }
    ensures { meaning result ≡ request_in kind payload.now }
{
    match kind {
        OPEN => RequestRef::OpenTake {
            rate: read_u32(payload, 0),
            channels: read_u16(payload, 4),
            bits: read_u16(payload, 6),
            history: &payload[10..],
        },
        BLOCK => RequestRef::Block { bytes: payload },
        MARK => RequestRef::Mark {
            id: read_u32(payload, 0),
            frame: read_u32(payload, 4),
        },
        SET_FIELD => RequestRef::SetField {
            tag: payload[0],
            value: &payload[1..],
        },
        _ => RequestRef::CloseTake {
            frames: read_u64(payload, 0),
        },
    }
}
