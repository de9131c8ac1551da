//! Entries of a journal, as they are read.
ghost use Rattle.std.specs.Prelude.{◌≡◌, ◌+◌, ◌*◌, ◌≤◌, IsTrue, IfSome, option_map, length};
ghost use Rattle.bw_model.specs.Bytes.{zeros as zero_bytes};
ghost use Rattle.bw_model.specs.Limits.{longest_block};
ghost use Rattle.bw_model.specs.Wire.{is_request};
ghost use Rattle.bw_model.specs.Requests.{meaning};
ghost use Rattle.bw_journal.specs.Entries.{block_noted, request_in, entry_in, longest_entry};
ghost use Rattle.bw_journal.specs.Refs.{entry_said};

use bw_model::{LONGEST_BLOCK, RequestRef, Verdict, read_u32};
use bw_wire::decode_request;

/// An entry has at most this many bytes.
pub const ENTRY_MAX: usize = 8297;

/// The kind byte of a block.
const BLOCK: u8 = 2;

/// A done number as a journal has it: a block has zeros in place of its samples.
#[derive(Clone, Copy, Debug)]
pub struct EntryRef<'a> {
    /// The request of its message.
    pub request: RequestRef<'a>,
    /// The verdict that was replied.
    pub verdict: Verdict,
    /// The digest of its body (SHA-256, FIPS 180-4).
    pub digest: &'a [u8],
}

/// The entry with this content; None if it is no entry.
///
/// `zeros` are 32,768 zero bytes, which the entry of a block borrows in place of samples.
#[tactic(auto, unfolding(crate::specs::Entries::entry_in))]
pub fn entry_of<'a>(content: &'a [u8], zeros: &'a [u8]) -> Option<EntryRef<'a>>
    requires { zeros.now ≡ zero_bytes longest_block }
    ensures value { option_map entry_said result ≡ entry_in content.now }
    ensures digest { IfSome result (λ e. length e.digest.now ≡ 32) }
    ensures fits { IfSome result (λ e. IsTrue (is_request (meaning e.request))) }
    ensures short { IfSome result (λ _. 2 * (length content.now + 8) + 1 ≤ longest_entry) }
{
    if content.len() < 34 {
        return None;
    }
    let Ok(verdict) = Verdict::try_from(content[0]) else {
        return None;
    };
    let Some(request) = request_of(&content[33..], zeros) else {
        return None;
    };
    Some(EntryRef {
        request,
        verdict,
        digest: &content[1..33],
    })
}

/// The request that is noted by these bytes.
fn request_of<'a>(noted: &'a [u8], zeros: &'a [u8]) -> Option<RequestRef<'a>>
    requires { zeros.now ≡ zero_bytes longest_block }
    ensures value { option_map meaning result ≡ request_in noted.now }
    ensures fits { IfSome result (λ r. IsTrue (is_request (meaning r))) }
{
    let Some((kind, payload)) = noted.split_first() else {
        return None;
    };
    if *kind == BLOCK {
        return block_of(payload, zeros);
    }
    match decode_request(noted) {
        Ok(request) => Some(request),
        Err(_) => None,
    }
}

/// The block of a length that is noted, with zeros as its samples.
fn block_of<'a>(payload: &[u8], zeros: &'a [u8]) -> Option<RequestRef<'a>>
    requires { zeros.now ≡ zero_bytes longest_block }
    ensures value { option_map meaning result ≡ block_noted payload.now }
    ensures fits { IfSome result (λ r. IsTrue (is_request (meaning r))) }
{
    if payload.len() != 4 {
        return None;
    }
    let len = read_u32(payload, 0) as usize;
    if len == 0 || len > LONGEST_BLOCK {
        return None;
    }
    Some(RequestRef::Block {
        bytes: &zeros[..len],
    })
}
