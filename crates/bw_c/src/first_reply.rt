//! The reply at the start of bytes.
ghost use Rattle.bw_c.specs.FirstReplies.{IsReplyAt, IsBodyAt};

use bw_model::read_u32;
use bw_wire::{Reason, Reply, decode_reply};

/// The longest body of a reply: a notice under a name of 32 bytes.
const LONGEST_REPLY: u32 = 43;

/// What is at the start: no whole reply yet, no reply, or one, with the length of its body.
#[derive(Drop)]
pub(crate) enum FirstReply {
    Partial,
    Bad(Reason),
    Whole(Reply, usize),
}

/// A body after its length: not whole yet, of a length that no reply has, or of this length.
#[derive(Clone, Copy)]
enum BodyAt {
    Partial,
    Bad,
    Whole(usize),
}

/// The reply at the start of these bytes.
pub(crate) fn reply_at(bytes: &[u8]) -> FirstReply
    ensures { IsReplyAt bytes.now result }
{
    match body_at(bytes) {
        BodyAt::Partial => FirstReply::Partial,
        BodyAt::Bad => FirstReply::Bad(Reason::Length),
        BodyAt::Whole(len) => match decode_reply(&bytes[4..4 + len]) {
            Err(reason) => FirstReply::Bad(reason),
            Ok(reply) => FirstReply::Whole(reply, len),
        },
    }
}

/// The body at the start of these bytes.
fn body_at(bytes: &[u8]) -> BodyAt
    ensures { IsBodyAt bytes.now result }
{
    if bytes.len() < 4 {
        return BodyAt::Partial;
    }
    let len = read_u32(bytes, 0);
    if len == 0 {
        return BodyAt::Bad;
    }
    if len > LONGEST_REPLY {
        return BodyAt::Bad;
    }
    let len = len as usize;
    if bytes.len() < 4 + len {
        return BodyAt::Partial;
    }
    BodyAt::Whole(len)
}
