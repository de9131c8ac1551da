//! What is at the start of a stream's bytes, where replies are read.
ghost use Rattle.bw_wire.specs.ReplyPrefixes.{IsReplyPrefix};

use crate::framing::{Framing, framing_of};
use crate::reason::Reason;
use crate::reply::Reply;
use crate::reply_decoder::decode_reply;

/// The longest body of a reply: a notice under a name of 32 bytes.
const LONGEST_REPLY: u32 = 43;

/// What the first bytes of a stream are, a reply with the length of its body.
#[derive(Drop)]
pub(crate) enum ReplyPrefix {
    Partial,
    Bad(Reason),
    Whole(Reply, usize),
}

/// The first reply of the bytes.
pub(crate) fn reply_prefix_of(bytes: &[u8]) -> ReplyPrefix
    ensures { IsReplyPrefix bytes.now result }
{
    match framing_of(bytes, LONGEST_REPLY) {
        Framing::Partial => ReplyPrefix::Partial,
        Framing::Bad => ReplyPrefix::Bad(Reason::Length),
        Framing::Body(len) => match decode_reply(&bytes[4..4 + len]) {
            Err(reason) => ReplyPrefix::Bad(reason),
            Ok(reply) => ReplyPrefix::Whole(reply, len),
        },
    }
}
