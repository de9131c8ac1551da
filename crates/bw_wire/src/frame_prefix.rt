//! What is at the start of a stream's bytes.
ghost use Rattle.bw_wire.specs.FramePrefixes.{IsFramePrefix};

use crate::decoder::decode;
use crate::framing::{Framing, framing_of};
use crate::message::Frame;
use crate::reason::Reason;

/// The longest body of a frame: a block of 32,768 bytes under a name of 32 bytes.
pub(crate) const LONGEST_BODY: u32 = 32_806;

/// What the first bytes of a stream are, with the length of the body.
#[derive(Clone, Copy)]
pub(crate) enum FramePrefix {
    Partial,
    Bad(Reason),
    Message(usize),
    Ask(usize),
    Bye(usize),
}

/// The first frame of the bytes.
pub(crate) fn frame_prefix_of(bytes: &[u8]) -> FramePrefix
    ensures { IsFramePrefix bytes.now result }
{
    match framing_of(bytes, LONGEST_BODY) {
        Framing::Partial => FramePrefix::Partial,
        Framing::Bad => FramePrefix::Bad(Reason::Length),
        Framing::Body(len) => match decode(&bytes[4..4 + len]) {
            Err(reason) => FramePrefix::Bad(reason),
            Ok(Frame::Message(_)) => FramePrefix::Message(len),
            Ok(Frame::Ask(_)) => FramePrefix::Ask(len),
            Ok(Frame::Bye) => FramePrefix::Bye(len),
        },
    }
}
