//! Laws of many connections. Each function's contract is one; nothing runs.
ghost use Rattle.bw_connections.specs.ConnectionBytes.{EachIsServed, QuantaLeaveCommitted};
ghost use Rattle.bw_connections.specs.HeldFrames.{HeldFramesAreHeard};

use bw_ports::Link;

/// Whatever came between its turns, each connection's answered frames are the first of the bytes
/// that its own link gave, and what the link took, followed by what is still unsent, is exactly
/// their replies, and the one to a bad frame after them. When the connection is over its end says
/// how far it got, unless it was ended as silent.
pub fn law_connections<L: Link>()
    // All frames at `Bye`, `EndOfInput` and `BadFrame`; at `Memory` those before the last piece.
    ensures { EachIsServed L.Link }
{
    bw_exchange::laws::law_exchange();
}

/// What leaves in a quantum is of frames that were answered before it: where those are committed, no
/// byte of a reply leaves before its frame is.
pub fn law_leaves<L: Link>()
    ensures { QuantaLeaveCommitted L.Link }
{}

/// A connection that holds a whole frame isn't quiet, unless replies wait; and no frame stays held: in
/// its next quantum frames of it are answered, or the frame ends its stream, as BYE or as a bad one.
pub fn law_held_frames<L: Link>()
    // Once frames are answered it isn't quiet at the time of that quantum.
    ensures { HeldFramesAreHeard L.Link }
{}
