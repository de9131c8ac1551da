//! Frames of replies, put after those that wait.
ghost use Rattle.std.specs.Prelude.{◌≡◌, ◌+◌, ◌*◌, ◌≤◌, ◌++◌, [], ◌∷◌, length, map, drop, vec_len};
ghost use Rattle.std.specs.Prelude.{vec_capacity, IsTrue};
ghost use Rattle.std.specs.List.{All, list_all};
ghost use Rattle.bw_model.specs.Wire.{framed};
ghost use Rattle.bw_model.specs.Replies.{Refused, reply_body, is_reply};
ghost use Rattle.bw_model.specs.Exchange.{replies_bytes};
ghost use Rattle.bw_wire.specs.Reasons.{reason_meaning};
ghost use Rattle.bw_wire.specs.Replies.{reply_of, HasWireNumbers};
ghost use Rattle.bw_exchange.specs.Bounds.{longest_reply_frame};

use arrayvec::ArrayVec;
use bw_wire::{Reply, WireFault, encode_reply};

/// Appends a reply's frame.
pub(crate) fn put_reply(out: &mut Vec<u8>, reply: &Reply)
    requires numbers { HasWireNumbers reply.now }
    requires room { vec_len out.old + longest_reply_frame ≤ vec_capacity out.old }
    ensures items { out.new.items ≡ out.old.items ++ framed (reply_body (reply_of reply.now)) }
    ensures spelled { IsTrue (is_reply (reply_of reply.now)) }
    ensures len { vec_len out.new ≤ vec_len out.old + longest_reply_frame }
    ensures capacity { vec_capacity out.old ≤ vec_capacity out.new }
{
    let mut frame = ArrayVec::<u8, 64>::new();
    encode_reply(reply, &mut frame);
    out.extend_from_slice(frame.as_slice()).unwrap();
}

/// Appends the frames of replies.
pub(crate) fn put_replies(out: &mut Vec<u8>, replies: &[Reply])
    requires numbers { All HasWireNumbers replies.now }
    requires room { vec_len out.old + longest_reply_frame * length replies.now
        ≤ vec_capacity out.old }
    ensures items { out.new.items ≡ out.old.items ++ replies_bytes (map reply_of replies.now) }
    ensures spelled { IsTrue (list_all is_reply (map reply_of replies.now)) }
    ensures len { vec_len out.new ≤ vec_len out.old + longest_reply_frame * length replies.now }
    ensures capacity { vec_capacity out.old ≤ vec_capacity out.new }
{
    for reply in replies {
        put_reply(out, reply);
    }
}

/// Appends the frame of the reply to a bad frame.
pub(crate) fn put_bad_frame(out: &mut Vec<u8>, fault: WireFault)
    requires room { vec_len out.old + longest_reply_frame ≤ vec_capacity out.old }
    ensures items { out.new.items ≡ out.old.items
        ++ replies_bytes (Refused (reason_meaning fault.reason) fault.offset ∷ []) }
    ensures spelled { IsTrue (is_reply (Refused (reason_meaning fault.reason) fault.offset)) }
    ensures len { vec_len out.new ≤ vec_len out.old + longest_reply_frame }
    ensures capacity { vec_capacity out.old ≤ vec_capacity out.new }
{
    let reply = Reply::BadFrame {
        reason: fault.reason,
        offset: fault.offset,
    };
    put_reply(out, &reply);
}

/// Removes the first `count` bytes.
pub(crate) fn drop_prefix(out: &mut Vec<u8>, count: usize)
    requires { count ≤ length out.old.items }
    ensures items { out.new.items ≡ drop count out.old.items }
    ensures capacity { vec_capacity out.new ≡ vec_capacity out.old }
{
    out.drain(..count);
}
