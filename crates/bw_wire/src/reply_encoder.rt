//! From a reply to its frame.
ghost use Rattle.std.specs.Prelude.{◌≡◌, ◌≤◌, ◌+◌, ◌++◌, [], IsTrue, length};
ghost use Rattle.arrayvec.specs.ArrayVec.{array_vec_len};
ghost use Rattle.bw_model.specs.Bytes.{le32};
ghost use Rattle.bw_model.specs.Limits.{longest_name};
ghost use Rattle.bw_model.specs.Wire.{framed, addressed, is_name};
ghost use Rattle.bw_model.specs.Replies.{reply_body, is_reply};
ghost use Rattle.bw_wire.specs.Replies.{reply_of, HasWireNumbers};

use crate::reply::Reply;
use crate::reply_decoder::{BAD_FRAME, NOTICE, VERDICT};
use arrayvec::ArrayVec;
use bw_model::Name;

/// Replaces the contents by a reply's whole frame. Its number is at most 16,777,215, and the next
/// one that it gives at most 16,777,216.
pub fn encode_reply(reply: &Reply, out: &mut ArrayVec<u8, 64>)
    requires { HasWireNumbers reply.now }
    ensures frame { out.new.items ≡ framed (reply_body (reply_of reply.now)) }
    ensures fits { IsTrue (is_reply (reply_of reply.now)) }
{
    out.clear();
    match reply {
        Reply::Verdict {
            name,
            number,
            verdict,
        } => {
            put_address(out, VERDICT, name, *number, 1);
            put(out, &[verdict.code()]);
        }
        Reply::Notice {
            name,
            number,
            code,
            next,
        } => {
            put_address(out, NOTICE, name, *number, 5);
            put(out, &[code.code()]);
            put(out, &next.to_le_bytes());
        }
        Reply::BadFrame { reason, offset } => {
            put(out, &10u32.to_le_bytes());
            put(out, &[BAD_FRAME, reason.code()]);
            put(out, &offset.to_le_bytes());
        }
    }
}

/// Appends the length of a body, and its kind, name and number. This many bytes follow.
fn put_address(out: &mut ArrayVec<u8, 64>, kind: u8, name: &Name, number: u32, more: u32)
    requires empty { out.old.items ≡ [] }
    requires more { more ≤ 5 }
    ensures items { out.new.items ≡
        le32 (6 + length name.now + more) ++ addressed kind name.now number }
    ensures len { array_vec_len out.new ≡ 10 + length name.now }
    ensures named { IsTrue (is_name name.now) }
    ensures short { length name.now ≤ longest_name }
{
    let bytes = name.as_bytes();
    let len = 6 + bytes.len() as u32 + more;
    put(out, &len.to_le_bytes());
    put(out, &[kind, bytes.len() as u8]);
    put(out, bytes);
    put(out, &number.to_le_bytes());
}

fn put(out: &mut ArrayVec<u8, 64>, bytes: &[u8])
    requires { array_vec_len out.old + length bytes.now ≤ 64 }
    ensures items { out.new.items ≡ out.old.items ++ bytes.now }
    ensures len { array_vec_len out.new ≡ array_vec_len out.old + length bytes.now }
{
    out.try_extend_from_slice(bytes).unwrap();
}
