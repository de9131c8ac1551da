//! A reply that came: what it says, and what it was to the sender.
ghost use Rattle.std.specs.Prelude.{◌≡◌, ◌≢◌, length};
ghost use Rattle.bw_model.specs.Stream.{first_reply};
ghost use Rattle.bw_model.specs.World.{Sender as Defined};
ghost use Rattle.bw_wire.specs.Replies.{reply_of};
ghost use Rattle.bw_c.specs.PlainSenders.{IsPlainSender};
ghost use Rattle.bw_c.specs.ShownReplies.{shown, shown_reply, without_numbers as plain, used};
ghost use Rattle.bw_c.specs.ShownReplies.{hear_first, heard_first};

use crate::counting::count;
use crate::first_reply::{FirstReply, reply_at};
use crate::sender::BwiSender;
use bw_wire::Reply;

/// What a reply says, and what it was to the sender.
#[repr(C)]
#[derive(Drop)]
pub struct BwiReply {
    /// 0: no reply is whole yet. 1: a verdict. 2: a notice. 3: the server read a bad frame. 4: these bytes
    /// are no reply, and nothing after them can be read.
    pub kind: u32,
    /// Of a reply, 1: the first verdict of an offered request, which was counted. 2: a verdict on a request
    /// that has one. 3: a notice on an offered request, or the answer to an ask. 4: a reply to another name,
    /// to a number that wasn't offered, or to a bad frame. Else 0.
    pub heard: u32,
    /// The number that a verdict or a notice is about.
    pub number: u32,
    /// The code of the verdict, of the notice, or of the reason.
    pub code: u32,
    /// Of a notice: the least number that the server has no verdict on.
    pub next: u32,
    /// Of a bad frame: how many bytes of the exchange come before it.
    pub offset: u64,
}

/// Takes the reply at the start of these bytes, if it is whole, shows it, and counts it. Returns how many
/// bytes it has, at most 47; 0 if there is none.
#[unsafe(no_mangle)]
pub extern "C" fn bwi_hear(sender: &mut BwiSender, bytes: &[u8], reply: &mut BwiReply) -> usize
    ensures used { result ≡ used (length bytes.now) (first_reply bytes.now) }
    ensures shown { reply.new ≡ shown reply.new.heard (first_reply bytes.now) }
    ensures heard { (s : Defined) → IsPlainSender s sender.old →
        reply.new.heard ≡ heard_first s (first_reply bytes.now) }
    ensures hears { (s : Defined) → IsPlainSender s sender.old →
        IsPlainSender (hear_first s (first_reply bytes.now)) sender.new }
    // Whatever the struct holds.
    ensures unchanged { reply.new.heard ≢ 1 → sender.new ≡ sender.old }
{
    match reply_at(bytes) {
        FirstReply::Partial => {
            *reply = without_numbers(0, 0);
            0
        }
        FirstReply::Bad(reason) => {
            *reply = without_numbers(4, reason.code() as u32);
            0
        }
        FirstReply::Whole(heard, len) => {
            let taken = count(sender, &heard).code();
            *reply = shown_of(taken as u32, &heard);
            4 + len
        }
    }
}

/// A kind and a code.
fn without_numbers(kind: u32, code: u32) -> BwiReply
    ensures { result ≡ plain kind code }
{
    BwiReply {
        kind,
        heard: 0,
        number: 0,
        code,
        next: 0,
        offset: 0,
    }
}

/// What a reply says.
fn shown_of(heard: u32, reply: &Reply) -> BwiReply
    ensures { result ≡ shown_reply heard (reply_of reply.now) }
{
    match reply {
        Reply::Verdict {
            name: _name,
            number,
            verdict,
        } => BwiReply {
            kind: 1,
            heard,
            number: *number,
            code: u32::from(verdict.code()),
            next: 0,
            offset: 0,
        },
        Reply::Notice {
            name: _name,
            number,
            code,
            next,
        } => BwiReply {
            kind: 2,
            heard,
            number: *number,
            code: u32::from(code.code()),
            next: *next,
            offset: 0,
        },
        Reply::BadFrame { reason, offset } => BwiReply {
            kind: 3,
            heard,
            number: 0,
            code: u32::from(reason.code()),
            next: 0,
            offset: *offset,
        },
    }
}
