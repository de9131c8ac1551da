//! What a sender counts in a reply.
ghost use Rattle.std.specs.Prelude.{◌≡◌, ◌≢◌, ◌≤◌, ◌<◌, ◌+◌, ◌&&◌, ◌==◌, ℕ, suc, length, true, false};
ghost use Rattle.std.specs.Prelude.{get_or, nat_lt, if◌then◌else◌};
ghost use Rattle.std.specs.Str.{bytes_eq};
ghost use Rattle.bw_model.specs.Replies.{Judged, Noticed};
ghost use Rattle.bw_model.specs.World.{Sender as Defined, settled as settled_of, hear, heard};
ghost use Rattle.bw_model.specs.VerdictMeanings.{verdict_meaning};
ghost use Rattle.bw_wire.specs.Notices.{notice_meaning};
ghost use Rattle.bw_wire.specs.Replies.{reply_of};
ghost use Rattle.bw_sender.specs.HeardReplies.{heard_of};
ghost use Rattle.bw_sender.specs.declared.heard.Heard.TheVariants.{Counted};
ghost use Rattle.bw_c.specs.PlainSenders.{PlainFrom, IsPlainSender, sender_name};

use crate::sender::{BwiSender, SLOTS, name_bytes, verdict_at};
use bw_model::{Name, Verdict};
use bw_sender::Heard;
use bw_wire::{Notice, Reply};

/// Counts a verdict, if it is the first of an offered request, and says what the reply is. No other reply
/// changes anything.
pub(crate) fn count(sender: &mut BwiSender, reply: &Reply) -> Heard
    ensures heard { (s : Defined) → IsPlainSender s sender.old →
        heard_of result ≡ heard s (reply_of reply.now) }
    ensures hears { (s : Defined) → IsPlainSender s sender.old →
        IsPlainSender (hear s (reply_of reply.now)) sender.new }
    ensures unchanged { result ≢ Counted → sender.new ≡ sender.old }
{
    match reply {
        Reply::Verdict {
            name,
            number,
            verdict,
        } => on_verdict(sender, name, *number, *verdict),
        Reply::Notice {
            name,
            number,
            code,
            next: _next,
        } => on_notice(sender, name, *number, *code),
        Reply::BadFrame {
            reason: _reason,
            offset: _offset,
        } => Heard::Stranger,
    }
}

/// Counts the verdict of a number, if it is the first.
fn on_verdict(sender: &mut BwiSender, name: &Name, number: u32, verdict: Verdict) -> Heard
    ensures heard { (s : Defined) → IsPlainSender s sender.old →
        heard_of result ≡ heard s (Judged name.now number (verdict_meaning verdict)) }
    ensures hears { (s : Defined) → IsPlainSender s sender.old →
        IsPlainSender (hear s (Judged name.now number (verdict_meaning verdict))) sender.new }
    ensures unchanged { result ≢ Counted → sender.new ≡ sender.old }
{
    if !has_offered(sender, name, number) {
        return Heard::Stranger;
    }
    if number < sender.settled {
        return Heard::Known;
    }
    let slot = number - sender.settled;
    // Only a struct that no call made has more numbers than slots.
    if slot >= SLOTS {
        return Heard::Known;
    }
    if verdict_at(&sender.verdicts, slot as usize) != 0 {
        return Heard::Known;
    }
    sender.verdicts[slot as usize] = verdict.code() + 1;
    settle(sender);
    Heard::Counted
}

/// How a notice is taken.
fn on_notice(sender: &BwiSender, name: &Name, number: u32, code: Notice) -> Heard
    ensures heard { (s : Defined) → IsPlainSender s sender.now → (next : ℕ) →
        heard_of result ≡ heard s (Noticed name.now number (notice_meaning code) next) }
    ensures uncounted { result ≢ Counted }
{
    let is_own = name.as_bytes() == name_bytes(sender);
    if is_own && (number < sender.offered || code == Notice::Next) {
        Heard::Noted
    } else {
        Heard::Stranger
    }
}

/// Whether a number of this name was offered.
fn has_offered(sender: &BwiSender, name: &Name, number: u32) -> bool
    ensures { result ≡ (bytes_eq name.now (sender_name sender.now) && nat_lt number sender.now.offered) }
{
    name.as_bytes() == name_bytes(sender) && number < sender.offered
}

/// Releases the first requests as long as they have their verdicts, and counts them.
fn settle(sender: &mut BwiSender)
    ensures { (k : ℕ) (s : Defined) → PlainFrom k s sender.old → IsPlainSender s sender.new }
{
    while settle_one(sender) {}
}

/// Releases the first request if it has its verdict, and counts it.
fn settle_one(sender: &mut BwiSender) -> bool
    ensures one { result ≡ true → (k : ℕ) (s : Defined) → PlainFrom k s sender.old →
        PlainFrom (suc k) s sender.new }
    ensures none { result ≡ false → (k : ℕ) (s : Defined) → PlainFrom k s sender.old →
        k ≡ settled_of s }
    ensures unchanged { result ≡ false → sender.new ≡ sender.old }
    ensures more { result ≡ true → sender.new.settled ≡ sender.old.settled + 1 }
    ensures below { result ≡ true → sender.old.settled < sender.old.offered }
    ensures same { sender.new.offered ≡ sender.old.offered }
{
    let first = verdict_at(&sender.verdicts, 0);
    if first == 0 {
        return false;
    }
    if sender.settled >= sender.offered {
        return false;
    }
    // Only a struct that no call made has stored more than it has settled.
    if sender.stored > sender.settled {
        return false;
    }
    sender.stored += stored_by(first);
    sender.settled += 1;
    sender.verdicts = without_first(&sender.verdicts);
    true
}

/// 1 if a slot holds Stored, else 0.
fn stored_by(slot: u8) -> u32
    ensures value { result ≡ (if slot == 1 then 1 else 0) }
    ensures range { result ≤ 1 }
{
    if slot == 1 { 1 } else { 0 }
}

/// The slots after the first, and a free one.
fn without_first(verdicts: &[u8; 16]) -> [u8; 16]
    ensures len { length verdicts.now ≡ 16 }
    ensures slots { (i : ℕ) → i < 16 → get_or result i 0 ≡ get_or verdicts.now (i + 1) 0 }
{
    let mut out = [0u8; 16];
    let (_first, rest) = verdicts.split_at(1);
    out[..15].copy_from_slice(rest);
    out
}
