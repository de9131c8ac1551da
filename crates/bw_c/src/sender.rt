//! A sender of one take, in the caller's memory.
ghost use Rattle.std.specs.Prelude.{◌≡◌, ◌≤◌, ◌<◌, ◌+◌, ◌↔◌, IsTrue, false, get_or, length};
ghost use Rattle.bw_model.specs.Wire.{Second, last_number, is_name};
ghost use Rattle.bw_model.specs.World.{Sender as Defined};
ghost use Rattle.bw_sender.specs.Senders.{HasStored};
ghost use Rattle.bw_c.specs.PlainSenders.{IsPlainSender, sender_name, lacks_verdict};

use bw_model::Name;

/// How many numbers a take has.
pub(crate) const NUMBERS: u32 = 16_777_216;

/// How many requests may be offered from the first without a verdict on.
pub(crate) const SLOTS: u32 = 16;

/// A sender of one take. It holds no pointer, so it may be copied, saved and read again.
#[repr(C)]
#[derive(Drop)]
pub struct BwiSender {
    /// The name: its first `name_len` bytes.
    pub name: [u8; 32],
    pub name_len: u32,
    /// How many requests were offered: the next one has this number.
    pub offered: u32,
    /// How many of them are settled: the least number without a verdict.
    pub settled: u32,
    /// How many of the settled ones are stored.
    pub stored: u32,
    /// For `settled` and the fifteen numbers after it: one more than the verdict's code, or 0 where there is
    /// none yet.
    pub verdicts: [u8; 16],
}

/// Makes a sender of a name whose first `stored` requests, at most 16,777,216, are stored, none of them a
/// CLOSE. Returns whether the name and the number are good; if not, nothing changed.
#[unsafe(no_mangle)]
pub extern "C" fn bwi_begin(sender: &mut BwiSender, name: &[u8], stored: u32) -> bool
    ensures good { IsTrue result ↔
        (IsTrue (is_name name.now) × (stored ≤ last_number Second + 1)) }
    ensures begun { IsTrue result → (s : Defined) → HasStored name.now stored s →
        IsPlainSender s sender.new }
    ensures unchanged { result ≡ false → sender.new ≡ sender.old }
{
    if stored > NUMBERS {
        return false;
    }
    let Some(name) = Name::new(name) else {
        return false;
    };
    *sender = begun(&name, stored);
    true
}

/// A sender of a name whose first requests, as many as these, are stored.
fn begun(name: &Name, stored: u32) -> BwiSender
    ensures { (s : Defined) → HasStored name.now stored s → IsPlainSender s result }
{
    let bytes = name.as_bytes();
    let mut array = [0u8; 32];
    array[..bytes.len()].copy_from_slice(bytes);
    BwiSender {
        name: array,
        name_len: bytes.len() as u32,
        offered: stored,
        settled: stored,
        stored,
        verdicts: [0u8; 16],
    }
}

/// Whether a number was offered and has no verdict yet: after a link broke, it is to be sent again.
#[unsafe(no_mangle)]
pub extern "C" fn bwi_is_pending(sender: &BwiSender, number: u32) -> bool
    ensures { (s : Defined) → IsPlainSender s sender.now → result ≡ lacks_verdict s number }
{
    if number < sender.settled {
        return false;
    }
    if number >= sender.offered {
        return false;
    }
    let slot = number - sender.settled;
    if slot >= SLOTS {
        return false;
    }
    verdict_at(&sender.verdicts, slot as usize) == 0
}

/// What is at a place of the verdicts.
pub(crate) fn verdict_at(verdicts: &[u8; 16], slot: usize) -> u8
    requires { slot < 16 }
    ensures value { result ≡ get_or verdicts.now slot 0 }
    ensures len { length verdicts.now ≡ 16 }
{
    verdicts[slot]
}

/// The sender's name; of a length past its 32 bytes, all of them.
#[tactic(auto, using(std::proofs::lemmas::List::take_all))]
pub(crate) fn name_bytes(sender: &BwiSender) -> &[u8]
    ensures { result.now ≡ sender_name sender.now }
{
    let bytes: &[u8] = &sender.name;
    let len = sender.name_len as usize;
    if len < bytes.len() {
        &bytes[..len]
    } else {
        bytes
    }
}
