//! What a sender checks in an offer, and what it counts in a reply.
ghost use Rattle.std.specs.Prelude.{◌≡◌, ◌≢◌, ◌≤◌, ◌<◌, ◌&&◌, ℕ, suc, length, true, false, OnOk};
ghost use Rattle.std.specs.Prelude.{nat_lt, ◌==◌, not, IfErr, IsSome};
ghost use Rattle.std.specs.Str.{bytes_eq};
ghost use Rattle.bw_model.specs.Wire.{last_number, Second};
ghost use Rattle.bw_model.specs.Replies.{Judged, Noticed};
ghost use Rattle.bw_model.specs.World.{Sender as Defined, settled as settled_of, hear, heard};
ghost use Rattle.bw_model.specs.World.{offer_fault, has_closed_from, is_open as is_opening_request};
ghost use Rattle.bw_model.specs.VerdictMeanings.{verdict_meaning};
ghost use Rattle.bw_wire.specs.Notices.{notice_meaning};
ghost use Rattle.bw_sender.specs.Offers.{checked_fault, fault_of};
ghost use Rattle.bw_sender.specs.HeardReplies.{heard_of};
ghost use Rattle.bw_sender.specs.declared.heard.Heard.TheVariants.{Counted};

use crate::heard::Heard;
use crate::offer::OfferError;
use crate::sender::Sender;
use crate::window::{SLOTS, is_close, is_open};
use bw_model::{Name, Request, Verdict};
use bw_wire::Notice;

/// How many numbers a take has.
const NUMBERS: u32 = 16_777_216;

impl Sender {
    ghost use Rattle.bw_sender.specs.Senders.{IsSender, KeepsFrom};

    /// Whether a request may be offered, lack of memory aside.
    ///
    /// # Errors
    /// The first cause that holds.
    pub(crate) fn check_offer(&self, request: &Request) -> Result<(), OfferError>
        ensures fault { (s : Defined) → IsSender s self.now →
            checked_fault result ≡ offer_fault s request.now }
        ensures own { IfErr result (λ e. IsSome (fault_of e)) }
        ensures slot { OnOk result (length self.now.window < 16) }
        ensures number { OnOk result (self.now.offered ≤ last_number Second) }
    {
        if self.offered == NUMBERS {
            return Err(OfferError::NumbersSpent);
        }
        if self.is_early(request) {
            return Err(OfferError::BeforeOpen);
        }
        if self.has_closed() {
            return Err(OfferError::AfterClose);
        }
        if self.window.len() == SLOTS {
            return Err(OfferError::WindowFull);
        }
        Ok(())
    }

    /// Whether a request would be the first and is no OPEN.
    fn is_early(&self, request: &Request) -> bool
        ensures { result ≡ ((self.now.offered == 0) && not (is_opening_request request.now)) }
    {
        self.offered == 0 && !is_open(request)
    }

    /// Whether a CLOSE was offered that has no verdict yet, or is stored.
    fn has_closed(&self) -> bool
        ensures { (s : Defined) → IsSender s self.now →
            result ≡ has_closed_from s.offered s.verdicts }
    {
        self.closed || self.window.has_closed()
    }

    /// Counts the verdict of a number, if it is the first.
    pub(crate) fn on_verdict(&mut self, name: &Name, number: u32, verdict: Verdict) -> Heard
        ensures heard { (s : Defined) → IsSender s self.old →
            heard_of result ≡ heard s (Judged name.now number (verdict_meaning verdict)) }
        ensures hears { (s : Defined) → IsSender s self.old →
            IsSender (hear s (Judged name.now number (verdict_meaning verdict))) self.new }
        ensures unchanged { result ≢ Counted → self.new ≡ self.old }
    {
        if !self.has_offered(name, number) {
            return Heard::Stranger;
        }
        let settled = self.settled();
        if number < settled {
            return Heard::Known;
        }
        let slot = (number - settled) as usize;
        if self.window.is_judged(slot) {
            return Heard::Known;
        }
        self.window.judge(slot, verdict);
        self.settle();
        Heard::Counted
    }

    /// How a notice is taken.
    pub(crate) fn on_notice(&self, name: &Name, number: u32, code: Notice) -> Heard
        ensures heard { (s : Defined) → IsSender s self.now → (next : ℕ) →
            heard_of result ≡ heard s (Noticed name.now number (notice_meaning code) next) }
        ensures uncounted { result ≢ Counted }
    {
        let is_own = *name == self.name;
        if is_own && (number < self.offered || code == Notice::Next) {
            Heard::Noted
        } else {
            Heard::Stranger
        }
    }

    /// Whether a number of this name was offered.
    fn has_offered(&self, name: &Name, number: u32) -> bool
        ensures { result ≡ (bytes_eq name.now self.now.name && nat_lt number self.now.offered) }
    {
        *name == self.name && number < self.offered
    }

    /// Releases the first requests as long as they have their verdicts, and counts them.
    fn settle(&mut self)
        ensures { (k : ℕ) (s : Defined) → KeepsFrom k s self.old → IsSender s self.new }
    {
        while self.settle_one() {}
    }

    /// Releases the first request if it has its verdict, and counts it.
    fn settle_one(&mut self) -> bool
        ensures one { result ≡ true → (k : ℕ) (s : Defined) → KeepsFrom k s self.old →
            KeepsFrom (suc k) s self.new }
        ensures shorter { result ≡ true → length self.new.window < length self.old.window }
        ensures none { result ≡ false → (k : ℕ) (s : Defined) → KeepsFrom k s self.old →
            k ≡ settled_of s }
        ensures unchanged { result ≡ false → self.new ≡ self.old }
    {
        let Some(first) = self.window.get(0) else {
            return false;
        };
        let Some(verdict) = first.verdict else {
            return false;
        };
        let closes = is_close(&first.request);
        let number = self.settled();
        self.window.pop();
        if verdict.is_stored() {
            self.stored += 1;
            self.closed = self.closed || closes;
        } else {
            self.refused.push(number, verdict);
        }
        true
    }
}
