//! A sender: what a recorder offered, and the verdicts that came.
ghost use Rattle.std.specs.Prelude.{◌≡◌, ◌≢◌, ◌≤◌, ◌<◌, ◌+◌, length, map, IfOk, IfErr, OnOk, OnErr};
ghost use Rattle.std.specs.Prelude.{None, IfSome, IsSome, option_map, nat_le};
ghost use Rattle.bw_model.specs.Turn.{window};
ghost use Rattle.bw_model.specs.Wire.{Second, last_number};
ghost use Rattle.bw_model.specs.World.{Sender as Defined, settled as settled_of};
ghost use Rattle.bw_model.specs.World.{stored as stored_of};
ghost use Rattle.bw_model.specs.World.{refused as refused_of, pending as pending_of, hear, heard};
ghost use Rattle.bw_model.specs.World.{offer_fault, offer as offered_to};
ghost use Rattle.bw_wire.specs.Replies.{reply_of};
ghost use Rattle.bw_sender.specs.Offers.{fault_of, lent_pending};
ghost use Rattle.bw_sender.specs.HeardReplies.{heard_of};
ghost use Rattle.bw_sender.specs.declared.heard.Heard.TheVariants.{Counted};

use crate::heard::Heard;
use crate::offer::OfferError;
use crate::refusals::Refusals;
use crate::window::{SLOTS, Window};
use bw_model::{Name, Request, Verdict};
use bw_wire::Reply;
use std::alloc::{AllocError, Global};

/// A recorder's side of one take: it numbers requests, says which of them have no verdict yet,
/// and counts those that are stored.
///
/// It holds at most sixteen requests; and for N refused numbers, room for at most 2 N + 16, eight
/// bytes each.
#[derive(Drop)]
pub struct Sender {
    pub(crate) name: Name,
    pub(crate) window: Window,
    pub(crate) offered: u32,
    pub(crate) stored: u32,
    pub(crate) refused: Refusals,
    pub(crate) closed: bool,
    ghost few: { length window ≤ 16 },
    ghost numbers: { offered ≤ last_number Second + 1 },
    ghost counts: { length window + stored + length refused.numbers ≡ offered },
    ghost room: { length window ≤ refused.room },
    ghost spare: { refused.room ≤ length refused.numbers + 16 },
}

impl Sender {
    ghost use Rattle.bw_sender.specs.Senders.{new_sender, HasStored, IsSender, HasRoom};
    ghost use Rattle.bw_sender.specs.Senders.{offered_count, unsettled_count};
    ghost use Rattle.bw_sender.specs.RefusedNumbers.{refusal_of};

    /// A sender of a name, to which nothing was offered.
    ///
    /// # Errors
    /// `AllocError` if memory was refused. The name isn't given back.
    ///
    /// # Not specified
    /// When memory is refused.
    pub fn new(alloc: Global, name: Name) -> Result<Sender, AllocError>
        ensures { IfOk result (λ x. IsSender (new_sender name) x) }
    {
        Ok(Sender {
            name,
            window: Window::new(alloc)?,
            offered: 0,
            stored: 0,
            refused: Refusals::new(alloc),
            closed: false,
        })
    }

    /// A sender of a name whose first `count` requests, at most 16,777,216, were all stored, none
    /// of them a CLOSE.
    ///
    /// # Errors
    /// `AllocError` if memory was refused. The name isn't given back.
    ///
    /// # Not specified
    /// When memory is refused.
    pub fn resume(alloc: Global, name: Name, count: u32) -> Result<Sender, AllocError>
        requires { count ≤ last_number Second + 1 }
        ensures { (s : Defined) → HasStored name count s → IfOk result (λ x. IsSender s x) }
    {
        Ok(Sender {
            name,
            window: Window::new(alloc)?,
            offered: count,
            stored: count,
            refused: Refusals::new(alloc),
            closed: false,
        })
    }

    /// The name of the take.
    pub fn name(&self) -> &Name
        ensures { (s : Defined) → IsSender s self.now → result.now ≡ s.name }
    {
        &self.name
    }

    /// Takes over a request, and returns its number, the next one from 0 on.
    ///
    /// # Errors
    /// Why it wasn't taken over, with the request: the first of `NumbersSpent`, `BeforeOpen`,
    /// `AfterClose`, `WindowFull` and `Memory` that holds. Nothing changed.
    ///
    /// # Not specified
    /// When memory is refused, if there is no room for the refusals.
    pub fn offer(&mut self, request: Request) -> Result<u32, (OfferError, Request)>
        ensures ok { (s : Defined) → IsSender s self.old → IfOk result (λ n.
            (n ≡ length s.offered) × (offer_fault s request ≡ None)
            × IsSender (offered_to s request) self.new) }
        ensures err { (s : Defined) → IsSender s self.old → IfErr result (λ e.
            fault_of e.0 ≡ offer_fault s request) }
        ensures back { IfErr result (λ e. e.1 ≡ request) }
        ensures unchanged { OnErr result (self.new ≡ self.old) }
        // Memory is asked for only where there is no room for the refusals.
        ensures room { HasRoom self.old → IfErr result (λ e. IsSome (fault_of e.0)) }
    {
        if let Err(error) = self.check_offer(&request) {
            return Err((error, request));
        }
        // The room for a later refusal is made now, so that hearing allocates nothing.
        let Ok(()) = self.refused.reserve(self.window.len() + 1) else {
            return Err((OfferError::Memory, request));
        };
        let number = self.offered;
        self.window.push(request);
        self.offered += 1;
        Ok(number)
    }

    /// The request at a place among those without a verdict, in the order of their numbers, with
    /// its number; None after the last.
    pub fn pending(&self, place: usize) -> Option<(u32, &Request)>
        ensures value { (s : Defined) → IsSender s self.now →
            option_map lent_pending result ≡ pending_of s place }
        ensures range { IfSome result (λ p. p.0 ≤ last_number Second) }
    {
        self.window.pending(self.settled(), place)
    }

    /// Counts a verdict, if it is the first of an offered request, and says what the reply is.
    ///
    /// No other reply changes anything: even Conflict and TooFar, which are final, are `Noted`,
    /// as Held is.
    pub fn on_reply(&mut self, reply: &Reply) -> Heard
        ensures heard { (s : Defined) → IsSender s self.old →
            heard_of result ≡ heard s (reply_of reply.now) }
        ensures hears { (s : Defined) → IsSender s self.old →
            IsSender (hear s (reply_of reply.now)) self.new }
        ensures unchanged { result ≢ Counted → self.new ≡ self.old }
    {
        match reply {
            Reply::Verdict {
                name,
                number,
                verdict,
            } => self.on_verdict(name, *number, *verdict),
            Reply::Notice {
                name,
                number,
                code,
                next: _next,
            } => self.on_notice(name, *number, *code),
            Reply::BadFrame {
                reason: _reason,
                offset: _offset,
            } => Heard::Stranger,
        }
    }

    /// How many numbers are settled: those before the first without a verdict; at most 16,777,216.
    pub fn settled(&self) -> u32
        ensures value { (s : Defined) → IsSender s self.now → result ≡ settled_of s }
        ensures rest { result + unsettled_count self.now ≡ offered_count self.now }
        ensures range { result ≤ last_number Second + 1 }
    {
        self.offered - self.window.len() as u32
    }

    /// How many requests were offered and accepted; at most 16,777,216.
    pub fn offered(&self) -> u32
        ensures { (s : Defined) → IsSender s self.now → result ≡ length s.offered }
    {
        self.offered
    }

    /// Whether sixteen requests were offered from the first without a verdict on: none can be
    /// offered before a verdict comes.
    pub fn is_full(&self) -> bool
        ensures { (s : Defined) → IsSender s self.now →
            result ≡ nat_le (settled_of s + window) (length s.offered) }
    {
        self.window.len() == SLOTS
    }

    /// How many of the settled requests are stored.
    pub fn stored(&self) -> u32
        ensures { (s : Defined) → IsSender s self.now → result ≡ stored_of s }
    {
        self.stored
    }

    /// The settled numbers that aren't stored, with their verdicts, in their order.
    pub fn refused(&self) -> &[(u32, Verdict)]
        ensures { (s : Defined) → IsSender s self.now → map refusal_of result.now ≡ refused_of s }
    {
        self.refused.as_slice()
    }
}
