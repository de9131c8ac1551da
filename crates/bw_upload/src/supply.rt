//! The window is filled from the feed.
ghost use Rattle.std.specs.Prelude.{◌≡◌};
ghost use Rattle.bw_model.specs.World.{Sender as Defined};
ghost use Rattle.bw_sender.specs.Senders.{IsSender};
ghost use Rattle.bw_upload.specs.WindowFills.{Filling};
ghost use Rattle.bw_upload.specs.Supplies.{IsFilling, FillsUp, FillsOnce, FollowsFeed, OffersOne};
ghost use Rattle.bw_upload.specs.Supplies.{outcome_of_offer, RefusedBy};

use crate::feed::{Feed, Given};
use crate::outcome::Outcome;
use bw_model::Request;
use bw_ports::Pause;
use bw_sender::{OfferError, Sender};
use std::alloc::Global;

/// The milliseconds before a feed that has nothing yet is asked again.
const ASK_AGAIN: u32 = 100;

/// A sender, and whether more requests can come.
#[derive(Drop)]
pub(crate) struct Supply {
    pub(crate) alloc: Global,
    pub(crate) sender: Sender,
    /// The feed has ended.
    pub(crate) is_ended: bool,
}

impl Supply {
    ghost use Rattle.bw_upload.specs.WindowFills.{is_done as all_is_done};

    /// Whether the feed has ended, and all that was offered is settled, and stored.
    pub(crate) fn is_done(&self) -> bool
        ensures { (s : Defined) → IsSender s self.now.sender →
            result ≡ all_is_done s self.now.is_ended }
    {
        self.is_ended && self.sender.pending(0).is_none() && self.sender.refused().is_empty()
    }
}

/// Offers what the feed gives, as long as the window has room and the feed has more. Where it has
/// nothing yet, waits and asks again as long as nothing is pending.
///
/// # Errors
/// How the upload ends.
pub(crate) fn fill<F: Feed, P: Pause>(
    supply: &mut Supply,
    feed: &mut F,
    pause: &mut P,
) -> Result<(), Outcome<F::Fault>>
    ensures { (x : Filling F P) → IsFilling x supply.old feed.old pause.old →
        FillsUp F.Feed P.Pause result x supply.new feed.new pause.new }
{
    for _question in 0..u64::MAX {
        if !fill_once(supply, feed, pause)? {
            return Ok(());
        }
    }
    if supply.is_ended {
        return Ok(());
    }
    Err(Outcome::Limit)
}

/// Asks the feed once, if it may be asked. Returns whether to ask again, after a wait if it has
/// nothing yet.
///
/// # Errors
/// How the upload ends.
fn fill_once<F: Feed, P: Pause>(
    supply: &mut Supply,
    feed: &mut F,
    pause: &mut P,
) -> Result<bool, Outcome<F::Fault>>
    ensures { (x : Filling F P) → IsFilling x supply.old feed.old pause.old →
        FillsOnce F.Feed P.Pause result x supply.new feed.new pause.new }
{
    if supply.is_ended {
        return Ok(false);
    }
    if supply.sender.is_full() {
        return Ok(false);
    }
    if follow(supply, feed.next())? {
        return Ok(true);
    }
    if supply.sender.pending(0).is_some() {
        return Ok(false);
    }
    pause.pause(ASK_AGAIN);
    Ok(true)
}

/// Follows what the feed gave: offers a request, or notes the feed's end. Returns whether it gave
/// either.
///
/// # Errors
/// How the upload ends.
fn follow<X>(supply: &mut Supply, given: Result<Given, X>) -> Result<bool, Outcome<X>>
    ensures { (s : Defined) → IsSender s supply.old.sender →
        FollowsFeed result given s supply.old supply.new }
{
    match given {
        Ok(Given::Request(request)) => offer(supply, request),
        Ok(Given::NotYet) => Ok(false),
        Ok(Given::End) => {
            supply.is_ended = true;
            Ok(true)
        }
        Err(fault) => Err(Outcome::Feed(fault)),
    }
}

/// Offers a request, for which the window has room.
///
/// # Errors
/// How the upload ends.
fn offer<X>(supply: &mut Supply, request: Request) -> Result<bool, Outcome<X>>
    ensures { (s : Defined) → IsSender s supply.old.sender →
        OffersOne result s request supply.old supply.new }
{
    match supply.sender.offer(request) {
        Ok(_number) => Ok(true),
        Err((error, _request)) => Err(outcome_of(error)),
    }
}

fn outcome_of<X>(error: OfferError) -> Outcome<X>
    ensures { result ≡ outcome_of_offer error }
{
    match error {
        OfferError::NumbersSpent => Outcome::NotOffered(OfferError::NumbersSpent),
        OfferError::BeforeOpen => Outcome::NotOffered(OfferError::BeforeOpen),
        OfferError::AfterClose => Outcome::NotOffered(OfferError::AfterClose),
        OfferError::WindowFull => Outcome::NotOffered(OfferError::WindowFull),
        OfferError::Memory => Outcome::Memory,
    }
}

/// How the upload ends because of the first refused number, if there is one.
pub(crate) fn refusal<X>(sender: &Sender) -> Option<Outcome<X>>
    ensures { (s : Defined) → IsSender s sender.now → RefusedBy result s }
{
    match sender.refused() {
        [] => None,
        [(number, verdict), ..] => Some(Outcome::Refused(*number, *verdict)),
    }
}
