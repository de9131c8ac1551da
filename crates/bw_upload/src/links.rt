//! A whole upload: link after link, until all is stored or it can't go on.
ghost use Rattle.std.specs.Prelude.{◌≡◌, ◌+◌, ◌^◌, ◌<◌, ℕ, Option, false};
ghost use Rattle.bw_upload.specs.Courses.{Course, fruitless_after};
ghost use Rattle.bw_upload.specs.WindowFills.{Filling};
ghost use Rattle.bw_upload.specs.Links.{Prepares, WaitsBefore, DialsNext, LinkAsked, end_of_link};
ghost use Rattle.bw_upload.specs.Supplies.{IsFilling};
ghost use Rattle.bw_model.specs.World.{Sender as Defined};
ghost use Rattle.bw_sender.specs.Senders.{IsSender};
ghost use Rattle.bw_upload.specs.WholeUploads.{Uploads};

use crate::backoff::{backoff, is_spent};
use crate::feed::Feed;
use crate::observer::{LinkEnd, LinkEvent, Observer};
use crate::outcome::{Outcome, Uploaded};
use crate::supply::{Supply, fill, refusal};
use crate::visit::visit;
use bw_ports::{Dial, Pause};
use bw_sender::{Sender, Stop};
use std::alloc::Global;

/// A sender, and how long it goes on.
#[derive(Drop)]
pub struct PatientSender {
    /// What it was offered, and what became of that.
    pub sender: Sender,
    /// So many links in a row that settle nothing end its upload, if it is given.
    pub fruitless: Option<u32>,
}

/// Sends what a feed gives as the requests of a sender, over one link as long as it lasts, and then
/// over the next.
///
/// Requests are offered as long as the window has room, and each is sent once over a link, before
/// anything is awaited. Before a further link is made, half a second passes, or up to half a minute
/// after links that settle nothing. As many of these in a row as `fruitless` says end the upload,
/// if it is given. It also ends at the first refused request, and at Conflict and TooFar: after one
/// of these it isn't `Done`, though all may have the verdict Stored, as if another sender's
/// requests have these numbers.
///
/// At most sixteen requests are held.
///
/// # Not specified
/// - When memory is refused, and when a link can't be made.
/// - That the observer gets each report.
/// - What is read after BYE, and a Conflict or TooFar that comes in one piece with bytes that are no
///   reply, or after another reply for which the link is left.
pub fn upload<F: Feed, P: Pause, D: Dial, V: Observer>(
    alloc: Global,
    started: PatientSender,
    feed: &mut F,
    pause: &mut P,
    dial: &mut D,
    observer: &mut V,
) -> Uploaded<F::Fault>
    // The sender that comes back counts, by `law_world`, only what the server's take has.
    ensures { (s : Defined) → IsSender s started.sender →
        Uploads F.Feed P.Pause D.Dial D.Reader.Source D.Writer.Sink started.fruitless s result.sender
        result.outcome feed.old feed.new pause.old pause.new dial.old dial.new }
{
    let PatientSender { sender, fruitless } = started;
    let mut supply = Supply {
        alloc,
        sender,
        is_ended: false,
    };
    let outcome = make_links(&mut supply, fruitless, feed, pause, dial, observer);
    Uploaded {
        sender: supply.sender,
        outcome,
    }
}

/// Makes links and uses them, one after another. Returns how the upload ends.
fn make_links<F: Feed, P: Pause, D: Dial, V: Observer>(
    supply: &mut Supply,
    most: Option<u32>,
    feed: &mut F,
    pause: &mut P,
    dial: &mut D,
    observer: &mut V,
) -> Outcome<F::Fault>
    ensures { (s : Defined) → IsSender s supply.old.sender → supply.old.is_ended ≡ false →
        Uploads F.Feed P.Pause D.Dial D.Reader.Source D.Writer.Sink most s supply.new.sender
        result feed.old feed.new pause.old pause.new dial.old dial.new }
{
    let alloc = supply.alloc;
    let mut fruitless = 0;
    for links in 0..u64::MAX {
        if let Err(outcome) = prepare(supply, most, fruitless, feed, pause) {
            return outcome;
        }
        back_off(links, fruitless, &supply.sender, pause, observer);
        let before = supply.sender.settled();
        if let Err(outcome) = make_link(alloc, supply, feed, pause, dial, observer) {
            return outcome;
        }
        fruitless = count_after(before, supply.sender.settled(), fruitless);
    }
    if supply.is_done() {
        Outcome::Done
    } else {
        Outcome::Limit
    }
}

/// Fills the window for the next link.
///
/// # Errors
/// How the upload ends, if no link is made any more.
fn prepare<F: Feed, P: Pause>(
    supply: &mut Supply,
    most: Option<u32>,
    fruitless: u64,
    feed: &mut F,
    pause: &mut P,
) -> Result<(), Outcome<F::Fault>>
    ensures { (x : Filling F P) → IsFilling x supply.old feed.old pause.old →
        Prepares F.Feed P.Pause most result fruitless x supply.new feed.new pause.new }
{
    if let Some(outcome) = refusal(&supply.sender) {
        return Err(outcome);
    }
    fill(supply, feed, pause)?;
    if supply.is_done() {
        return Err(Outcome::Done);
    }
    if is_spent(most, fruitless) {
        return Err(Outcome::Fruitless);
    }
    Ok(())
}

/// Waits before the next link, unless it is the first.
fn back_off<P: Pause, V: Observer>(
    links: u64,
    fruitless: u64,
    sender: &Sender,
    pause: &mut P,
    observer: &mut V,
)
    ensures { WaitsBefore P.Pause links fruitless pause.old pause.new }
{
    if links == 0 {
        return;
    }
    let milliseconds = backoff(fruitless);
    observer.link(LinkEvent::Waits(milliseconds), sender);
    pause.pause(milliseconds);
}

/// How many links in a row settled nothing, after one more.
fn count_after(before: u32, now: u32, fruitless: u64) -> u64
    requires { fruitless + 1 < 2 ^ 64 }
    ensures { result ≡ fruitless_after before now fruitless }
{
    if before < now { 0 } else { fruitless + 1 }
}

/// Makes the next link, if that can be, and uses it.
///
/// # Errors
/// How the upload ends, if it does.
fn make_link<F: Feed, P: Pause, D: Dial, V: Observer>(
    alloc: Global,
    supply: &mut Supply,
    feed: &mut F,
    pause: &mut P,
    dial: &mut D,
    observer: &mut V,
) -> Result<(), Outcome<F::Fault>>
    ensures { (most : Option ℕ) (x : Course F P D D.Reader D.Writer) →
        DialsNext F.Feed P.Pause D.Dial D.Reader.Source D.Writer.Sink most x
        supply.old feed.old pause.old dial.old →
        LinkAsked F.Feed P.Pause D.Dial D.Reader.Source D.Writer.Sink most result x
        supply.new feed.new pause.new dial.new }
{
    let Ok(mut link) = dial.dial() else {
        observer.link(LinkEvent::Missed, &supply.sender);
        return Ok(());
    };
    observer.link(LinkEvent::Made, &supply.sender);
    let end = visit::<F, P, D, V>(alloc, supply, feed, pause, &mut link, observer)?;
    observer.link(LinkEvent::Left(end), &supply.sender);
    end_by(end)
}

/// # Errors
/// How the upload ends, if a final reply stopped the link.
fn end_by<X>(end: LinkEnd) -> Result<(), Outcome<X>>
    ensures { result ≡ end_of_link end }
{
    match end {
        LinkEnd::Stopped(Stop::Conflict(number)) => Err(Outcome::Conflict(number)),
        LinkEnd::Stopped(Stop::TooFar(number)) => Err(Outcome::TooFar(number)),
        _ => Ok(()),
    }
}
