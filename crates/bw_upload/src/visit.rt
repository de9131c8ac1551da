//! One link, from when it is made until it isn't used any more.
ghost use Rattle.std.specs.Prelude.{◌≡◌, ◌==◌, not, length, ℕ, Option};
ghost use Rattle.bw_model.specs.World.{Sender as Defined, refused as refused_of};
ghost use Rattle.bw_sender.specs.Senders.{IsSender};
ghost use Rattle.bw_upload.specs.Courses.{Course};
ghost use Rattle.bw_upload.specs.Visits.{BeginsVisit, Visits, visit_end};

use crate::feed::Feed;
use crate::observer::{LinkEnd, Observer};
use crate::outcome::Outcome;
use crate::supply::{Supply, fill};
use crate::turn::take_turn;
use bw_exchange::MOST_READS;
use bw_ports::{Dial, Duplex, Pause};
use bw_sender::{SendFault, Sender, Talk};
use std::alloc::Global;

/// Uses a link as long as it can be: sends what is pending, reads a piece of the replies, and fills
/// the window, in turns. Once all is settled and the feed has ended, it leaves the link.
///
/// # Errors
/// How the upload ends.
pub(crate) fn visit<F: Feed, P: Pause, D: Dial, V: Observer>(
    alloc: Global,
    supply: &mut Supply,
    feed: &mut F,
    pause: &mut P,
    link: &mut Duplex<D::Reader, D::Writer>,
    observer: &mut V,
) -> Result<LinkEnd, Outcome<F::Fault>>
    ensures { (most : Option ℕ) (x : Course F P D D.Reader D.Writer) →
        BeginsVisit x supply.old feed.old pause.old link.old →
        Visits F.Feed P.Pause D.Dial D.Reader.Source D.Writer.Sink most result x
        supply.new feed.new pause.new }
{
    let Ok(mut talk) = Talk::new(alloc) else {
        return Err(Outcome::Memory);
    };
    for _read in 0..MOST_READS {
        let end = take_turn(alloc, &mut supply.sender, &mut talk, link);
        observer.settled(&supply.sender);
        if let Some(end) = end {
            return unless_memory(end);
        }
        if has_refused(&supply.sender) {
            return Ok(LinkEnd::Refused);
        }
        fill(supply, feed, pause)?;
        if supply.is_done() {
            talk.part(&mut link.reader, &mut link.writer);
            return Ok(LinkEnd::Done);
        }
    }
    Ok(LinkEnd::Broken(SendFault::TurnLimit))
}

/// # Errors
/// `Memory` if that is why the link isn't used any more.
fn unless_memory<X>(end: LinkEnd) -> Result<LinkEnd, Outcome<X>>
    ensures { result ≡ visit_end end }
{
    match end {
        LinkEnd::Broken(SendFault::Memory) => Err(Outcome::Memory),
        _ => Ok(end),
    }
}

/// Whether a settled request isn't stored.
fn has_refused(sender: &Sender) -> bool
    ensures { (s : Defined) → IsSender s sender.now →
        result ≡ not (length (refused_of s) == 0) }
{
    !sender.refused().is_empty()
}
