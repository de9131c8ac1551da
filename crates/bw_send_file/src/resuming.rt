//! The requests of a feed are sent after those that are stored already, and its end is reported.
ghost use Rattle.std.specs.Prelude.{◌≡◌, ◌+◌, ◌≤◌};
ghost use Rattle.bw_console.specs.Outcomes.{HasWritten, Outcome as Did};
ghost use Rattle.bw_model.specs.Wire.{Second, last_number};
ghost use Rattle.bw_model.specs.World.{Sender as Defined};
ghost use Rattle.bw_sender.specs.Senders.{HasStored};
ghost use Rattle.bw_send_file.specs.Sendings.{IsFeedSentAfter};

use crate::fault::FeedFault;
use crate::job::RestErrand;
use crate::sending::{Begun, send_by};
use crate::way::Way;
use bw_console::Exit;
use bw_sender::Sender;
use bw_upload::{Feed, Observer, SendingSides};

/// Sends what a feed gives as `send_feed` does, after the first `count` requests of the take, which
/// were sent before. The premise is that all of these are stored, and that none of them is a CLOSE:
/// the contract speaks of every sender for which that is so.
///
/// # Not specified
/// What `send_feed` leaves open.
pub fn send_feed_after<F: Feed<Fault = FeedFault>, X: SendingSides, V: Observer>(
    rest: &RestErrand<'_>,
    feed: &mut F,
    way: Way<'_, X>,
    observer: &mut V,
    out: &mut X::Output,
    faults: &mut X::Diagnostics,
) -> Exit
    requires { rest.now.count ≤ last_number Second + 1 }
    // With the status 0 these and all requests of the feed are stored.
    ensures { (s : Defined) → HasStored rest.now.errand.recorder.name.now rest.now.count s →
        (did : Did) × (did.exit ≡ result)
        × IsFeedSentAfter F.Feed X.Pause.Pause X.Dial.Dial X.Dial.Reader.Source X.Dial.Writer.Sink s
        (record {
          name = rest.now.errand.recorder.name.now;
          path = rest.now.errand.path.now;
          most = rest.now.errand.recorder.fruitless;
        })
        feed.old feed.new (record { pause = way.entry.pause.now; dial = way.entry.dial.now })
        (record { pause = way.exit.0.now; dial = way.exit.1.0.now }) did
        × HasWritten X.Output.Sink X.Diagnostics.Sink did out.old out.new faults.old faults.new }
{
    let errand = rest.errand;
    let sender = Sender::resume(way.alloc, errand.recorder.name.copy(), rest.count);
    send_by(Begun { sender, errand }, feed, way, observer, out, faults)
}
