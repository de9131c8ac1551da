//! The first requests of a feed are passed over.
ghost use Rattle.std.specs.Prelude.{◌≡◌, List, IfOk, IfErr, true};
ghost use Rattle.bw_model.specs.Take.{Request as Message};
ghost use Rattle.bw_send_file.specs.SkippedRequests.{FailsFirst, PassesBy, SkipsBy, SkipsFirst};
ghost use Rattle.bw_send_file.specs.PlanFeeds.{feed_stamp};

use crate::{FeedFault, PlanFeed, is_close};
use bw_ports::{FileStamp, Stamped};
use bw_stream::Source;
use bw_upload::{Feed, Given};

/// Passes over the first `count` requests of a feed. Returns whether it gave that many, and no
/// CLOSE among them.
///
/// # Errors
/// The feed's fault.
///
/// # Not specified
/// What the feed still gives, unless true is returned.
pub fn skip<X: Feed>(feed: &mut X, count: u32) -> Result<bool, X::Fault>
    ensures known { IfOk result (λ all. all ≡ true → (requests : List Message) →
        X.left feed.old requests → SkipsFirst count requests (X.left feed.new)) }
    ensures ok { IfOk result (λ all. SkipsBy X.Feed all count feed.old feed.new) }
    ensures err { IfErr result (λ fault. FailsFirst X.Feed count feed.old fault) }
{
    for _skipped in 0..count {
        match feed.next()? {
            Given::Request(request) => {
                if is_close(&request) {
                    return Ok(false);
                }
            }
            Given::NotYet => return Ok(false),
            Given::End => return Ok(false),
        }
    }
    Ok(true)
}

/// Passes over the first `count` requests of a file's recording. Returns whether the file still has
/// its first stamp, and gave that many, with no CLOSE among them.
///
/// # Errors
/// The feed's fault.
pub(crate) fn pass_over<R: Source + Drop, S: Stamped + Drop>(
    feed: &mut PlanFeed<R, S>,
    first: &FileStamp,
    count: u32,
) -> Result<bool, FeedFault>
    ensures known { IfOk result (λ all. all ≡ true → (requests : List Message) →
        ⟦<PlanFeed<R, S> as Feed>⟧.left feed.old requests →
        SkipsFirst count requests (⟦<PlanFeed<R, S> as Feed>⟧.left feed.new)) }
    ensures ok { IfOk result (λ all. PassesBy ⟦<PlanFeed<R, S> as Feed>⟧ all
        (feed_stamp feed.old) first.now count feed.old feed.new) }
    ensures err { IfErr result (λ fault.
        FailsFirst ⟦<PlanFeed<R, S> as Feed>⟧ count feed.old fault) }
{
    let now = feed.stamp();
    if now.len != first.len || now.changed != first.changed {
        return Ok(false);
    }
    skip(feed, count)
}
