//! Where requests come from.
ghost use Rattle.std.specs.Prelude.{List, Result};
ghost use Rattle.bw_model.specs.Take.{Request as Message};
ghost use Rattle.bw_upload.specs.Feeds.{GivesRequest};
ghost use Rattle.bw_upload.specs.declared.feed.Given.{Given};

use bw_model::Request;

/// What a feed gave.
#[derive(Drop)]
pub enum Given {
    /// The next request.
    Request(Request),
    /// There is none yet; there may be one later.
    NotYet,
    /// There are no more.
    End,
}

/// Gives requests, one after another, as they come.
pub trait Feed {
    /// Why it can give no more, though it hasn't ended.
    type Fault: Drop;

    /// These may be the requests that are still to come.
    ghost left: { Self → List Message → Type 0 };

    /// What a call may return, and the state after it.
    ghost gives: { Self → Result Given Self.Fault → Self → Type 0 };

    /// The next request, if it is there.
    ///
    /// # Errors
    /// Why it can give no more. Of the feed nothing is known afterwards.
    fn next(&mut self) -> Result<Given, Self::Fault>
        ensures received { gives self.old result self.new }
        ensures left { GivesRequest (left self.old) result (left self.new) };
}
