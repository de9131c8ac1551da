//! The requests of headerless samples that are still being written, as a feed.
ghost use Rattle.std.specs.Prelude.{◌≡◌};
ghost use Rattle.bw_send_file.specs.ComingRequests.{RequestsLeft};
ghost use Rattle.bw_send_file.specs.PcmFeeds.{GivesOfSamples, feed_given};

use crate::{FeedFault, NextRequest, PcmFault, PcmRequests};
use bw_inspect::{InspectFault, InspectKind};
use bw_plan::{RecordingFault, RecordingKind};
use bw_ports::Followed;
use bw_upload::{Feed, Given};

/// Gives the requests of headerless samples while these are being written. It holds one block.
#[derive(Drop)]
pub struct PcmFeed<F> {
    pub(crate) requests: PcmRequests<F>,
}

impl<F: Followed + Drop> Feed for PcmFeed<F> {
    ghost use Rattle.bw_send_file.specs.SampleFeeds.{requests_of_feed};

    type Fault = FeedFault;

    ghost left = { λ f requests. RequestsLeft F.Followed (requests_of_feed f) requests };

    ghost gives = { λ f given g. GivesOfSamples F.Followed (requests_of_feed f) given
        (requests_of_feed g) };

    fn next(&mut self) -> Result<Given, FeedFault> {
        given_of(self.requests.next())
    }
}

/// What a feed gives, where this is the next request.
fn given_of(next: Result<NextRequest, PcmFault>) -> Result<Given, FeedFault>
    ensures { result ≡ feed_given next }
{
    match next {
        Ok(NextRequest::Request(request)) => Ok(Given::Request(request)),
        Ok(NextRequest::NotYet) => Ok(Given::NotYet),
        Ok(NextRequest::End) => Ok(Given::End),
        Err(PcmFault::Unread { place }) => Err(FeedFault::Unread(InspectFault {
            kind: InspectKind::Read,
            offset: place,
        })),
        Err(PcmFault::PartFrame { place }) => Err(FeedFault::Refused(RecordingFault {
            kind: RecordingKind::PartFrame,
            offset: place,
        })),
        Err(PcmFault::Empty { place }) => Err(FeedFault::Refused(RecordingFault {
            kind: RecordingKind::Empty,
            offset: place,
        })),
        Err(PcmFault::TooLong) => Err(FeedFault::Refused(RecordingFault {
            kind: RecordingKind::TooLong,
            offset: 0,
        })),
        Err(PcmFault::Unsendable) => Err(FeedFault::Unsendable),
        Err(PcmFault::Memory) => Err(FeedFault::Memory),
    }
}
