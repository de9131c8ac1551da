//! Why an upload makes no progress.
ghost use Rattle.std.specs.Prelude.{◌≡◌};
ghost use Rattle.bw_progress.specs.Outages.{broken_by as breaks_by, missed_by as misses_by};
ghost use Rattle.bw_progress.specs.Outages.{outage_after as comes_after, outage_line, outage_number};
ghost use Rattle.bw_progress.specs.Outages.{outage_of_end as ends_by, outage_of_stop as stops_by};

use bw_console::LinkCause;
use bw_sender::{SendFault, Stop};
use bw_upload::{LinkEnd, LinkEvent};

/// Why nothing of an upload goes.
#[derive(Clone, Copy, Debug, PartialEq, Eq)]
pub enum Outage {
    /// Nobody listens at the address.
    Refused = 1,
    /// The server doesn't answer in time.
    Silent = 2,
    /// No way leads to the server.
    Unreachable = 3,
    /// No connection can be made, for another reason.
    NoLink = 4,
    /// The server closed the connection.
    Closed = 5,
    /// The connection broke off, for another reason.
    Broken = 6,
    /// What the server sent is no reply.
    BadReply = 7,
    /// The server's store fails.
    StoreFails = 8,
    /// The server knows as many names as it takes.
    TableFull = 9,
    /// The server has no memory for a message.
    NoRoom = 10,
    /// The server found bytes that are no frame.
    BadFrame = 11,
}

impl Outage {
    /// Its number, 1 to 11.
    pub fn code(self) -> u8
        ensures { result ≡ outage_number self }
    {
        self as u8
    }

    /// The line that reports it.
    pub fn line(self) -> &'static str
        ensures { result.now ≡ outage_line self }
    {
        match self {
            Outage::Refused => "send: connection refused\n",
            Outage::Silent => "send: timed out: the server doesn't answer\n",
            Outage::Unreachable => "send: the server can't be reached\n",
            Outage::NoLink => "send: no connection can be made\n",
            Outage::Closed => "send: the server closed the connection\n",
            Outage::Broken => "send: the connection broke off\n",
            Outage::BadReply => "send: what the server sent is no reply (BadReply)\n",
            Outage::StoreFails => "send: the server's store fails (DelayedStore)\n",
            Outage::TableFull => "send: the server's table of names is full (TableFull)\n",
            Outage::NoRoom => "send: the server has no memory (NoRoom)\n",
            Outage::BadFrame => "send: the server found bytes that are no frame (BadFrame)\n",
        }
    }
}

/// Why nothing goes after a change of the link, if that is so; `cause` is why the latest call of
/// the system for a link failed. What ends the upload is no outage.
pub fn outage_after(event: LinkEvent, cause: Option<LinkCause>) -> Option<Outage>
    ensures { result ≡ comes_after event cause }
{
    match event {
        LinkEvent::Waits(_milliseconds) => None,
        LinkEvent::Missed => Some(missed_by(cause)),
        LinkEvent::Made => None,
        LinkEvent::Left(end) => outage_of_end(end, cause),
    }
}

fn outage_of_end(end: LinkEnd, cause: Option<LinkCause>) -> Option<Outage>
    ensures { result ≡ ends_by end cause }
{
    match end {
        LinkEnd::Ended => Some(Outage::Closed),
        LinkEnd::Broken(SendFault::Read) => Some(broken_by(cause)),
        LinkEnd::Broken(SendFault::Write) => Some(broken_by(cause)),
        LinkEnd::Broken(SendFault::BadReply) => Some(Outage::BadReply),
        LinkEnd::Broken(SendFault::Memory) => None,
        LinkEnd::Broken(SendFault::TurnLimit) => None,
        LinkEnd::Stopped(stop) => outage_of_stop(stop),
        LinkEnd::Refused => None,
        LinkEnd::Done => None,
    }
}

fn outage_of_stop(stop: Stop) -> Option<Outage>
    ensures { result ≡ stops_by stop }
{
    match stop {
        Stop::Conflict(_number) => None,
        Stop::TooFar(_number) => None,
        Stop::TableFull => Some(Outage::TableFull),
        Stop::NoRoom => Some(Outage::NoRoom),
        Stop::DelayedStore => Some(Outage::StoreFails),
        Stop::BadFrame => Some(Outage::BadFrame),
    }
}

/// Why no link could be made.
pub(crate) fn missed_by(cause: Option<LinkCause>) -> Outage
    ensures { result ≡ misses_by cause }
{
    match cause {
        Some(LinkCause::Refused) => Outage::Refused,
        Some(LinkCause::TimedOut) => Outage::Silent,
        Some(LinkCause::Unreachable) => Outage::Unreachable,
        Some(LinkCause::Closed) => Outage::Closed,
        Some(LinkCause::Other) => Outage::NoLink,
        None => Outage::NoLink,
    }
}

/// Why a link broke off.
fn broken_by(cause: Option<LinkCause>) -> Outage
    ensures { result ≡ breaks_by cause }
{
    match cause {
        Some(LinkCause::Refused) => Outage::Broken,
        Some(LinkCause::TimedOut) => Outage::Silent,
        Some(LinkCause::Unreachable) => Outage::Unreachable,
        Some(LinkCause::Closed) => Outage::Closed,
        Some(LinkCause::Other) => Outage::Broken,
        None => Outage::Broken,
    }
}
