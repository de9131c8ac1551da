//! Which replies stop a sender's talk.
ghost use Rattle.std.specs.Prelude.{◌≡◌};
ghost use Rattle.bw_sender.specs.HeardReplies.{heard_of};
ghost use Rattle.bw_wire.specs.Replies.{reply_of};
ghost use Rattle.bw_wire.specs.Notices.{notice_meaning};
ghost use Rattle.bw_sender.specs.Stops.{stop_by as stops_by, stop_of_notice};

use crate::heard::Heard;
use bw_wire::{Notice, Reply};

/// A reply after which a link isn't used any more.
#[derive(Clone, Copy, Debug, PartialEq, Eq)]
pub enum Stop {
    /// Another body was admitted under this number. It is final.
    Conflict(u32),
    /// This number is 16 or more past the least one without a verdict: the server has lost the
    /// take. It is final.
    TooFar(u32),
    /// The server knows as many names as it takes.
    TableFull,
    /// The server had no memory for a message.
    NoRoom,
    /// The server's store failed.
    DelayedStore,
    /// The server found bytes that are no frame, and reads no more of this link.
    BadFrame,
}

/// Whether a reply stops the talk, by what it was to the sender: a notice on a number that was
/// offered may, and that a frame was bad does.
pub(crate) fn stop_by(heard: Heard, reply: &Reply) -> Option<Stop>
    ensures { result ≡ stops_by (heard_of heard) (reply_of reply.now) }
{
    match reply {
        Reply::Verdict {
            name: _name,
            number: _number,
            verdict: _verdict,
        } => None,
        Reply::Notice {
            name: _name,
            number,
            code,
            next: _next,
        } => match heard {
            Heard::Noted => stop_of_notice(*code, *number),
            Heard::Counted => None,
            Heard::Known => None,
            Heard::Stranger => None,
        },
        Reply::BadFrame {
            reason: _reason,
            offset: _offset,
        } => Some(Stop::BadFrame),
    }
}

/// Whether a notice on this number stops the talk.
fn stop_of_notice(code: Notice, number: u32) -> Option<Stop>
    ensures { result ≡ stop_of_notice (notice_meaning code) number }
{
    match code {
        Notice::Held => None,
        Notice::TooFar => Some(Stop::TooFar(number)),
        Notice::Conflict => Some(Stop::Conflict(number)),
        Notice::TableFull => Some(Stop::TableFull),
        Notice::NoRoom => Some(Stop::NoRoom),
        Notice::DelayedStore => Some(Stop::DelayedStore),
        Notice::Next => None,
    }
}
