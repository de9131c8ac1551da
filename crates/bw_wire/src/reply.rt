//! Replies: what a server says about messages, asks, and bytes that are no frames.
ghost use Rattle.std.specs.Prelude.{◌≡◌, ◌≤◌};
ghost use Rattle.bw_model.specs.Replies.{notice_code};
ghost use Rattle.bw_wire.specs.Notices.{notice_meaning, DecodesNotice};

use crate::reason::{Reason, UnknownCode};
use bw_model::{Name, Verdict};

/// Why a message has no verdict, or the answer to an ask.
#[derive(Clone, Copy, Debug, PartialEq, Eq, Hash)]
pub enum Notice {
    /// The message is kept until all messages before it have come.
    Held = 32,
    /// Its number is 16 or more past the least one without a verdict.
    TooFar = 33,
    /// Another body was admitted under its number.
    Conflict = 34,
    /// The server already knows as many names as it takes.
    TableFull = 35,
    /// The server had no memory for it.
    NoRoom = 36,
    /// The store or the journal failed: the message is kept, and tried again when the next one of
    /// its name comes. With `next` 0 also, if the table is a cache of a folder: the name couldn't be
    /// recovered, or had no place, and nothing of it has changed but what a recovery mends.
    DelayedStore = 37,
    /// The answer to an ask.
    Next = 39,
}

impl Notice {
    /// Its byte in a reply.
    pub fn code(self) -> u8
        ensures value { result ≡ notice_code (notice_meaning self) }
        ensures range { result ≤ 39 }
    {
        self as u8
    }
}

impl TryFrom<u8> for Notice {
    type Error = UnknownCode;

    ghost try_from_gives = { DecodesNotice };

    /// The notice that has this code.
    ///
    /// # Errors
    /// `UnknownCode`, with the code, if no notice has it.
    fn try_from(code: u8) -> Result<Notice, UnknownCode> {
        match code {
            32 => Ok(Notice::Held),
            33 => Ok(Notice::TooFar),
            34 => Ok(Notice::Conflict),
            35 => Ok(Notice::TableFull),
            36 => Ok(Notice::NoRoom),
            37 => Ok(Notice::DelayedStore),
            39 => Ok(Notice::Next),
            _ => Err(UnknownCode(code)),
        }
    }
}

/// A reply to a message, to an ask, or to a bad frame.
#[derive(Debug, Drop, PartialEq, Eq)]
pub enum Reply {
    /// The verdict on a message.
    Verdict {
        name: Name,
        number: u32,
        verdict: Verdict,
    },
    /// Why a message has no verdict, or the answer to an ask. `next` is the least number without a
    /// verdict.
    Notice {
        name: Name,
        number: u32,
        code: Notice,
        next: u32,
    },
    /// Why bytes were no frame, and how many bytes of the exchange come before them.
    BadFrame {
        reason: Reason,
        offset: u64,
    },
}

/// An exchange that was cut off in its first frame.
impl Default for Reply {
    ghost use Rattle.std.specs.Prelude.{◌≡◌};
    ghost use Rattle.bw_model.specs.Wire.{Cut};
    ghost use Rattle.bw_model.specs.Replies.{Refused};
    ghost use Rattle.bw_wire.specs.Replies.{reply_of};

    ghost is_default = { λ r. reply_of r ≡ Refused Cut 0 };

    /// A bad frame, cut off at the offset 0.
    fn default() -> Self {
        Reply::BadFrame {
            reason: Reason::Cut,
            offset: 0,
        }
    }
}
