//! What a server says about a request.
ghost use Rattle.std.specs.Prelude.{◌≡◌, ◌≤◌, ◌↔◌, IsTrue, Some};
ghost use Rattle.bw_model.specs.Take.{Stored, is_stored as is_stored_verdict};
ghost use Rattle.bw_model.specs.Replies.{verdict_code};
ghost use Rattle.bw_model.specs.VerdictMeanings.{verdict_meaning, DecodesVerdict, unknown_text};

use std::error::Error;
use std::fmt;

/// The judgement of a request on a take: it is stored, or why it isn't.
#[derive(Clone, Copy, Debug, PartialEq, Eq, Hash)]
pub enum Verdict {
    /// The request is part of the take.
    Stored = 0,
    /// The take's name was in the store when the server began.
    NameTaken = 1,
    /// The take has a format already.
    AlreadyOpen = 2,
    /// The take has no format yet.
    NotOpen = 3,
    /// The take is closed.
    Closed = 4,
    /// The format or a byte of the coding history isn't allowed.
    BadFormat = 5,
    /// The block doesn't end at the end of a frame.
    BadBlock = 6,
    /// The marker's frame is greater than the number of frames so far.
    BadMarker = 7,
    /// The take has a marker of this identifier.
    DuplicateMarker = 8,
    /// The take has 1,024 markers.
    TooManyMarkers = 9,
    /// No field has this tag, or it doesn't take this value.
    BadField = 10,
    /// The take has another number of frames.
    WrongTotal = 11,
}

impl Verdict {
    /// The byte that stands for it in a reply.
    pub fn code(self) -> u8
        ensures value { result ≡ verdict_code (verdict_meaning self) }
        ensures range { result ≤ 11 }
    {
        self as u8
    }

    /// Whether the request is part of the take.
    pub fn is_stored(self) -> bool
        ensures value { result ≡ is_stored_verdict (verdict_meaning self) }
        ensures stored { IsTrue result ↔ (verdict_meaning self ≡ Stored) }
    {
        self == Verdict::Stored
    }
}

impl From<Verdict> for u8 {
    ghost from_gives = { λ verdict code. code ≡ verdict_code (verdict_meaning verdict) };

    /// The verdict's code.
    fn from(verdict: Verdict) -> u8 {
        verdict.code()
    }
}

/// A code that no verdict has.
#[derive(Clone, Copy, Debug, PartialEq, Eq, Hash)]
pub struct UnknownVerdict(pub u8);

impl TryFrom<u8> for Verdict {
    type Error = UnknownVerdict;

    ghost try_from_gives = { DecodesVerdict };

    /// The verdict that has this code.
    ///
    /// # Errors
    /// `UnknownVerdict`, with the code, for codes from 12 on.
    fn try_from(code: u8) -> Result<Verdict, UnknownVerdict> {
        match code {
            0 => Ok(Verdict::Stored),
            1 => Ok(Verdict::NameTaken),
            2 => Ok(Verdict::AlreadyOpen),
            3 => Ok(Verdict::NotOpen),
            4 => Ok(Verdict::Closed),
            5 => Ok(Verdict::BadFormat),
            6 => Ok(Verdict::BadBlock),
            7 => Ok(Verdict::BadMarker),
            8 => Ok(Verdict::DuplicateMarker),
            9 => Ok(Verdict::TooManyMarkers),
            10 => Ok(Verdict::BadField),
            11 => Ok(Verdict::WrongTotal),
            _ => Err(UnknownVerdict(code)),
        }
    }
}

impl fmt::Display for UnknownVerdict {
    ghost output = { λ unknown. Some (unknown_text unknown) };

    /// Writes `no verdict has code N`.
    fn fmt<W: fmt::Write>(&self, f: &mut fmt::Formatter<W>) -> fmt::Result {
        write!(f, "no verdict has code {}", self.0)
    }
}

impl Error for UnknownVerdict {}
