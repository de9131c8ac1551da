//! Why bytes are no frame.
ghost use Rattle.std.specs.Prelude.{◌≡◌, ◌≤◌, Some};
ghost use Rattle.bw_model.specs.Wire.{reason_code};
ghost use Rattle.bw_wire.specs.Reasons.{reason_meaning, DecodesReason};

use std::error::Error;
use std::fmt;

/// Why bytes are no frame: the first that holds.
#[derive(Clone, Copy, Debug, PartialEq, Eq, Hash)]
pub enum Reason {
    /// The body's length is 0 or greater than that of any frame.
    Length = 1,
    /// No frame has this kind.
    Kind = 2,
    /// There is no name.
    Name = 3,
    /// The number is missing or too large.
    Number = 4,
    /// The payload isn't one of this kind.
    Payload = 5,
    /// The input ends inside the frame.
    Cut = 6,
}

impl Reason {
    /// Its byte in a reply.
    pub fn code(self) -> u8
        ensures value { result ≡ reason_code (reason_meaning self) }
        ensures range { result ≤ 6 }
    {
        self as u8
    }
}

/// A byte that is no code.
#[derive(Clone, Copy, Debug, PartialEq, Eq, Hash)]
pub struct UnknownCode(pub u8);

impl fmt::Display for UnknownCode {
    ghost use Rattle.bw_wire.specs.Reasons.{unknown_code_text};

    ghost output = { λ unknown. Some (unknown_code_text unknown) };

    /// Writes `N is no code`.
    fn fmt<W: fmt::Write>(&self, f: &mut fmt::Formatter<W>) -> fmt::Result {
        write!(f, "{} is no code", self.0)
    }
}

impl Error for UnknownCode {}

impl TryFrom<u8> for Reason {
    type Error = UnknownCode;

    ghost try_from_gives = { DecodesReason };

    /// The reason that has this code.
    ///
    /// # Errors
    /// `UnknownCode`, with the code, if no reason has it.
    fn try_from(code: u8) -> Result<Reason, UnknownCode> {
        match code {
            1 => Ok(Reason::Length),
            2 => Ok(Reason::Kind),
            3 => Ok(Reason::Name),
            4 => Ok(Reason::Number),
            5 => Ok(Reason::Payload),
            6 => Ok(Reason::Cut),
            _ => Err(UnknownCode(code)),
        }
    }
}

impl fmt::Display for Reason {
    ghost use Rattle.bw_wire.specs.Reasons.{reason_text};

    ghost output = { λ reason. Some (reason_text reason) };

    /// Writes the reason in a few words, such as `cut off`.
    fn fmt<W: fmt::Write>(&self, f: &mut fmt::Formatter<W>) -> fmt::Result {
        f.write_str(match self {
            Reason::Length => "a length that no frame has",
            Reason::Kind => "a kind that no frame has",
            Reason::Name => "no name",
            Reason::Number => "no number",
            Reason::Payload => "a payload of another kind",
            Reason::Cut => "cut off",
        })
    }
}
