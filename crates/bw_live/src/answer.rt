//! What a line asks for, and why nothing is marked for it.

/// What a line asks for.
#[derive(Clone, Copy, Debug, PartialEq, Eq)]
pub enum MarkWish {
    /// `mark`: a marker with the identifier after the greatest so far.
    Next,
    /// `mark LABEL-ID`: a marker with this identifier.
    Labelled(u32),
    /// Anything else.
    Unknown,
}

/// Why a line isn't a marker.
#[derive(Clone, Copy, Debug, PartialEq, Eq)]
pub enum MarkFault {
    /// It is neither `mark` nor `mark LABEL-ID`.
    Unknown,
    /// A marker has this identifier, or the greatest one there is.
    Taken,
    /// There are 1,024 markers.
    TooMany,
    /// The place is after frame 4,294,967,295.
    TooLate,
}

impl MarkFault {
    ghost use Rattle.std.specs.Prelude.{◌≡◌};
    ghost use Rattle.bw_live.specs.MarkTexts.{fault_words};

    /// What is said of the line.
    pub(crate) fn words(self) -> &'static str
        ensures { result.now ≡ fault_words self }
    {
        match self {
            MarkFault::Unknown => "it isn't 'mark' or 'mark LABEL-ID'",
            MarkFault::Taken => "a marker has this label id",
            MarkFault::TooMany => "there are 1,024 markers",
            MarkFault::TooLate => "no marker can be so late",
        }
    }
}
