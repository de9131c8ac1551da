//! Why a sender refuses a request.
ghost use Rattle.std.specs.Prelude.{◌≡◌, ◌≤◌};
ghost use Rattle.bw_sender.specs.Offers.{refusal_number};

/// Why an offer was refused: the first that holds.
#[derive(Clone, Copy, Debug, PartialEq, Eq, Hash)]
pub enum OfferError {
    /// 16,777,216 requests were offered.
    NumbersSpent = 1,
    /// The first request must be an OPEN.
    BeforeOpen = 2,
    /// A CLOSE was offered that has no verdict yet, or is stored.
    AfterClose = 3,
    /// Sixteen requests were offered from the first without a verdict on.
    WindowFull = 4,
    /// Memory was refused.
    Memory = 5,
}

impl OfferError {
    /// Its number.
    pub fn code(self) -> u8
        ensures value { result ≡ refusal_number self }
        ensures range { result ≤ 5 }
    {
        self as u8
    }
}
