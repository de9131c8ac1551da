//! What a reply means for a sender.
ghost use Rattle.std.specs.Prelude.{◌≡◌, ◌≤◌};
ghost use Rattle.bw_sender.specs.HeardReplies.{heard_number};

/// How a sender took a reply. Only `Counted` changes the sender.
#[derive(Clone, Copy, Debug, PartialEq, Eq, Hash)]
pub enum Heard {
    /// The first verdict of an offered request.
    Counted = 1,
    /// A verdict on a request that has one.
    Known = 2,
    /// A notice on an offered request, or the answer to an ask for the sender's name.
    Noted = 3,
    /// A reply to another name, or to a number that wasn't offered, or to a bad frame.
    Stranger = 4,
}

impl Heard {
    /// Its number.
    pub fn code(self) -> u8
        ensures value { result ≡ heard_number self }
        ensures range { result ≤ 4 }
    {
        self as u8
    }
}
