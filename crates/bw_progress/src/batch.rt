//! Which of several recordings is sent.
ghost use Rattle.std.specs.Prelude.{◌≡◌};

/// The place of a recording among those that are sent one after another.
#[derive(Clone, Copy, Debug, PartialEq, Eq)]
pub struct BatchPart {
    /// Which one it is, from 1.
    pub number: u32,
    /// How many there are; 0 if it is sent alone.
    pub count: u32,
}

impl BatchPart {
    /// That of a recording that is sent alone.
    pub fn alone() -> BatchPart
        ensures { result ≡ record { number = 0; count = 0 } }
    {
        BatchPart {
            number: 0,
            count: 0,
        }
    }
}
