//! How fast bytes are done.
ghost use Rattle.std.specs.Prelude.{◌≡◌};
ghost use Rattle.bw_progress.specs.Speeds.{bytes_a_second as speed_between, speed_noted};

/// The fewest milliseconds between two marks.
const SPAN: u64 = 2_000;

/// How many bytes were done at a time.
#[derive(Clone, Copy, Debug, PartialEq, Eq)]
pub struct Mark {
    /// In milliseconds.
    pub time: u64,
    /// How many bytes were done then.
    pub bytes: u64,
}

/// Measures how fast bytes are done: since a mark that is two to four seconds old, where it is asked
/// often enough.
#[derive(Clone, Copy, Debug, PartialEq, Eq)]
pub struct Speed {
    /// The mark since which bytes count.
    pub since: Mark,
    /// The mark that takes its place.
    pub next: Mark,
}

impl Speed {
    /// Measures from this mark on.
    pub fn new(first: Mark) -> Speed
        ensures { result ≡ record { since = first; next = first } }
    {
        Speed {
            since: first,
            next: first,
        }
    }

    /// Notes a mark, if the last one is two seconds old: that one counts from then on.
    pub fn note(&mut self, mark: Mark)
        ensures { self.new ≡ speed_noted mark self.old }
    {
        if mark.time.saturating_sub(self.next.time) < SPAN {
            return;
        }
        self.since = self.next;
        self.next = mark;
    }

    /// How many bytes a second were done up to this mark, rounded down; 0 if no time has passed.
    pub fn bytes_a_second(&self, now: Mark) -> u64
        ensures { result ≡ speed_between self.now.since now }
    {
        let passed = now.time.saturating_sub(self.since.time);
        if passed == 0 {
            return 0;
        }
        now.bytes
            .saturating_sub(self.since.bytes)
            .saturating_mul(1_000)
            / passed
    }
}
