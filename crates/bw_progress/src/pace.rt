//! How often the line of an upload is shown.
ghost use Rattle.std.specs.Prelude.{◌≡◌};
ghost use Rattle.bw_progress.specs.Paces.{awaited_from, is_due_after, least_between};

/// How often the line of an upload is shown.
#[derive(Clone, Copy, Debug, PartialEq, Eq)]
pub enum LinePace {
    /// At most five times a second, at once at first: where each line takes the place of the last.
    Renewed,
    /// At most once a minute, first a minute after the first upload began: where all lines stay.
    EachMinute,
}

impl LinePace {
    /// Whether a line is due at this millisecond: the time between two lines has passed since `since`,
    /// or nothing is waited for.
    pub fn is_due(self, since: Option<u64>, now: u64) -> bool
        // A clock that went back has passed no time.
        ensures { result ≡ is_due_after self since now }
    {
        match since {
            None => true,
            Some(since) => now.saturating_sub(since) >= self.milliseconds(),
        }
    }

    /// Since when the next line is waited for once an upload begins at this millisecond.
    pub fn begin(self, since: Option<u64>, now: u64) -> Option<u64>
        ensures { result ≡ awaited_from self now since }
    {
        match self {
            LinePace::Renewed => since,
            LinePace::EachMinute => Some(since.unwrap_or(now)),
        }
    }

    /// The fewest milliseconds from one line to the next.
    fn milliseconds(self) -> u64
        ensures { result ≡ least_between self }
    {
        match self {
            LinePace::Renewed => 200,
            LinePace::EachMinute => 60_000,
        }
    }
}
