//! How much time has passed.
ghost use Rattle.std.specs.Prelude.{◌≡◌, ◌≤◌, ℕ};

/// Measures time from some start on.
pub trait Stopwatch {
    /// The milliseconds at the last look.
    ghost time: { Self → ℕ };

    /// How many milliseconds have passed since the start; if the time can't be read, as many as at
    /// the last look.
    ///
    /// # Not specified
    /// How many.
    fn look(&mut self) -> u64
        ensures time { result ≡ time self.new }
        ensures later { time self.old ≤ time self.new };
}
