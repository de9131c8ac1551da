//! Waits for a while.
ghost use Rattle.std.specs.Prelude.{ℕ};

/// Waits for as long as it is asked to. In tests a list of pauses takes its place.
pub trait Pause {
    /// What a call for so many milliseconds may leave.
    ghost waits: { Self → ℕ → Self → Type 0 };

    /// Waits so many milliseconds.
    ///
    /// # Not specified
    /// That this much time passes.
    fn pause(&mut self, milliseconds: u32)
        ensures { waits self.old milliseconds self.new };
}
