//! What a sender keeps its state by.
ghost use Rattle.std.specs.Prelude.{◌≡◌, List, ℕ, Option};

use crate::state_files::StateFiles;
use crate::stopwatch::Stopwatch;

/// Gives what a sender keeps its state by.
pub trait StateKeeping {
    /// The files of states.
    type States: StateFiles + Drop;

    /// Measures the time between lines.
    type Watch: Stopwatch + Drop;

    /// The bytes of the state at each path, if they are reported; none where there is no file.
    ghost kept_at: { Self → List ℕ → Option (List ℕ) };

    /// The files of states.
    ///
    /// # Not specified
    /// Anything beyond what each implementation says of itself.
    fn states(&self) -> Self::States
        ensures { Self.States.state_at result ≡ kept_at self.now };

    /// A stopwatch that starts now.
    ///
    /// # Not specified
    /// Anything beyond what each implementation says of itself.
    fn stopwatch(&self) -> Self::Watch;
}
