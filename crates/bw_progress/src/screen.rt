//! Where the line of an upload is shown, and how others ask for it.
ghost use Rattle.std.specs.Prelude.{◌≡◌, ℕ, Bool, List};

/// Shows one line after another, such as each in place of the one before.
pub trait Screen {
    /// Whether anyone sees it.
    ghost is_seen: { Self → Bool };

    /// What a call that shows this line may leave.
    ghost shows: { Self → List ℕ → Self → Type 0 };

    /// What a call that clears the line may leave.
    ghost clears: { Self → Self → Type 0 };

    /// Whether anyone sees it.
    fn is_there(&self) -> bool
        ensures { result ≡ is_seen self.now };

    /// Shows a line, which has no end of its own. A failure to show it is ignored.
    ///
    /// # Not specified
    /// What a screen shows.
    fn show(&mut self, line: &[u8])
        ensures { shows self.old line.now self.new };

    /// Clears the line, so that what is written next is alone on its line.
    ///
    /// # Not specified
    /// What a screen shows.
    fn clear(&mut self)
        ensures { clears self.old self.new };
}

/// The line of an upload, for whoever waits or writes beside it.
pub trait ProgressLine {
    /// Whether an upload is followed, of which a line is shown.
    ///
    /// # Not specified
    /// Which it is.
    fn is_there(&self) -> bool;

    /// Shows the line again, if that is due.
    ///
    /// # Not specified
    /// What it shows.
    fn renew(&mut self);

    /// Clears the line, if it is shown.
    ///
    /// # Not specified
    /// What it shows.
    fn clear(&mut self);
}
