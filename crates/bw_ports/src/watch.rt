//! Observers of a sender's progress.
use bw_stream::Sink;

/// A sender's progress after a round. No clause here says what its numbers are; those of the
/// sender's own type do.
pub trait ProgressReport {
    /// The round's number, counted from 1.
    fn round(&self) -> u32;

    /// How many requests have their verdicts, up to the first that has none.
    fn settled(&self) -> u32;

    /// How many of the settled requests are stored.
    fn stored(&self) -> u32;

    /// The bytes of samples in the settled requests; 2^64 - 1 if there are more.
    fn bytes(&self) -> u64;

    /// Writes it as a line.
    fn print_diagnostic<E: Sink>(&self, out: &mut E);
}

/// Watches a sender. No clause says what it does with the reports; it changes nothing of what is
/// sent.
pub trait Watch {
    /// Receives the sender's progress after a round.
    ///
    /// # Not specified
    /// What it does.
    fn round<P: ProgressReport>(&mut self, progress: &P);
}
