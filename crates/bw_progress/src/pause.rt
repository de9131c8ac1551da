//! Pauses during which the line of an upload is renewed.
ghost use Rattle.bw_progress.specs.Pauses.{PausesInPieces};

use crate::screen::ProgressLine;
use bw_ports::Pause;

/// The most milliseconds between two looks at the line.
const PIECE: u32 = 200;

/// Waits by another pause, in pieces that add up to the same time, and renews a line between them,
/// if there is one.
#[derive(Drop)]
pub struct RenewingPause<P, L> {
    /// Waits.
    pub inner: P,
    /// Is renewed.
    pub line: L,
}

impl<P: Pause, L: ProgressLine> Pause for RenewingPause<P, L> {
    ghost waits = { λ a milliseconds b. PausesInPieces P.waits a.inner milliseconds b.inner };

    fn pause(&mut self, milliseconds: u32) {
        let mut left = milliseconds;
        while left > PIECE && self.line.is_there() {
            self.line.renew();
            self.inner.pause(PIECE);
            left -= PIECE;
        }
        self.line.renew();
        self.inner.pause(left);
    }
}
