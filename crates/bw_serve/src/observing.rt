//! An observer of an event loop, that is shown the server after each round.
ghost use Rattle.std.specs.Prelude.{◌≡◌};
ghost use Rattle.bw_serve.specs.declared.observing.RoundReport.{RoundReport};

use crate::end_counts::EndCounts;
use crate::peer_slot::PeerSlot;

/// What an event loop is at the end of a round.
#[derive(Clone, Copy)]
pub struct RoundReport<'a> {
    /// How many connections there may be at once.
    pub places: usize,
    /// How many there are.
    pub connections: u64,
    /// How many have ended.
    pub ended: u64,
    /// How many of these by each cause.
    pub ended_by: EndCounts,
    /// How many messages and asks were turned away, since their names aren't taken from their peers.
    pub turned_away: u64,
    /// The peer of each place, or the last one that it had.
    pub peers: &'a [PeerSlot],
}

/// Looks at a server after each round. It can't change the server, the connections and what is
/// printed.
pub trait RoundObserver<T> {
    /// What a look at this server and this report may make of the observer.
    ghost looks: { Self → T → RoundReport → Self → Type 0 };

    /// Looks at a server after a round.
    ///
    /// # Not specified
    /// Anything beyond what each implementation says of itself.
    fn look(&mut self, server: &T, round: &RoundReport<'_>)
        ensures { looks self.old server.now round.now self.new };
}

/// Looks at nothing.
#[derive(Clone, Copy, Debug)]
pub struct NoRoundObserver;

impl<T> RoundObserver<T> for NoRoundObserver {
    ghost looks = { λ observer server round observer'. observer' ≡ observer };

    fn look(&mut self, _server: &T, _round: &RoundReport<'_>) {}
}
