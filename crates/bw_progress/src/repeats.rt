//! Which outages are reported: each change once.
ghost use Rattle.std.specs.Prelude.{◌≡◌, None, Some};
ghost use Rattle.bw_progress.specs.Repeats.{is_change};

use crate::outage::Outage;

/// The outage that was met last, and how many requests were settled then.
#[derive(Clone, Copy, Debug, PartialEq, Eq)]
pub struct LastOutage {
    /// None was met yet where it is None.
    pub outage: Option<Outage>,
    /// How many were settled then.
    pub settled: u32,
}

impl LastOutage {
    /// None was met yet.
    pub fn none() -> LastOutage
        ensures { result ≡ record { outage = None; settled = 0 } }
    {
        LastOutage {
            outage: None,
            settled: 0,
        }
    }

    /// Meets an outage when so many requests are settled. Returns whether it is to be reported: it is
    /// another one than the last, or requests were settled between them.
    pub fn meet(&mut self, outage: Outage, settled: u32) -> bool
        ensures value { result ≡ is_change outage settled self.old }
        ensures last { self.new ≡ record { outage = Some outage; settled = settled } }
    {
        let is_change = self.differs_from(outage, settled);
        self.outage = Some(outage);
        self.settled = settled;
        is_change
    }

    fn differs_from(&self, outage: Outage, settled: u32) -> bool
        ensures { result ≡ is_change outage settled self.now }
    {
        match self.outage {
            None => true,
            Some(last) => last.code() != outage.code() || self.settled != settled,
        }
    }
}
