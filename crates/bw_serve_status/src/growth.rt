//! When each name grew last.
ghost use Rattle.std.specs.Prelude.{◌≡◌, length};
ghost use Rattle.bw_serve_status.specs.Growths.{NotesGrowth, grown_at, grown_by, growth_noted};

use crate::name_tally::{NameTally, is_of};
use bw_model::Name;

/// When a name grew last.
#[derive(Clone, Copy, Drop)]
pub(crate) struct Growth {
    /// At which change it was counted first, by which the same name is known.
    pub(crate) first: u64,
    /// How many of its messages were stored then.
    pub(crate) stored: u64,
    /// When, in milliseconds; None if it has not grown yet.
    pub(crate) at: Option<u64>,
}

impl Growth {
    /// Notes what is counted of the name at this time, in milliseconds.
    fn note(&mut self, tally: &NameTally, now: u64)
        ensures { self.new ≡ growth_noted now tally.now self.old }
    {
        if self.first == tally.first && self.stored == tally.stored {
            return;
        }
        self.first = tally.first;
        self.stored = tally.stored;
        self.at = grown_by(now, tally.stored);
    }
}

/// Notes which names have grown at this time, in milliseconds. A name's growth has the place of its
/// counts.
pub(crate) fn note_growth(growth: &mut [Growth], names: &[NameTally], now: u64)
    ensures { NotesGrowth now names.now growth.old growth.new }
{
    for place in 0..growth.len() {
        if place < names.len() {
            growth[place].note(&names[place], now);
        }
    }
}

/// When a name grew that has so many stored messages now, if it has any.
fn grown_by(now: u64, stored: u64) -> Option<u64>
    ensures { result ≡ grown_by now stored }
{
    if stored == 0 { None } else { Some(now) }
}

/// When a name grew last, in milliseconds, if it did.
pub(crate) fn grown_at(growth: &[Growth], names: &[NameTally], name: &Name) -> Option<u64>
    ensures { result ≡ grown_at name.now names.now growth.now }
{
    for place in 0..growth.len() {
        if place >= names.len() {
            return None;
        }
        if is_of(&names[place], name) {
            return growth[place].at;
        }
    }
    None
}
