//! What is counted of each name.
ghost use Rattle.std.specs.Prelude.{◌≡◌, ◌≤◌, ◌<◌, length, vec_len, vec_capacity};
ghost use Rattle.std.specs.List.{list_any, prefix_len};
ghost use Rattle.std.specs.Str.{bytes_eq};
ghost use Rattle.bw_serve_status.specs.Names.{change_of, is_other, most_name_tallies, on_name};
ghost use Rattle.bw_serve_status.specs.Names.{on_first, with_new};
ghost use Rattle.bw_serve_status.specs.Names.{least_last, oldest_place, uncounted};

use bw_model::Name;

/// Of how many names counts are kept: as many as a server has in its table.
pub(crate) const NAMES: usize = 256;

/// What is counted of a name. The counts stay at 2^64 - 1.
#[derive(Drop)]
pub(crate) struct NameTally {
    pub(crate) name: Name,
    /// Verdicts that store.
    pub(crate) stored: u64,
    /// Verdicts that don't.
    pub(crate) refused: u64,
    /// Notices that the store failed.
    pub(crate) delayed: u64,
    /// At which of all changes of names it was counted first; the number stays at 2^64 - 1.
    pub(crate) first: u64,
    /// At which it was counted last.
    pub(crate) last: u64,
}

/// What a reply says of a name.
#[derive(Clone, Copy)]
pub(crate) enum Change {
    /// A message was stored.
    Stored,
    /// A message was refused.
    Refused,
    /// The store failed.
    Delayed,
}

impl NameTally {
    /// A name of which nothing is counted yet, at this change.
    fn new(name: &Name, at: u64) -> NameTally
        ensures { result ≡ uncounted at name.now }
    {
        NameTally {
            name: name.copy(),
            stored: 0,
            refused: 0,
            delayed: 0,
            first: at,
            last: at,
        }
    }

    /// Counts a change, which is this one of all.
    fn count(&mut self, change: Change, at: u64)
        ensures { self.new ≡ change_of change at self.old }
    {
        self.last = at;
        match change {
            Change::Stored => {
                self.stored = self.stored.saturating_add(1);
            }
            Change::Refused => {
                self.refused = self.refused.saturating_add(1);
            }
            Change::Delayed => {
                self.delayed = self.delayed.saturating_add(1);
            }
        }
    }
}

/// Counts a change of a name, which is this one of all. If it is new and there are 256 names, it
/// takes the place of the one that was counted least recently.
pub(crate) fn count_name(names: &mut Vec<NameTally>, name: &Name, change: Change, at: u64)
    requires { most_name_tallies ≤ vec_capacity names.old }
    ensures names { names.new.items ≡ on_name change at name.now names.old.items }
    ensures capacity { vec_capacity names.new ≡ vec_capacity names.old }
{
    if !has_name(names.as_slice(), name) {
        add_name(names, name, at);
    }
    change_name(names, name, change, at);
}

/// Adds a name of which nothing is counted.
fn add_name(names: &mut Vec<NameTally>, name: &Name, at: u64)
    requires { most_name_tallies ≤ vec_capacity names.old }
    ensures names { names.new.items ≡ with_new at name.now names.old.items }
    ensures capacity { vec_capacity names.new ≡ vec_capacity names.old }
{
    if names.len() < NAMES {
        names.push_reserved(NameTally::new(name, at));
        return;
    }
    let place = oldest_place(names.as_slice());
    if place < names.len() {
        names[place] = NameTally::new(name, at);
    }
}

/// The place of the first name that was counted least recently.
fn oldest_place(names: &[NameTally]) -> usize
    ensures { result ≡ oldest_place names.now }
{
    let least = least_last(names);
    names.iter().take_while(|tally| tally.last > least).count()
}

/// The least number of a change at which one of these was counted last.
fn least_last(names: &[NameTally]) -> u64
    ensures { result ≡ least_last names.now }
{
    names
        .iter()
        .fold(u64::MAX, |least, tally| least.min(tally.last))
}

/// Whether these are the counts of a name.
pub(crate) fn is_of(tally: &NameTally, name: &Name) -> bool
    ensures { result ≡ bytes_eq tally.now.name name.now }
{
    tally.name.as_bytes() == name.as_bytes()
}

fn has_name(names: &[NameTally], name: &Name) -> bool
    ensures { result ≡ list_any (λ t. bytes_eq t.name name.now) names.now }
{
    let name = name.as_bytes();
    names.iter().any(|tally| tally.name.as_bytes() == name)
}

/// Counts a change of a name that is there.
fn change_name(names: &mut Vec<NameTally>, name: &Name, change: Change, at: u64)
    ensures names { names.new.items ≡ on_first change at name.now names.old.items }
    ensures capacity { vec_capacity names.new ≡ vec_capacity names.old }
{
    let place = place_of(names.as_slice(), name);
    if place < names.len() {
        names[place].count(change, at);
    }
}

/// How many others come before a name.
fn place_of(names: &[NameTally], name: &Name) -> usize
    ensures { result ≡ prefix_len (is_other name.now) names.now }
{
    let name = name.as_bytes();
    names
        .iter()
        .take_while(|tally| tally.name.as_bytes() != name)
        .count()
}
