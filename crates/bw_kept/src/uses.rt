//! In which order names were used.
ghost use Rattle.std.specs.Prelude.{◌≡◌, ◌<◌, ◌≤◌, ◌++◌, [], ◌∷◌, IfOk, not, vec_capacity, vec_len};
ghost use Rattle.std.specs.List.{filter};
ghost use Rattle.std.specs.Str.{bytes_eq};
ghost use Rattle.bw_kept.specs.LeftOutNames.{is_among};
ghost use Rattle.bw_kept.specs.UseOrder.{with_place, with_use, is_last};

use bw_model::Name;
use std::alloc::AllocError;

/// How many names are kept: twice as many as a server takes, since some of them may have left its
/// table.
const MOST_USED: usize = 512;

/// The names that were used last, the least recently used first.
///
/// Each message and each ask uses its name. Only the uses of names that may leave the table are
/// noted: one that may not is used again before it may.
#[derive(Drop)]
pub(crate) struct Uses {
    names: Vec<Name>,
    ghost capacity: { 512 ≤ vec_capacity names },
    ghost most: { vec_len names ≤ 512 },
}

impl Uses {
    /// The uses of these names, in this order.
    ///
    /// # Errors
    /// `AllocError` if memory was refused.
    pub(crate) fn of(names: Vec<Name>) -> Result<Uses, AllocError>
        requires few { vec_len names ≤ 512 }
        ensures names { IfOk result (λ u. u.names.items ≡ names.items) }
    {
        let mut names = names;
        names.reserve_exact(MOST_USED - names.len())?;
        Ok(Uses { names })
    }

    /// The names, the least recently used first.
    pub(crate) fn names(&self) -> &[Name]
        ensures { result.now ≡ self.now.names.items }
    {
        self.names.as_slice()
    }

    /// Whether a name is among them.
    pub(crate) fn contains(&self, name: &Name) -> bool
        ensures { result ≡ is_among name.now self.now.names.items }
    {
        self.names.iter().any(|known| *known == *name)
    }

    /// Notes that a name is used now. If there are too many, the least recently used is forgotten.
    pub(crate) fn touch(&mut self, name: &Name)
        ensures last { self.new.names.items ≡ with_use name.now self.old.names.items }
    {
        if !self.is_last(name) {
            self.move_last(name);
        }
    }

    /// Whether this name was used last. Messages of a live recorder come in runs.
    fn is_last(&self, name: &Name) -> bool
        ensures { result ≡ is_last name.now self.now.names.items }
    {
        let count = self.names.len();
        count != 0 && self.names[count - 1] == *name
    }

    /// Puts a name at the end.
    fn move_last(&mut self, name: &Name)
        ensures last { self.new.names.items ≡ with_place
            (filter (λ other. not (bytes_eq other name.now)) self.old.names.items) ++ name.now ∷ [] }
    {
        self.forget(name);
        self.make_place();
        self.add(name);
    }

    /// Forgets the least recently used name, if there are too many.
    fn make_place(&mut self)
        ensures place { vec_len self.new.names < 512 }
        ensures names { self.new.names.items ≡ with_place self.old.names.items }
    {
        if self.names.len() == MOST_USED {
            self.names.remove(0);
        }
    }

    /// Adds a name at the end, where there is a place.
    fn add(&mut self, name: &Name)
        requires place { vec_len self.old.names < 512 }
        ensures last { self.new.names.items ≡ self.old.names.items ++ name.now ∷ [] }
    {
        let _added = self.names.push(name.copy());
    }

    /// Forgets a name. The others stay in their order.
    fn forget(&mut self, name: &Name)
        ensures others { self.new.names.items
            ≡ filter (λ other. not (bytes_eq other name.now)) self.old.names.items }
    {
        self.names.retain(|known| *known != *name);
    }
}
