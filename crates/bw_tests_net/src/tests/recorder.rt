//! A store that notes which calls come: the one that shows that the clauses `asked` can be kept.
ghost use Rattle.std.specs.Prelude.{◌≡◌, IsTrue, Some, None, [], ◌∷◌, ◌++◌, map, if◌then◌else◌};
ghost use Rattle.bw_store.specs.Calls.{Create, WriteAt, Finish};
ghost use Rattle.bw_tests_net.specs.declared.tests.recorder.Call.TheVariants.{Create as create};
ghost use Rattle.bw_tests_net.specs.declared.tests.recorder.Call.TheVariants.{Write as write};
ghost use Rattle.bw_tests_net.specs.declared.tests.recorder.Call.TheVariants.{Finish as finish};

use bw_model::Name;
use bw_store::{Created, StoreFault, TakeStore};
use std::alloc::Global;

/// A call of a store; of a write its offset and its length.
#[derive(Clone, Copy, Debug, PartialEq, Eq)]
pub(crate) enum Call {
    Create,
    Write(u64, usize),
    Finish,
}

/// A call on a name.
#[derive(Drop)]
struct Noted {
    name: Name,
    call: Call,
}

/// A store, and the calls that came, those that failed among them.
#[derive(Drop)]
pub(crate) struct Recorder<S: TakeStore> {
    inner: S,
    noted: Vec<Noted>,
    /// No memory was refused for a note.
    has_all: bool,
}

impl<S: TakeStore> Recorder<S> {
    pub(crate) fn new(alloc: Global, inner: S) -> Recorder<S> {
        Recorder {
            inner,
            noted: Vec::new(alloc),
            has_all: true,
        }
    }

    pub(crate) fn inner(&self) -> &S {
        &self.inner
    }

    /// Whether these calls came on this name, in this order, and no others.
    pub(crate) fn got(&self, name: &Name, calls: &[Call]) -> bool {
        self.has_all
            && self.noted.len() == calls.len()
            && self
                .noted
                .iter()
                .zip(calls)
                .all(|(noted, call)| noted.name == *name && noted.call == *call)
    }

    fn note(&mut self, name: &Name, call: Call)
        ensures inner { self.new.inner ≡ self.old.inner }
        ensures noted { IsTrue self.new.has_all → self.new.noted.items
            ≡ self.old.noted.items ++ record { name = name.now; call = call } ∷ [] }
        ensures all { IsTrue self.new.has_all → IsTrue self.old.has_all }
    {
        let name = name.copy();
        if self.noted.push(Noted { name, call }).is_err() {
            self.has_all = false;
        }
    }
}

impl<S: TakeStore> TakeStore for Recorder<S> {
    ghost contents = { λ s name. S.contents s.inner name };

    ghost failures = { λ s. S.failures s.inner };

    ghost calls = { λ s. S.calls s.inner };

    ghost asked = { λ s. if s.has_all then Some (map (λ n. elim n.call [
      | create ↦ Create n.name
      | write offset len ↦ WriteAt n.name offset len
      | finish ↦ Finish n.name
    ]) s.noted.items) else None };

    ghost honest = { λ s. S.honest s.inner };

    fn create(&mut self, name: &Name) -> Result<Created, StoreFault> {
        self.note(name, Call::Create);
        self.inner.create(name)
    }

    fn write_at(&mut self, name: &Name, offset: u64, bytes: &[u8]) -> Result<(), StoreFault> {
        self.note(name, Call::Write(offset, bytes.len()));
        self.inner.write_at(name, offset, bytes)
    }

    fn finish(&mut self, name: &Name) -> Result<(), StoreFault> {
        self.note(name, Call::Finish);
        self.inner.finish(name)
    }
}
