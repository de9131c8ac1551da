//! Links that follow a script.
ghost use Rattle.std.specs.Prelude.{◌≡◌, [], true, ⊤};

use bw_ports::{Link, Received, Sent};
use std::alloc::{AllocError, Global};
use std::cell::RefCell;
use std::rc::Rc;

/// What a call for bytes gives.
#[derive(Clone, Copy)]
pub(crate) enum Give {
    /// This many of the input's next bytes, or the end after the last.
    Bytes(usize),
    Nothing,
    Failed,
}

/// What a call that offers bytes takes.
#[derive(Clone, Copy)]
pub(crate) enum Take {
    /// This many bytes.
    Bytes(usize),
    Nothing,
    Failed,
}

/// What a link gives and takes at its calls; each last step is followed again and again.
#[derive(Clone, Copy)]
pub(crate) struct Script {
    pub(crate) input: &'static [u8],
    pub(crate) gives: &'static [Give],
    pub(crate) takes: &'static [Take],
}

/// What a test reads of a link, even after it is closed.
#[derive(Drop)]
pub(crate) struct Record {
    /// In which round it was accepted.
    pub(crate) round: u64,
    /// Under which place.
    pub(crate) place: usize,
    /// How many bytes it gave.
    pub(crate) given: usize,
    /// The bytes that it took.
    pub(crate) taken: Vec<u8>,
    /// After how many of them it was shut.
    pub(crate) shut: Option<usize>,
}

/// A link that follows a script, and keeps what it gave and took.
#[derive(Drop)]
pub(crate) struct Scripted {
    script: Script,
    left: &'static [u8],
    receives: usize,
    sends: usize,
    is_ended: bool,
    is_broken: bool,
    /// Whether it had no bytes at the last call for some.
    is_dry: bool,
    /// Whether it had no room at the last call that offered bytes.
    is_full: bool,
    is_finished: bool,
    given: Vec<u8>,
    taken: Vec<u8>,
    record: Rc<RefCell<Record>>,
}

impl Scripted {
    /// A link at its start.
    pub(crate) fn new(alloc: Global, script: Script, record: Rc<RefCell<Record>>) -> Scripted
        ensures given { ⟦<Scripted as Link>⟧.given result [] }
        ensures taken { ⟦<Scripted as Link>⟧.taken result [] }
    {
        Scripted {
            script,
            left: script.input,
            receives: 0,
            sends: 0,
            is_ended: false,
            is_broken: false,
            is_dry: false,
            is_full: false,
            is_finished: false,
            given: Vec::new(alloc),
            taken: Vec::new(alloc),
            record,
        }
    }
}

impl Link for Scripted {
    ghost given = { λ l xs. xs ≡ l.given.items };

    ghost taken = { λ l ys. ys ≡ l.taken.items };

    ghost ended = { λ l. l.is_ended ≡ true };

    ghost broken = { λ l. l.is_broken ≡ true };

    ghost dry = { λ l. l.is_dry ≡ true };

    ghost full = { λ l. l.is_full ≡ true };

    ghost finished = { λ l. l.is_finished ≡ true };

    ghost calls_from = { λ _ _. ⊤ };

    fn receive(&mut self, buffer: &mut [u8]) -> Received {
        if self.is_ended {
            return Received::Ended;
        }
        self.is_dry = false;
        let step = step_at(self.script.gives, self.receives);
        self.receives = self.receives.saturating_add(1);
        let most = match step {
            Some(Give::Bytes(most)) => most,
            Some(Give::Nothing) => {
                self.is_dry = true;
                return Received::Nothing;
            }
            Some(Give::Failed) => {
                self.is_broken = true;
                return Received::Failed;
            }
            None => 0,
        };
        let count = most.min(buffer.len()).min(self.left.len());
        if count == 0 {
            self.is_ended = true;
            return Received::Ended;
        }
        let (piece, rest) = self.left.split_at(count);
        let Ok(()) = self.given.extend_from_slice(piece) else {
            self.is_broken = true;
            return Received::Failed;
        };
        buffer[..count].copy_from_slice(piece);
        self.left = rest;
        note_given(&self.record, count);
        Received::Bytes(count)
    }

    fn send(&mut self, bytes: &[u8]) -> Sent {
        self.is_full = false;
        let step = step_at(self.script.takes, self.sends);
        self.sends = self.sends.saturating_add(1);
        let most = match step {
            Some(Take::Bytes(most)) => most,
            Some(Take::Nothing) => {
                self.is_full = true;
                return Sent::Nothing;
            }
            Some(Take::Failed) => {
                self.is_broken = true;
                return Sent::Failed;
            }
            None => 0,
        };
        let count = most.min(bytes.len());
        if count == 0 {
            self.is_full = true;
            return Sent::Nothing;
        }
        let Ok(()) = self.taken.extend_from_slice(&bytes[..count]) else {
            self.is_broken = true;
            return Sent::Failed;
        };
        note_taken(&self.record, &bytes[..count]);
        Sent::Bytes(count)
    }

    fn shut(&mut self) {
        self.is_finished = true;
        note_shut(&self.record);
    }
}

/// The step of a call, counted from 0.
fn step_at<T: Copy>(steps: &[T], call: usize) -> Option<T> {
    let place = call.min(steps.len().saturating_sub(1));
    steps.get(place).copied()
}

fn note_given(record: &RefCell<Record>, count: usize) {
    if let Ok(mut record) = record.try_borrow_mut() {
        record.given = record.given.saturating_add(count);
    }
}

fn note_taken(record: &RefCell<Record>, bytes: &[u8]) {
    if let Ok(mut record) = record.try_borrow_mut() {
        let _refused = record.taken.extend_from_slice(bytes);
    }
}

fn note_shut(record: &RefCell<Record>) {
    if let Ok(mut record) = record.try_borrow_mut() {
        record.shut = Some(record.taken.len());
    }
}

/// Nothing given, nothing taken, and not shut.
///
/// # Errors
/// `AllocError` if memory was refused.
pub(crate) fn new_record(
    alloc: Global,
    round: u64,
    place: usize,
) -> Result<Rc<RefCell<Record>>, AllocError> {
    let taken = Vec::with_capacity(alloc, 256)?;
    let record = Record {
        round,
        place,
        given: 0,
        taken,
        shut: None,
    };
    match Rc::new(alloc, RefCell::new(record)) {
        Ok(record) => Ok(record),
        Err(_refused) => Err(AllocError),
    }
}
