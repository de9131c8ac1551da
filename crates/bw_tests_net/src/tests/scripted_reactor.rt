//! A reactor to which peers come by a plan, with a clock that each wait advances.
ghost use Rattle.std.specs.Prelude.{◌≡◌, [], IfOk, ⊤};
ghost use Rattle.bw_ports.specs.Reactors.{closes_after};

use crate::tests::scripted::{Give, Record, Script, Scripted, Take, new_record};
use bw_ports::{Accepted, Link, Reactor, Ready, TryAcceptFault, WaitFault};
use std::alloc::{AllocError, Global};
use std::cell::RefCell;
use std::net::{Ipv4Addr, SocketAddr};
use std::rc::Rc;

/// A peer that comes, or what happens instead.
#[derive(Clone, Copy)]
pub(crate) enum Comes {
    /// Its script: the input, what it gives and what it takes.
    Peer(&'static [u8], &'static [Give], &'static [Take]),
    Gone,
    Closed,
}

/// A peer that comes in this round, counted from 1, or as soon as there is a place.
#[derive(Clone, Copy)]
pub(crate) struct Visit(pub(crate) u64, pub(crate) Comes);

/// What is reported of each link after each wait.
#[derive(Clone, Copy, PartialEq, Eq)]
pub(crate) enum ReportsRound {
    Both,
    Bytes,
    Room,
    Nothing,
}

/// How a reactor behaves.
#[derive(Clone, Copy)]
pub(crate) struct Plan {
    pub(crate) visits: &'static [Visit],
    /// How many milliseconds pass at each wait.
    pub(crate) tick: u64,
    /// How many rounds there are before a wait fails.
    pub(crate) rounds: u64,
    pub(crate) reports: ReportsRound,
}

impl Plan {
    /// All is reported after each wait.
    pub(crate) fn over(visits: &'static [Visit], tick: u64, rounds: u64) -> Plan {
        Plan {
            visits,
            tick,
            rounds,
            reports: ReportsRound::Both,
        }
    }
}

/// A reactor in memory, which keeps a record of each link.
#[derive(Drop)]
pub(crate) struct ScriptedReactor {
    alloc: Global,
    plan: Plan,
    now: u64,
    round: u64,
    /// How many of the visits were met.
    met: usize,
    /// How many links were reported since the last wait.
    reported: usize,
    /// The next peer's port; each peer has the port after the previous one's.
    port: u16,
    /// The longest time of the last wait, in milliseconds.
    patience: u64,
    failures: u64,
    waits: u64,
    records: Vec<Rc<RefCell<Record>>>,
}

/// For how many places a link is reported after each wait.
const MOST_PLACES: usize = 4;

impl ScriptedReactor {
    pub(crate) fn new(alloc: Global, plan: Plan) -> ScriptedReactor {
        ScriptedReactor {
            alloc,
            plan,
            now: 0,
            round: 0,
            met: 0,
            reported: 0,
            port: 4100,
            patience: 0,
            failures: 0,
            waits: 0,
            records: Vec::new(alloc),
        }
    }

    /// The time, in milliseconds.
    pub(crate) fn time(&self) -> u64 {
        self.now
    }

    /// How often it failed.
    pub(crate) fn failures(&self) -> u64 {
        self.failures
    }

    /// How many peers were accepted.
    pub(crate) fn let_in(&self) -> usize {
        self.records.len()
    }

    /// Whether the link with this number took exactly these bytes.
    pub(crate) fn has_taken(&self, number: usize, bytes: &[u8]) -> bool {
        match self.records.get(number) {
            Some(record) => has_taken(record, bytes),
            None => false,
        }
    }

    /// How many bytes the link with this number gave, and after how many of its replies it was
    /// shut.
    pub(crate) fn given_and_shut(&self, number: usize) -> (usize, Option<usize>) {
        match self.records.get(number) {
            Some(record) => given_and_shut(record),
            None => (0, None),
        }
    }

    /// In which round the peer with this number was accepted, and at which place.
    pub(crate) fn round_and_place(&self, number: usize) -> (u64, usize) {
        match self.records.get(number) {
            Some(record) => round_and_place(record),
            None => (0, 0),
        }
    }

    /// Accepts the next peer.
    fn admit(&mut self, script: Script, place: usize) -> Result<Accepted<Scripted>, TryAcceptFault>
        ensures given { IfOk result (λ accepted. ⟦<Scripted as Link>⟧.given accepted.link []) }
        ensures taken { IfOk result (λ accepted. ⟦<Scripted as Link>⟧.taken accepted.link []) }
        ensures count { self.new.failures ≡ closes_after result self.old.failures }
        ensures waits { self.new.waits ≡ self.old.waits }
        ensures time { self.new.now ≡ self.old.now }
        ensures patience { self.new.patience ≡ self.old.patience }
    {
        let Ok(link) = self.meet(script, place) else {
            return Err(TryAcceptFault::Gone);
        };
        let address = SocketAddr::from((Ipv4Addr::LOCALHOST, self.port));
        self.port = self.port.saturating_add(1);
        Ok(Accepted { address, link })
    }

    /// Makes the link of the next peer.
    fn meet(&mut self, script: Script, place: usize) -> Result<Scripted, AllocError>
        ensures given { IfOk result (λ link. ⟦<Scripted as Link>⟧.given link []) }
        ensures taken { IfOk result (λ link. ⟦<Scripted as Link>⟧.taken link []) }
        ensures failures { self.new.failures ≡ self.old.failures }
        ensures waits { self.new.waits ≡ self.old.waits }
        ensures time { self.new.now ≡ self.old.now }
        ensures patience { self.new.patience ≡ self.old.patience }
    {
        let record = new_record(self.alloc, self.round, place)?;
        self.records.push(record.clone()?)?;
        Ok(Scripted::new(self.alloc, script, record))
    }
}

fn has_taken(record: &RefCell<Record>, bytes: &[u8]) -> bool {
    match record.try_borrow() {
        Ok(record) => record.taken.as_slice() == bytes,
        Err(_used) => false,
    }
}

fn given_and_shut(record: &RefCell<Record>) -> (usize, Option<usize>) {
    match record.try_borrow() {
        Ok(record) => (record.given, record.shut),
        Err(_used) => (0, None),
    }
}

fn round_and_place(record: &RefCell<Record>) -> (u64, usize) {
    match record.try_borrow() {
        Ok(record) => (record.round, record.place),
        Err(_used) => (0, 0),
    }
}

impl Reactor for ScriptedReactor {
    type Link = Scripted;

    ghost failures = { λ h. h.failures };

    ghost waits = { λ h. h.waits };

    ghost time = { λ h. h.now };

    ghost patience = { λ h. h.patience };

    ghost reported = { λ _ _. ⊤ };

    ghost all_reported = { λ _. ⊤ };

    ghost tried = { λ _ _. ⊤ };

    ghost nobody = { λ _. ⊤ };

    ghost admitted = { λ _ _. ⊤ };

    fn wait(&mut self, most: u64) -> Result<(), WaitFault> {
        self.patience = most;
        if self.round >= self.plan.rounds {
            self.failures = self.failures.saturating_add(1);
            return Err(WaitFault);
        }
        self.waits = self.waits.saturating_add(1);
        self.round += 1;
        self.now = self.now.saturating_add(self.plan.tick);
        self.reported = 0;
        Ok(())
    }

    fn next_ready(&mut self) -> Option<Ready> {
        let reports = self.plan.reports;
        if self.reported >= MOST_PLACES || reports == ReportsRound::Nothing {
            return None;
        }
        let place = self.reported;
        self.reported += 1;
        Some(Ready {
            place,
            readable: reports != ReportsRound::Room,
            writable: reports != ReportsRound::Bytes,
        })
    }

    fn accept(&mut self, place: usize) -> Result<Accepted<Scripted>, TryAcceptFault> {
        let Some(Visit(round, comes)) = self.plan.visits.get(self.met).copied() else {
            return Err(TryAcceptFault::Nobody);
        };
        if round > self.round {
            return Err(TryAcceptFault::Nobody);
        }
        self.met = self.met.saturating_add(1);
        match comes {
            Comes::Gone => Err(TryAcceptFault::Gone),
            Comes::Closed => {
                self.failures = self.failures.saturating_add(1);
                Err(TryAcceptFault::Closed)
            }
            Comes::Peer(input, gives, takes) => {
                let script = Script {
                    input,
                    gives,
                    takes,
                };
                self.admit(script, place)
            }
        }
    }

    fn now(&mut self) -> u64 {
        self.now
    }
}
