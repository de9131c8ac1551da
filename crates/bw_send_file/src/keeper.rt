//! How far a sender is, noted in its state.
ghost use Rattle.std.specs.Prelude.{◌≡◌, MatchOption};
ghost use Rattle.bw_model.specs.World.{Sender as Defined};
ghost use Rattle.bw_sender.specs.Senders.{IsSender};
ghost use Rattle.bw_send_file.specs.NotedCounts.{CountsNothing, CountsStored, KeepsFault};
ghost use Rattle.bw_send_file.specs.NotedCounts.{HearsProgress, NotesCount, ReturnsKeptFault};

use bw_ports::{StateLog, Stopwatch, settled_line};
use bw_sender::Sender;
use bw_upload::{LinkEvent, Observer};
use std::io;

/// The milliseconds between two lines, and between two syncs.
const BETWEEN_LINES: u64 = 100;

const BETWEEN_SYNCS: u64 = 1_000;

/// Notes in a state's file how many requests are settled and stored, but for the last that was
/// offered, so that a CLOSE is never among them: at most ten times a second, and with syncs once a
/// second. Once a call of the file has failed, it notes nothing more.
#[derive(Drop)]
pub struct StateKeeper<'a, L, T> {
    log: L,
    stopwatch: &'a mut T,
    /// The last count in the file.
    noted: u32,
    /// When a line was last written, and when the file was last synced.
    written: u64,
    synced: u64,
    fault: Option<io::Error>,
}

impl<'a, L: StateLog + Drop, T: Stopwatch> StateKeeper<'a, L, T> {
    ghost use Rattle.bw_send_file.specs.NotedCounts.{kept_log, kept_count};

    /// Notes counts above `noted` in a file.
    pub fn new(log: L, stopwatch: &'a mut T, noted: u32) -> StateKeeper<'a, L, T>
        ensures log { kept_log result ≡ log }
        ensures noted { kept_count result ≡ noted }
    {
        StateKeeper {
            log,
            stopwatch,
            noted,
            written: 0,
            synced: 0,
            fault: None,
        }
    }

    /// Syncs the file. Returns why the state isn't kept, if a call of the file has failed.
    ///
    /// # Not specified
    /// Which error.
    pub fn finish(self) -> Option<io::Error>
        ensures { ReturnsKeptFault L.StateLog self.entry result }
    {
        let mut keeper = self;
        keeper.sync();
        keeper.fault
    }

    /// Notes how many requests are settled and stored, if that is more than before.
    fn note(&mut self, sender: &Sender)
        ensures count { (s : Defined) → IsSender s sender.now →
            NotesCount s (L.written self.old.log) (L.written self.new.log) }
        ensures fault { KeepsFault L.StateLog self.old self.new }
    {
        if self.fault.is_some() {
            return;
        }
        let Some(count) = stored_count(sender) else {
            return;
        };
        if count <= self.noted {
            return;
        }
        match self.log.append(settled_line(count).as_str().as_bytes()) {
            Ok(()) => self.noted = count,
            Err(error) => self.fault = Some(error),
        }
    }

    /// Notes as `note` does, unless it is too early for a line.
    fn note_if_due(&mut self, now: u64, sender: &Sender)
        ensures count { (s : Defined) → IsSender s sender.now →
            NotesCount s (L.written self.old.log) (L.written self.new.log) }
        ensures fault { KeepsFault L.StateLog self.old self.new }
    {
        if now.saturating_sub(self.written) < BETWEEN_LINES {
            return;
        }
        self.note(sender);
        self.written = now;
    }

    /// Syncs the file, unless it is too early for that.
    fn sync_if_due(&mut self, now: u64)
        ensures kept { L.written self.new.log ≡ L.written self.old.log }
        ensures fault { KeepsFault L.StateLog self.old self.new }
    {
        if now.saturating_sub(self.synced) < BETWEEN_SYNCS {
            return;
        }
        self.sync();
        self.synced = now;
    }

    /// Syncs the file.
    fn sync(&mut self)
        ensures kept { L.written self.new.log ≡ L.written self.old.log }
        ensures fault { KeepsFault L.StateLog self.old self.new }
    {
        if self.fault.is_some() {
            return;
        }
        if let Err(error) = self.log.sync() {
            self.fault = Some(error);
        }
    }
}

impl<L: StateLog + Drop, T: Stopwatch> Observer for StateKeeper<'_, L, T> {
    /// Notes the count at each change of the link, however early.
    fn link(&mut self, _event: LinkEvent, sender: &Sender)
        // The line has the count of settled and stored requests; after a fault none comes.
        ensures { (s : Defined) → IsSender s sender.now → HearsProgress L.StateLog s self.old self.new }
    {
        self.note(sender);
    }

    /// Notes the count, and syncs the file, if that is due.
    fn settled(&mut self, sender: &Sender)
        ensures { (s : Defined) → IsSender s sender.now → HearsProgress L.StateLog s self.old self.new }
    {
        let now = self.stopwatch.look();
        self.note_if_due(now, sender);
        self.sync_if_due(now);
    }
}

/// How many requests are settled, if all of them are stored; not counting the last one that was
/// offered.
fn stored_count(sender: &Sender) -> Option<u32>
    ensures { (s : Defined) → IsSender s sender.now →
        MatchOption result (CountsNothing s) (CountsStored s) }
{
    let offered = sender.offered();
    if offered == 0 || !sender.refused().is_empty() {
        return None;
    }
    Some(sender.settled().min(offered - 1))
}
