//! What may happen in a rehearsal in which servers stop.
use bw_commands::Event;

/// When the disks of a server die: each in the call that follows this many others.
///
/// If the call in which a disk dies writes bytes, the first `reached` of them are written; if it is
/// a cut or a rename, it is done unless `reached` is 0.
#[derive(Clone, Copy, Debug)]
pub struct Lives {
    /// How many calls of the disk of the takes precede the one in which it dies.
    pub takes: u64,
    /// How many calls of the disk of the journals precede the one in which it dies.
    pub notes: u64,
    /// How many bytes the call in which a disk dies still writes.
    pub reached: usize,
}

/// What may happen in a rehearsal in which servers stop. No server runs at first.
#[derive(Debug, Drop)]
pub enum StopEvent {
    /// An event of a rehearsal. A message or an ask is lost while no server runs.
    Happens(Event),
    /// The server stops between turns, if one runs.
    Stop,
    /// A server starts over what was left, if none runs, and has found the sender's name; the calls of
    /// its disks are counted from then on.
    Start(Lives),
    /// The same, but their calls are counted from the first on: a disk may die while the name is
    /// found, and then no server runs.
    StartCounting(Lives),
}
