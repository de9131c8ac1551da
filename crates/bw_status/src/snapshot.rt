//! What a server is doing at one moment, as plain values.
ghost use Rattle.std.specs.Prelude.{◌≡◌};
ghost use Rattle.bw_status.specs.Words.{health_text, take_state_word};

use std::net::SocketAddr;

/// How far a take is.
#[derive(Clone, Copy, Debug, PartialEq, Eq)]
pub enum ShownState {
    /// No OPEN is stored.
    Unopened,
    /// Its file grows.
    Open,
    /// It is complete.
    Closed,
    /// Its name existed before: nothing is stored.
    Stood,
}

/// The format of samples.
#[derive(Clone, Copy, Debug, PartialEq, Eq)]
pub struct SoundFormat {
    /// Frames per second.
    pub rate: u32,
    /// Samples per frame.
    pub channels: u16,
    /// Bits per sample.
    pub bits: u16,
}

/// A take.
#[derive(Drop)]
pub struct TakeStatus {
    /// Its name.
    pub name: String,
    /// How far it is.
    pub state: ShownState,
    /// The format of its samples, once it has one.
    pub format: Option<SoundFormat>,
    /// How many whole frames it has, once it has a format.
    pub frames: Option<u64>,
    /// How long these last, in whole milliseconds.
    pub ms: Option<u64>,
    /// The least number without a verdict.
    pub next: u64,
    /// How many messages wait for those before them.
    pub held: u64,
    /// How many verdicts this server has sent that refuse a message.
    pub refused: u64,
    /// How often this server has replied that its store failed.
    pub delayed: u64,
    /// How many milliseconds ago the last of its messages was stored, if one was by this server.
    pub quiet_ms: Option<u64>,
    /// The peer at the first place whose link named it among its first eight names: the one that is
    /// connected there, or was last.
    pub peer: Option<SocketAddr>,
}

/// A name that is left out: its frames are put off.
#[derive(Drop)]
pub struct LeftOutName {
    /// The name.
    pub name: String,
    /// What is wrong with its journal or its file.
    pub cause: String,
}

/// How often something happened.
#[derive(Clone, Copy, Debug)]
pub struct Count {
    /// What happened, in a word.
    pub kind: &'static str,
    /// How often; it stays at 2^64 - 1.
    pub count: u64,
}

/// Whether a server is well: new takes can begin.
#[derive(Clone, Copy, Debug, PartialEq, Eq)]
pub enum Health {
    /// They can.
    Ready,
    /// Its folder can't be used.
    Folder,
    /// The last call of the store or its journal to begin a take failed.
    Store,
    /// The table has no place for a new name.
    Full,
}

/// What a server is doing at one moment.
#[derive(Drop)]
pub struct Snapshot {
    /// The takes that are listed, in their order.
    pub takes: Vec<TakeStatus>,
    /// The names that are left out, in the order in which they were found.
    pub left_out: Vec<LeftOutName>,
    /// When the server began, in seconds since the start of 1970 (UTC); 0 if that couldn't be read.
    pub since: u64,
    /// How long it has been running, in milliseconds.
    pub uptime_ms: u64,
    /// How many takes it resumed as it began.
    pub resumed: u64,
    /// How many connections it has now.
    pub connections: u64,
    /// How many it may have.
    pub places: u64,
    /// How many have ended.
    pub ended: u64,
    /// How many of these by each cause, all causes once.
    pub ended_by: Vec<Count>,
    /// How many messages and asks were turned away, since their names aren't taken from their peers.
    pub turned_away: u64,
    /// How many bytes of messages' bodies came.
    pub bytes: u64,
    /// How much memory the process uses, in bytes, if that is known.
    pub memory: Option<u64>,
    /// How many of its lines were left out, since they couldn't be written at once.
    pub lines_dropped: u64,
    /// How many messages and asks came, by their kind.
    pub messages: Vec<Count>,
    /// How many verdicts were sent, by verdict; those of repeats count again.
    pub verdicts: Vec<Count>,
    /// How many notices were sent, by what they say.
    pub notices: Vec<Count>,
    /// Whether it is well.
    pub health: Health,
}

/// A take's state in a word.
pub(crate) fn take_state_word(state: ShownState) -> &'static str
    ensures { result.now ≡ take_state_word state }
{
    match state {
        ShownState::Unopened => "unopened",
        ShownState::Open => "open",
        ShownState::Closed => "closed",
        ShownState::Stood => "stood",
    }
}

/// Whether a server is well, in words.
pub(crate) fn health_text(health: Health) -> &'static str
    ensures { result.now ≡ health_text health }
{
    match health {
        Health::Ready => "ready",
        Health::Folder => "the folder can't be used",
        Health::Store => "the store fails",
        Health::Full => "no place in the table",
    }
}
