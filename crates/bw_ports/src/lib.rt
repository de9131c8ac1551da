//! What the program asks of the outside: links, peers, folders and their locks, files that are read,
//! edited, followed or kept, a clock and words. Crates above implement it over sockets, folders and
//! terminals, and tests in memory. With it, what is kept over these: a sender's state, a spool, and
//! the pace of a link.
//! Not stated: how fast bytes go; when something fails; that a spool's link is standard input.
#![tactic(auto)]

mod dial;
mod edited_files;
mod file_kind;
mod folder_locks;
mod followed;
mod kind_refusing;
mod link;
mod listener_setup;
mod network;
mod paced_network;
mod paced_sink;
mod pause;
mod peers;
mod reactor;
mod receipt_files;
mod recording_files;
mod spool;
mod spool_holding;
mod spool_keeper;
mod spool_purpose;
mod starts;
mod state_files;
mod state_header;
mod state_keeping;
pub mod state_laws;
mod state_reading;
mod state_writing;
mod stopwatch;
mod system;
mod watch;

pub use dial::{Dial, DialFault, Duplex};
pub use edited_files::EditedFiles;
pub use file_kind::{FileKind, FileKinds};
pub use folder_locks::{FolderLocks, LockRefusal};
pub use followed::Followed;
pub use kind_refusing::refuse_kind;
pub use link::{Link, Received, Sent};
pub use listener_setup::ListenerSetup;
pub use network::Network;
pub use paced_network::PacedNetwork;
pub use paced_sink::PacedSink;
pub use pause::Pause;
pub use peers::{AcceptFault, Peer, Peers};
pub use reactor::{Accepted, Reactor, Ready, TryAcceptFault, WaitFault};
pub use receipt_files::{ReceiptFiles, ReceiptKeeping};
pub use recording_files::{FileStamp, RecordingFiles, Stamped};
pub use spool::{Drawn, Spool, SpoolState};
pub use spool_holding::{hold_spool, keep_unless_done};
pub use spool_keeper::{SpoolKeeper, SpoolKeeping};
pub use spool_purpose::{Hold, Purpose, hold_for, purpose_line};
pub use starts::StartRefusal;
pub use state_files::{StateFiles, StateLog};
pub use state_header::{Subject, header_text};
pub use state_keeping::StateKeeping;
pub use state_reading::settled_in;
pub use state_writing::settled_line;
pub use stopwatch::Stopwatch;
pub use system::System;
pub use watch::{ProgressReport, Watch};
