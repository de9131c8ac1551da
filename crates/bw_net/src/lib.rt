//! What the program asks of the system: links over TCP, a folder and its lock, files, the clock and
//! words.
//! Not stated: what comes over a socket, when a wait ends, and what a terminal shows.
#![tactic(auto)]

mod counting;
mod edits;
mod faults;
mod folder;
mod followed;
mod followed_wave;
mod growing;
mod host;
mod hosts;
mod input;
mod kinds;
mod left_out;
mod line_sink;
mod lines;
mod link_stream;
mod lock;
mod locks;
mod marks;
mod meaning;
mod noted_files;
mod noted_stream;
mod pause;
mod reactor;
mod receipts;
mod recordings;
mod room;
mod socket;
mod spool;
mod spool_file;
mod spool_stream;
mod spools;
mod stamping;
mod states;
mod status;
mod stopwatch;
mod tcp;

pub use folder::{check_folder, has_folder};
pub use followed::FollowedFile;
pub use followed_wave::FollowedWave;
pub use growing::GrowingInput;
pub use host::Host;
pub use input::InputLink;
pub use line_sink::LineSink;
pub use lines::LineCell;
pub use link_stream::LinkStream;
pub use lock::FolderLock;
pub use marks::HostMarker;
pub use noted_files::{NotedFile, NotedFiles};
pub use noted_stream::NotedStream;
pub use pause::{ClockPause, SpoolPause};
pub use reactor::TcpReactor;
pub use receipts::{HostReceipts, ReceiptFile};
pub use recordings::{HostRecordings, StampedFile};
pub use socket::Socket;
pub use spool::SpoolCell;
pub use spool_file::SpoolFile;
pub use spool_stream::SpoolStream;
pub use spools::HostSpools;
pub use states::{HostStates, StateFile};
pub use status::TcpStatusPort;
pub use stopwatch::ClockStopwatch;
pub use tcp::{TcpDial, TcpPeers};
