//! This machine's network and folders, over which `serve` and `send` run, and its terminal.
//! Not stated: that the system's disk holds what the folder holds (a premise); what locks a folder.
#![tactic(auto)]

mod folder_server;
mod journals;
mod locked;
mod network;
mod reporting;
mod starting;
mod status;
mod take_events;
mod terminal;

pub use folder_server::FolderServer;
pub use network::TcpNetwork;
pub use reporting::{LeavesOut, ReportingServer};
pub use starting::{MachineDisk, open_kept};
pub use terminal::Terminal;
