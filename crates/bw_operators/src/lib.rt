//! What operators see of a server: its log, whose lines begin with the time, and connections that ask
//! what it is doing, each of which gives a request, takes the response and is closed. No sockets, and
//! no server.
//! Not stated: what time it is; links whose bytes aren't known, such as sockets; that the peer learns
//! of the end.
#![tactic(auto)]

mod allow_file;
pub mod allow_laws;
mod allow_list;
mod connection;
mod log_choice;
mod log_events;
pub mod log_laws;
mod log_lines;
mod log_objects;
mod log_stamp;
mod network;
mod operators;
mod port;
mod rule;
mod rule_files;

pub use allow_file::AllowFault;
pub use allow_list::AllowList;
pub use log_choice::{EventLog, LogForm};
pub use log_events::comes_about;
pub use log_lines::{
    begun_line, peer_refused_line, started_line, take_closed_line, take_opened_line,
    take_refused_line,
};
pub use log_objects::log_object;
pub use log_stamp::time_text;
pub use operators::{OPERATORS, Operators};
pub use port::{StatusPort, StatusSetup};
pub use rule_files::RuleFiles;
