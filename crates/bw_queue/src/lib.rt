//! Which recordings a sender of several sends, under which names, and which of them it skips.
//! Not stated: which names a folder of the process has, and which bytes its files.
#![tactic(auto)]

mod fault;
mod kept_receipts;
mod listing;
mod naming;
mod namings;
mod opening;
mod path_name;
mod places;
mod planning;
mod recording;
mod request;

pub use fault::QueueFault;
pub use listing::path_within;
pub use opening::open_queue;
pub use path_name::name_of_path;
pub use planning::plan_queue;
pub use recording::QueuedRecording;
pub use request::{Queue, QueueRequest};
