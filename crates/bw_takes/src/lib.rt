//! The takes of a folder: a line for each, by its journal and its file; a screen that shows them each
//! second; a file of receipts that they are compared with; and one that is given up.
//! Not stated: what is reported while others write; that the lock is held until the end.
#![tactic(auto)]

mod beginning;
mod comparing;
mod finding;
mod hashing;
mod json;
mod judging;
mod line;
mod listing;
mod locked;
mod naming;
mod printing;
mod progress;
mod receipts;
mod row;
mod screen;
mod unread;
mod verifying;
mod watching;

pub use comparing::{Depth, examine_take};
pub use finding::TakeFinding;
pub use hashing::SampleDigest;
pub use json::take_json;
pub use listing::{LineStyle, ReportForm, TakesReport, report_takes};
pub use locked::give_up_locked;
pub use naming::{take_of, takes_in};
pub use printing::show_takes;
pub use progress::{ProgressReader, ProgressState, TakeProgress};
pub use receipts::show_verified;
pub use screen::{Row, ScreenStyle};
pub use unread::TakeEntry;
pub use verifying::verify_takes;
pub use watching::{watch_by_reader, watch_takes};
