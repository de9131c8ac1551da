//! Recovery by name: what the journal and the file of a name say after a stop, and mending them.
//! Not stated: that samples are those of the requests (none is read); that the system's disk is
//! honest.
#![tactic(auto)]

mod adoption;
mod causes;
mod fault;
mod finding;
pub mod laws;
mod listing;
mod mending;
mod paths;
mod reading;
mod resuming;

pub use adoption::{
    Adoption, FileFacts, Mending, data_end, data_place, file_len, header_of, judge_file,
};
pub use causes::{cause_of, file_cause, journal_cause};
pub use fault::FileFault;
pub use finding::{Begun, Finding, NameFault, header_if, is_take, look};
pub use listing::{journal_name, list_names};
pub use mending::mend;
pub use paths::path_in;
pub use reading::{FileRead, read_take};
pub use resuming::{adopt_file, cut_journal, restore_name};
