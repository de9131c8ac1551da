//! Journals: what is noted of each done number, so that a server can resume after a stop.
//! Not stated: premises are that a killed write leaves a prefix, and a stop no more than a failed
//! call.
#![tactic(auto)]

mod closing;
mod entry;
mod fault;
mod fuse;
mod header;
mod journal;
pub mod laws;
mod line;
mod memory;
mod reader;
mod seal;
mod story;
mod writer;

pub use closing::notes_close;
pub use entry::{ENTRY_MAX, EntryRef, entry_of};
pub use fault::ReplayFault;
pub use fuse::FuseJournal;
pub use header::{JournalHeader, header_limit};
pub use journal::{Journal, NoJournal};
pub use line::before_zero;
pub use memory::MemoryJournal;
pub use reader::{JOURNAL_MAX, replay};
pub use seal::first_content;
pub use story::Replayed;
pub use writer::put_entry;
