//! Reports of files, one after another: plain, for people, or as lines of JSON (RFC 8259). And the
//! receipts of recordings that are stored.
//! Not stated: which bytes the process's own files have; the reason in the line of one that isn't
//! opened.
#![tactic(auto)]

mod bext;
mod contents;
mod digest;
mod entry;
mod exits;
mod files;
mod found;
mod human;
mod input;
mod json;
mod parts;
mod receipt;
mod shown;
mod stored;
mod time;
mod units;
mod value;

pub use entry::{Style, Wanted, entry_of};
pub use exits::worse;
pub use files::inspect_files;
pub use found::Found;
pub use input::inspect_input;
pub use json::json_line;
pub use receipt::{ReceiptJob, begin_receipts, put_receipt};
pub use stored::has_receipt;
pub use time::milliseconds;
pub use units::{put_number, put_time};
