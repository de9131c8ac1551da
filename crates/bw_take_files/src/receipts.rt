//! Receipts: what a sender read of a take that is stored, a line of words or of JSON for each. They are
//! written, and read again.
mod cutting;
mod line;
mod object;
mod reading;
mod receipt;
mod words;
mod writing;

pub use reading::read_receipts;
pub use receipt::{Receipt, ReceiptFault};
pub use writing::{receipt_json, receipt_line};
