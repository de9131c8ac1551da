//! What can be done with the files of a take: their samples are compared with its journal or hashed,
//! or they are put aside. And receipts, which say what its sender read of it.
//! Not stated: that other samples of the same length don't have the same digest (a premise).
#![tactic(auto)]

mod block_digests;
mod bodies;
mod giving_up;
mod receipts;
mod sample_digest;
mod samples;
mod stored_block;

pub use giving_up::{GiveUpFault, give_up_take};
pub use receipts::{Receipt, ReceiptFault, read_receipts, receipt_json, receipt_line};
pub use sample_digest::digest_samples;
pub use samples::find_changed;
