//! What an operator may ask a server over HTTP, and the response: a page, the takes as JSON, metrics
//! and whether it is well. Bytes to bytes, with no IO.
//! Not stated: which of 400 and 505 is sent for bytes that never become a request.
#![tactic(auto)]

mod answer;
mod body;
mod json;
mod json_take;
mod metric;
mod metrics;
mod page;
mod page_text;
mod request;
mod responding;
mod row;
mod snapshot;
mod text;

pub use answer::{Answer, Content, ResponsePart};
pub use request::{LONGEST_REQUEST, answer_to};
pub use responding::response;
pub use snapshot::{Count, Health, LeftOutName, ShownState, Snapshot, SoundFormat, TakeStatus};
