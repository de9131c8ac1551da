//! What a file of chunks holds: RIFF WAVE, BW64 (ITU-R BS.2088) and RF64 (EBU Tech 3306), read once
//! and forward; and what to do about one that isn't read.
#![tactic(auto)]

mod chunk;
mod content;
mod cues;
mod ds64;
mod fault;
mod hints;
pub mod laws;
mod line;
mod other;
mod outer;
mod places;
mod reading;
mod report;
mod reported_sizes;
mod row_list;
mod text;
mod walk;
mod write;

pub use fault::{InspectFault, InspectKind};
pub use hints::{hint_of, hint_of_form, hint_of_format, hint_of_start};
pub use other::OtherFormat;
pub use places::{read_at, skip_at};
pub use reading::{inspect, inspect_recognizing};
pub use report::{BextChunk, Chunks, Cues, ListedChunk, Report};
pub use write::{WriteFailed, write_report};
