//! What chunks of a file say beside its report: the samples' format and the speakers by their names,
//! the coding history, and the texts of `LIST` and `iXML`. No judgement: what isn't understood is left
//! out, and XML that can't be read is no fault.
#![tactic(auto)]

mod content;
mod document;
mod format;
mod ixml;
mod laws;
mod list;
mod markup;
mod piece;
mod reading;
mod xml;

pub use content::{ChunkText, Contents, Kind};
pub use laws::law_ixml_examples;
pub use reading::read_contents;
