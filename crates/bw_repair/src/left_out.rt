//! The chunks of a recording that a take doesn't carry: kept in a file of their own, and joined to the
//! take again.
//! Not stated: that the files stay as they are between the two openings; that the name of what was made
//! survives a loss of power.

mod chunks;
mod comparing;
mod file;
mod join;
mod joining;
mod keeping;
mod making;
mod printing;
mod putting;
mod reading;
mod section;
mod section_reader;
mod sections;
mod take;
mod text;

pub use joining::join_files;
pub use keeping::keep_left_out;
