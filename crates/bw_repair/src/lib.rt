//! What is wrong with a WAVE file's header for some programs: the sizes that it lacks if its writer was
//! killed, what the file reads as with them, and the command `repair`, which prints them or writes them
//! into it; and its id, which the command `convert` changes in a copy.
//! Not stated: that the decision is the same after the first of the two writes; that the file stays
//! as it is between the two openings.
#![tactic(auto)]

mod checking;
mod command;
mod conversions;
mod decision;
mod fault;
pub mod laws;
mod left_out;
mod overlay;
mod plan;
mod search;
mod text;
mod writing;

pub use checking::check;
pub use command::repair_file;
pub use conversions::{ConvertError, ConvertFault, ConvertKind, WideForm, convert, convert_file};
pub use decision::{Sizes, decide};
pub use fault::{RepairFault, RepairKind};
pub use left_out::{join_files, keep_left_out};
pub use overlay::Overlay;
pub use plan::{PlanFault, SizePlan, Soundness, plan_repair};
pub use search::{DataHead, find_data};
pub use writing::write_sizes;
