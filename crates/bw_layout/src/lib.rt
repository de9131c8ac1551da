//! The chunks of a broadcast file (RIFF, BW64, `bext`): their layouts, their sizes, and the header
//! before the data.
#![tactic(auto)]

mod broadcast;
mod chunk;
mod cues;
mod field;
mod format;
mod heading;
pub mod laws;
mod limit;
mod place;
mod push;
mod raw;
mod sizes;

pub use broadcast::{Bext, put_bext};
pub use bw_model::{read_id, read_u16, read_u32, read_u64};
pub use chunk::{ChunkHead, ChunkId, Short, put_head, read_head};
pub use cues::{CuePoint, put_cue_chunk, put_cues};
pub use field::FieldError;
pub use format::{Fmt, put_fmt};
pub use heading::{Heading, form_size, header};
pub use limit::Limit;
pub use place::field_place;
pub use raw::{Loudness, RawBext, RawCue, RawFmt, read_bext, read_cue, read_fmt};
pub use sizes::{Ds64, Ds64Fixed, SizeTable, patch_sizes, put_ds64, read_ds64_fixed, read_entry};
