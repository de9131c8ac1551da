//! A waveform as a picture (SVG 1.1): the least and the greatest sample of each column of each
//! channel, the time axis and the markers; and the command `picture`, which draws a file's recording.
//! Not stated: whether samples are PCM, which the caller has to know; how large the text grows; that
//! a failed read was one (its reader is dropped), and its place in the line.
#![tactic(auto)]

mod channels;
mod command;
mod drawing;
mod fault;
mod fitting;
mod level;
mod opening;
mod page;
mod peak;
mod reading;
mod stroke;
mod time_text;

pub use channels::widen_all;
pub use command::draw_file;
pub use drawing::{Shape, draw};
pub use fitting::fit;
pub use level::{SampleWidth, level_at};
pub use page::picture;
pub use peak::Peak;
pub use reading::read_frames;
pub use stroke::{column_stroke, push_strokes};
