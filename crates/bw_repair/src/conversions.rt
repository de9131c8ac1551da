//! The command `convert`: a file's bytes under the id of the other form with a `ds64` chunk.
//! Not stated: that the file stays as it is between the two openings; that the name of what was made
//! survives a loss of power.

mod checking;
mod command;
mod conversion;
mod copying;
mod fault;
mod form;
mod making;
mod text;

pub use command::convert_file;
pub(crate) use command::exit_on;
pub use conversion::convert;
pub(crate) use fault::{fault_at, refused_at};
pub use fault::{ConvertError, ConvertFault, ConvertKind};
pub use form::WideForm;
pub(crate) use making::make_file;
