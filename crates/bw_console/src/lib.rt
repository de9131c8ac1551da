//! What commands read, print and report, and how they end; and why links to a server fail, as the
//! system says it.
#![tactic(auto)]

mod bad_argv;
mod cause;
mod cell;
mod exit;
mod fault;
mod input;
mod opening;
pub mod print;

pub use bad_argv::report_bad_argv;
pub use cause::{LinkCause, cause_of};
pub use cell::CauseCell;
pub use exit::Exit;
pub use fault::Fault;
pub use input::{all_bytes, exchanges, first_line};
pub use opening::{report_failure, report_unopened};
