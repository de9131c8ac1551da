//! Tests of what stops leave: journals and takes in a folder, over a disk in memory that dies in a
//! call; rehearsals in which a disk dies in each call of a server, again in each call of the next one;
//! kept servers with more names than a table has places for; and real servers of which the premises of
//! the promise to a sender hold.
#![tactic(auto)]

mod deaths;
mod finishing;
mod noting;
#[cfg(test)]
mod plays;
mod promised;
#[cfg(test)]
mod served;
#[cfg(test)]
mod stops;
#[cfg(test)]
mod tests;

pub use promised::{TestRunFault, serve_delivery, serve_delivery_in_folder};
