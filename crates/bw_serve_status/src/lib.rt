//! `serve --status`: a server of many recorders that operators may ask what it is doing.
//! Not stated: what is shown of takes after a turn over a store that isn't honest; when operators
//! connect.
#![tactic(auto)]

mod counts;
mod growth;
mod hosting;
mod name_tally;
mod observer;
mod snapshots;
mod takes;
mod tallied;
mod tallies;

pub use hosting::{Showing, serve_shown};
