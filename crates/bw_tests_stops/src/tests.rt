//! The tests, and the runs of servers that they are about.

mod left_out;
mod lives;
mod names;
mod script;
mod serving;
mod shared;
mod stops;
