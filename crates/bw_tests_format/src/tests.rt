//! The tests, how they compare, and what they play.

mod compare;
mod entries;
mod expecting;
mod journals;
mod layouts;
mod messages;
mod play;
mod readers;
mod replies;
mod takes;
