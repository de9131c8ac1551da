//! The tests, and the links, the reactor and the network that they run over.

mod compare;
mod ends;
mod garbage;
mod growths;
mod hashed;
mod hosts;
mod logged;
mod memory_network;
mod places;
mod play;
mod recorder;
mod reported;
mod scripted;
mod scripted_reactor;
mod silent;
mod stores;
mod together;
