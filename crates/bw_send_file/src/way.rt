//! What a recording is sent over.
use bw_upload::SendingSides;
use std::alloc::Global;

/// What a recording is sent over.
#[derive(Drop)]
pub struct Way<'a, X: SendingSides> {
    /// Waits between links.
    pub pause: &'a mut X::Pause,
    /// Makes links.
    pub dial: &'a mut X::Dial,
    /// Memory.
    pub alloc: Global,
}
