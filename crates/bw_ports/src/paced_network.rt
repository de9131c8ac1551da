//! A network whose links can be slowed.
use crate::Network;
use std::net::SocketAddr;

/// A network that can limit how many bytes a second a sender sends over a link to a server.
pub trait PacedNetwork: Network {
    /// Makes links as `dial` does: what that says of them holds at any rate. Over each link at most
    /// `rate` bytes a second are sent to the server, if a rate is given.
    ///
    /// # Not specified
    /// - Anything beyond what each network says of itself.
    /// - How much time passes.
    fn dial_paced(&self, address: SocketAddr, timeout: Option<u32>, rate: Option<u32>) -> Self::Dial
        ensures received { Self.calls self.now address timeout result };
}
