//! A link to a recorder, no call of which ever waits.
ghost use Rattle.std.specs.Prelude.{◌≡◌, ◌++◌, List, ℕ, length};
ghost use Rattle.std.specs.declared.net.socket_addr.SocketAddr.{SocketAddr};
ghost use Rattle.bw_ports.specs.Links.{received, sent, IsReceived, IsSent};

/// The result of a call for bytes.
#[derive(Clone, Copy, Debug, PartialEq, Eq)]
pub enum Received {
    /// This many bytes came, at least one.
    Bytes(usize),
    /// No more will come.
    Ended,
    /// None are there now.
    Nothing,
    /// The link is broken.
    Failed,
}

/// The result of a call that offers bytes.
#[derive(Clone, Copy, Debug, PartialEq, Eq)]
pub enum Sent {
    /// This many bytes, the first ones, were taken, at least one.
    Bytes(usize),
    /// There is room for none now.
    Nothing,
    /// The link is broken.
    Failed,
}

/// Gives bytes and takes bytes, and never waits.
///
/// What it has given and taken so far is stated by relations, so that a link in memory can say all
/// of it, and a socket nothing.
pub trait Link {
    /// These bytes may be all that it has given so far.
    ghost given: { Self → List ℕ → Type 0 };

    /// These bytes may be all that it has taken so far.
    ghost taken: { Self → List ℕ → Type 0 };

    /// It may have no more to give.
    ghost ended: { Self → Type 0 };

    /// It may have failed.
    ghost broken: { Self → Type 0 };

    /// There may be no bytes to give now.
    ghost dry: { Self → Type 0 };

    /// There may be no room now.
    ghost full: { Self → Type 0 };

    /// The peer may have been informed that no more bytes will be sent.
    ghost finished: { Self → Type 0 };

    /// It may be a link to the peer at this address.
    ghost calls_from: { Self → SocketAddr → Type 0 };

    /// Puts the next bytes at the start of the buffer.
    ///
    /// # Not specified
    /// Which result is returned when.
    fn receive(&mut self, buffer: &mut [u8]) -> Received
        ensures within { IsReceived result (length buffer.old) }
        ensures given { (xs : List ℕ) → given self.old xs →
            given self.new (xs ++ received result buffer.new) }
        ensures taken { (ys : List ℕ) → taken self.old ys → taken self.new ys }
        ensures end { result ≡ Received.Ended → ended self.new }
        ensures fault { result ≡ Received.Failed → broken self.new }
        ensures nothing { result ≡ Received.Nothing → dry self.new }
        ensures ended { ended self.old → ended self.new }
        ensures full { full self.old → full self.new }
        ensures finished { finished self.old → finished self.new }
        ensures peer { (p : SocketAddr) → calls_from self.old p → calls_from self.new p };

    /// Takes some of these bytes, from their start; there is at least one.
    ///
    /// # Not specified
    /// Which result is returned when.
    fn send(&mut self, bytes: &[u8]) -> Sent
        ensures within { IsSent result (length bytes.now) }
        ensures given { (xs : List ℕ) → given self.old xs → given self.new xs }
        ensures taken { (ys : List ℕ) → taken self.old ys →
            taken self.new (ys ++ sent result bytes.now) }
        ensures fault { result ≡ Sent.Failed → broken self.new }
        ensures nothing { result ≡ Sent.Nothing → full self.new }
        ensures ended { ended self.old → ended self.new }
        ensures dry { dry self.old → dry self.new }
        ensures finished { finished self.old → finished self.new }
        ensures peer { (p : SocketAddr) → calls_from self.old p → calls_from self.new p };

    /// Says to the peer that no more bytes will be sent.
    ///
    /// # Not specified
    /// That the peer learns of it.
    fn shut(&mut self)
        ensures given { (xs : List ℕ) → given self.old xs → given self.new xs }
        ensures taken { (ys : List ℕ) → taken self.old ys → taken self.new ys }
        ensures ended { ended self.old → ended self.new }
        ensures dry { dry self.old → dry self.new }
        ensures full { full self.old → full self.new }
        ensures finished { finished self.new }
        ensures peer { (p : SocketAddr) → calls_from self.old p → calls_from self.new p };
}
