//! Digests of what connections hold, computed at once over all of them.
ghost use Rattle.std.specs.Prelude.{◌≡◌, ◌<◌};
ghost use Rattle.bw_wire.specs.BodyDigests.{IsDigestOf, AreDigestsOf};
ghost use Rattle.bw_connections.specs.HeldBodies.{AreBodiesOf, body_held, body_there};

use crate::connection::Connection;
use crate::connections::Connections;
use bw_ports::Link;
use bw_wire::{HeldBody, LANES, digests_at_once};

/// A body that the connection at a place holds; one of length 0 is none.
#[derive(Clone, Copy)]
pub(crate) struct PlacedBody {
    pub(crate) place: usize,
    pub(crate) body: HeldBody,
}

/// No body.
const NO_BODY: PlacedBody = PlacedBody {
    place: 0,
    body: HeldBody { at: 0, len: 0 },
};

/// Bodies that are hashed at once, and how many there are.
#[derive(Clone, Copy)]
struct Batch {
    bodies: [PlacedBody; LANES],
    count: usize,
}

impl Batch {
    /// No bodies.
    fn new() -> Batch {
        Batch {
            bodies: [NO_BODY; LANES],
            count: 0,
        }
    }

    /// Adds a body, unless there are eight. Returns whether there are eight now.
    fn put(&mut self, body: PlacedBody) -> bool {
        if self.count < LANES {
            self.bodies[self.count] = body;
            self.count += 1;
        }
        self.count == LANES
    }
}

impl<L: Link + Drop> Connections<L> {
    /// Computes the digests of bodies of whole frames that the connections hold and that aren't
    /// known, of up to eight at once, where that is faster than one after another. Their messages
    /// are given with them.
    ///
    /// # Not specified
    /// Which digests are computed: a message's `digest` doesn't depend on it.
    pub fn hash_ahead(&mut self)
        ensures { self.new ≡ self.old }
    {
        let mut batch = Batch::new();
        for place in 0..self.places.len() {
            self.hash_at(place, &mut batch);
        }
        self.hash_batch(&batch);
    }

    /// Adds the first bodies that the connection at a place holds to a batch, which is hashed each
    /// time that it is full.
    fn hash_at(&mut self, place: usize, batch: &mut Batch)
        ensures { self.new ≡ self.old }
    {
        let mut from = 0;
        for _frame in 0..LANES {
            let Some(body) = self.body_from(place, from) else {
                return;
            };
            from = body.end();
            if self.knows_digest(place, body) {
                continue;
            }
            if batch.put(PlacedBody { place, body }) {
                self.hash_batch(batch);
                *batch = Batch::new();
            }
        }
    }

    /// The body of the whole frame that the connection at a place holds after so many bytes.
    fn body_from(&self, place: usize, from: usize) -> Option<HeldBody> {
        let Some(Some(connection)) = self.places.get(place) else {
            return None;
        };
        connection.exchange.framer().held_body(from)
    }

    /// Whether the digest of a body that the connection at a place holds is known.
    fn knows_digest(&self, place: usize, body: HeldBody) -> bool {
        let Some(Some(connection)) = self.places.get(place) else {
            return false;
        };
        connection.exchange.framer().known_digest(body).is_some()
    }

    /// Hashes a batch, if that is faster than its bodies one after another.
    fn hash_batch(&mut self, batch: &Batch)
        ensures { self.new ≡ self.old }
    {
        let Some(digests) = digests_at_once(&self.bodies_of(&batch.bodies)) else {
            return;
        };
        for lane in 0..LANES {
            self.keep_digest(batch.bodies[lane], digests[lane]);
        }
    }

    /// The bytes of these bodies.
    fn bodies_of(&self, bodies: &[PlacedBody; LANES]) -> [&[u8]; LANES]
        ensures { AreBodiesOf self.now bodies.now result }
    {
        [
            self.body_of(bodies[0]),
            self.body_of(bodies[1]),
            self.body_of(bodies[2]),
            self.body_of(bodies[3]),
            self.body_of(bodies[4]),
            self.body_of(bodies[5]),
            self.body_of(bodies[6]),
            self.body_of(bodies[7]),
        ]
    }

    /// The bytes of a body; none if there is no connection at its place.
    fn body_of(&self, placed: PlacedBody) -> &[u8]
        ensures { result.now ≡ body_held self.now placed }
    {
        match self.places.get(placed.place) {
            Some(Some(connection)) => connection.exchange.framer().body_at(placed.body),
            _ => &[],
        }
    }

    /// Keeps the digest of a body for its message.
    fn keep_digest(&mut self, placed: PlacedBody, digest: [u8; 32])
        requires { IsDigestOf (body_held self.old placed) digest }
        ensures { self.new ≡ self.old }
    {
        if placed.place < self.places.len() {
            keep_in(&mut self.places[placed.place], placed.body, digest);
        }
    }
}

/// Keeps the digest of a body that the connection at a place holds, if one is there.
fn keep_in<L: Link>(slot: &mut Option<Connection<L>>, body: HeldBody, digest: [u8; 32])
    requires { IsDigestOf (body_there slot.old body) digest }
    ensures { slot.new ≡ slot.old }
{
    if let Some(connection) = slot {
        connection.exchange.keep_digest(body, digest);
    }
}
