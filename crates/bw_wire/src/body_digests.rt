//! Digests of bodies in a block of bytes, made in the lanes of vectors.
ghost use Rattle.std.specs.Prelude.{◌≡◌, ◌≤◌, ◌<◌, ◌+◌, ◌-◌, ◌^◌, ℕ, List, length, take, drop, min};
ghost use Rattle.std.specs.Prelude.{IfSome, is_some, nat_lt};
ghost use Rattle.std.specs.List.{list_any, sum};
ghost use Rattle.sha2.specs.Sha256.{sha256};
ghost use Rattle.bw_digest.specs.Lanes.{InEachLane};
ghost use Rattle.bw_digest.specs.Messages.{lent_at};
ghost use Rattle.bw_wire.specs.BodyDigests.{bytes_at, span_at, IsSpanIn, AreDigestsIn, KeepsDigests};
ghost use Rattle.bw_wire.specs.BodyDigests.{held_bytes, first_body, AreDigestsOf, lengths_of, fills_lanes};

use crate::frame_prefix::LONGEST_BODY;
use crate::framing::{Framing, framing_of};
use bw_digest::{LANES, digests};

/// Hashing in lanes is taken to need as long as hashing so many of the longest body one after another:
/// it needs as long as two in a program built for AVX2, and as five in one that isn't.
const LANES_TAKE: usize = 3;

/// A body among the bytes that a framer holds, by its place among those that aren't used up.
#[derive(Clone, Copy, Debug, PartialEq, Eq)]
pub struct HeldBody {
    /// How many bytes are before it.
    pub at: usize,
    /// How many bytes it has.
    pub len: usize,
}

impl HeldBody {
    /// The place after it, at most 2^64 - 1.
    pub fn end(self) -> usize
        ensures { result ≡ min (self.at + self.len) (2 ^ 64 - 1) }
    {
        self.at.saturating_add(self.len)
    }

    /// Its bytes.
    pub(crate) fn bytes_of(self, bytes: &[u8]) -> &[u8]
        ensures { result.now ≡ held_bytes bytes.now self }
    {
        let rest = &bytes[self.at.min(bytes.len())..];
        &rest[..self.len.min(rest.len())]
    }
}

/// The body of the frame at a place, if it is whole.
pub(crate) fn held_body(bytes: &[u8], from: usize) -> Option<HeldBody>
    ensures { result ≡ first_body bytes.now from }
{
    let rest = bytes.get(from..)?;
    let Framing::Body(len) = framing_of(rest, LONGEST_BODY) else {
        return None;
    };
    Some(HeldBody {
        at: from.saturating_add(4),
        len,
    })
}

/// The digests of up to eight bodies, if it is faster to compute them at once than one after
/// another. If there are fewer bodies, the others are empty.
pub fn digests_at_once(bodies: &[&[u8]; LANES]) -> Option<[[u8; 32]; LANES]>
    ensures digests { IfSome result (λ digests. AreDigestsOf bodies.now digests) }
    // Eight lanes are taken to need as long as three of the longest body.
    ensures faster { sum (lengths_of bodies.now) < 2 ^ 64 →
        is_some result ≡ fills_lanes (lengths_of bodies.now) }
{
    if fills_lanes(bodies) {
        return Some(digests(bodies));
    }
    None
}

/// The place of a body in a block of bytes; one of length 0 is none.
#[derive(Clone, Copy, Debug)]
pub(crate) struct Span {
    pub(crate) at: usize,
    pub(crate) len: usize,
}

/// Bodies in a block, and the digest of each.
#[derive(Clone, Copy, Debug)]
pub(crate) struct BodyDigests {
    pub(crate) spans: [Span; LANES],
    pub(crate) digests: [[u8; 32]; LANES],
}

impl BodyDigests {
    /// The digests of the bodies of the first frames from a place on, if it is faster to make them
    /// at once.
    pub(crate) fn of(block: &[u8], start: usize) -> Option<BodyDigests>
        requires { start ≤ length block.now }
        ensures { IfSome result (λ d. AreDigestsIn block.now d) }
    {
        let spans = spans_of(block, start);
        let digests = digests_at_once(&bodies_at(block, &spans))?;
        Some(BodyDigests { spans, digests })
    }

    /// With the digest of one more body, where a lane is free.
    fn with(&self, span: Span, digest: [u8; 32]) -> BodyDigests
        ensures { (block : List ℕ) → AreDigestsIn block self.now → digest ≡ sha256 (bytes_at block span) →
            AreDigestsIn block result }
    {
        let mut all = *self;
        if let Some(lane) = self.free_lane() {
            all.spans[lane] = span;
            all.digests[lane] = digest;
        }
        all
    }

    /// The first lane that holds nothing of its own, if there is one. New digests have their body in
    /// every lane, and later bodies lie after it: so a lane with its place, or one before it, is free.
    fn free_lane(&self) -> Option<usize>
        ensures { IfSome result (λ lane. lane < 8) }
    {
        for lane in 1..LANES {
            if self.spans[lane].at <= self.spans[0].at {
                return Some(lane);
            }
        }
        None
    }

    /// Whether one of these bodies begins after a place.
    pub(crate) fn reaches(&self, place: usize) -> bool
        ensures { result ≡ list_any (λ s. nat_lt place s.at) self.now.spans }
    {
        self.spans.iter().any(|span| place < span.at)
    }

    /// The digest of the body at a place, if it is among these.
    pub(crate) fn find(&self, at: usize, len: usize) -> Option<[u8; 32]>
        ensures { (block : List ℕ) → AreDigestsIn block self.now →
            IfSome result (λ d. d ≡ sha256 (take len (drop at block))) }
    {
        for lane in 0..LANES {
            if self.spans[lane].at == at && self.spans[lane].len == len {
                return Some(self.digests[lane]);
            }
        }
        None
    }
}

/// These digests and that of one more body; of that alone if all of them are used up, since none is
/// of a body after `start`.
pub(crate) fn with_digest(
    digests: &Option<BodyDigests>,
    start: usize,
    at: usize,
    len: usize,
    digest: [u8; 32],
) -> BodyDigests
    ensures { (block : List ℕ) → KeepsDigests block digests.now →
        digest ≡ sha256 (take len (drop at block)) → AreDigestsIn block result }
{
    let span = Span { at, len };
    if let Some(known) = digests
        && known.reaches(start)
    {
        return known.with(span, digest);
    }
    BodyDigests {
        spans: [span; LANES],
        digests: [digest; LANES],
    }
}

/// The digest of the body at a place, if it is known.
pub(crate) fn kept_digest(digests: &Option<BodyDigests>, at: usize, len: usize) -> Option<[u8; 32]>
    ensures { (block : List ℕ) → KeepsDigests block digests.now →
        IfSome result (λ d. d ≡ sha256 (take len (drop at block))) }
{
    match digests {
        Some(known) => known.find(at, len),
        None => None,
    }
}

/// The places of the bodies of the first frames, from a place on.
fn spans_of(block: &[u8], start: usize) -> [Span; LANES]
    requires { start ≤ length block.now }
    ensures { InEachLane (λ j. IsSpanIn block.now (span_at result j)) }
{
    let mut spans = [Span { at: 0, len: 0 }; LANES];
    let mut place = start;
    for lane in 0..LANES {
        let Framing::Body(len) = framing_of(&block[place..], LONGEST_BODY) else {
            return spans;
        };
        spans[lane] = Span { at: place + 4, len };
        place += 4 + len;
    }
    spans
}

/// Whether these bodies are hashed faster at once than one after another.
fn fills_lanes(bodies: &[&[u8]; LANES]) -> bool
    ensures { sum (lengths_of bodies.now) < 2 ^ 64 → result ≡ fills_lanes (lengths_of bodies.now) }
{
    let mut total = 0usize;
    let mut longest = 0usize;
    for body in bodies {
        total = total.saturating_add(body.len());
        longest = longest.max(body.len());
    }
    total > longest.saturating_mul(LANES_TAKE)
}

/// The bodies at these places.
fn bodies_at<'a>(block: &'a [u8], spans: &[Span; LANES]) -> [&'a [u8]; LANES]
    requires { InEachLane (λ j. IsSpanIn block.now (span_at spans.now j)) }
    ensures { InEachLane (λ j. lent_at result j ≡ bytes_at block.now (span_at spans.now j)) }
{
    [
        body_at(block, spans[0]),
        body_at(block, spans[1]),
        body_at(block, spans[2]),
        body_at(block, spans[3]),
        body_at(block, spans[4]),
        body_at(block, spans[5]),
        body_at(block, spans[6]),
        body_at(block, spans[7]),
    ]
}

/// The body at a place.
fn body_at(block: &[u8], span: Span) -> &[u8]
    requires { IsSpanIn block.now span }
    ensures { result.now ≡ bytes_at block.now span }
{
    &block[span.at..span.at + span.len]
}
