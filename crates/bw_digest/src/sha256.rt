//! The digests of eight messages.
ghost use Rattle.std.specs.Prelude.{◌≡◌, ℕ, ◌+◌, ◌*◌, ◌<◌, ◌≤◌, List, [], map, slice_index};
ghost use Rattle.std.specs.Prelude.{slice_index_or, length, ◌≢◌};
ghost use Rattle.sha2.specs.Sha256.{compress, digest_bytes, final_hash, hash_after, initial_hash_256};
ghost use Rattle.sha2.specs.Sha256.{padded_message, sha256};
ghost use Rattle.bw_digest.specs.Lanes.{lane, InEachLane};
ghost use Rattle.bw_digest.specs.Messages.{block_of, blocks_in, lent_at, IsTail};

use crate::block::{Blocks, LANES, compress};
use crate::constants::INITIAL;
use crate::message::{Tail, block_at, blocks, tail_of};
use std::simd::u32x8;

/// The SHA-256 digests (FIPS 180-4) of eight messages of any lengths.
///
/// The time that it takes depends on the longest of them alone, so they should have similar
/// lengths; if there are fewer messages, the others may be empty.
pub fn digests(messages: &[&[u8]; LANES]) -> [[u8; 32]; LANES]
    ensures { InEachLane (λ j. slice_index_or result j [] ≡ sha256 (lent_at messages.now j)) }
{
    let hashes = hashes_of(messages);
    [
        bytes_of(&hashes[0]),
        bytes_of(&hashes[1]),
        bytes_of(&hashes[2]),
        bytes_of(&hashes[3]),
        bytes_of(&hashes[4]),
        bytes_of(&hashes[5]),
        bytes_of(&hashes[6]),
        bytes_of(&hashes[7]),
    ]
}

/// The hash value of each message.
fn hashes_of(messages: &[&[u8]; LANES]) -> [[u32; 8]; LANES]
    ensures { InEachLane (λ j. slice_index_or result j []
        ≡ final_hash initial_hash_256 (lent_at messages.now j)) }
{
    let tails = tails_of(messages);
    let most = most_blocks(messages);
    let mut state = initial();
    let mut hashes = [[0; 8]; LANES];
    'rounds: for place in 0..most {
        let blocks = blocks_at(messages, &tails, place);
        compress(&mut state, &blocks);
        keep_ended(&mut hashes, &state, messages, place + 1);
    }
    hashes
}

/// What follows the last whole block of each message.
fn tails_of(messages: &[&[u8]; LANES]) -> [Tail; LANES]
    ensures { InEachLane (λ j. IsTail (lent_at messages.now j) (slice_index_or result j [])) }
{
    [
        tail_of(message_at(messages, 0)),
        tail_of(message_at(messages, 1)),
        tail_of(message_at(messages, 2)),
        tail_of(message_at(messages, 3)),
        tail_of(message_at(messages, 4)),
        tail_of(message_at(messages, 5)),
        tail_of(message_at(messages, 6)),
        tail_of(message_at(messages, 7)),
    ]
}

/// A block of each message.
#[inline(always)]
fn blocks_at(messages: &[&[u8]; LANES], tails: &[Tail; LANES], place: usize) -> Blocks
    requires { InEachLane (λ j. IsTail (lent_at messages.now j) (slice_index_or tails.now j [])) }
    ensures { InEachLane (λ j. place < blocks_in (lent_at messages.now j) →
        slice_index_or result j [] ≡ block_of (lent_at messages.now j) place) }
{
    [
        block_at(message_at(messages, 0), &tails[0], place),
        block_at(message_at(messages, 1), &tails[1], place),
        block_at(message_at(messages, 2), &tails[2], place),
        block_at(message_at(messages, 3), &tails[3], place),
        block_at(message_at(messages, 4), &tails[4], place),
        block_at(message_at(messages, 5), &tails[5], place),
        block_at(message_at(messages, 6), &tails[6], place),
        block_at(message_at(messages, 7), &tails[7], place),
    ]
}

/// How many blocks the longest message has.
fn most_blocks(messages: &[&[u8]; LANES]) -> usize
    ensures { InEachLane (λ j. blocks_in (lent_at messages.now j) ≤ result) }
{
    let mut most = 0;
    for place in 0..LANES {
        most = larger(blocks(message_at(messages, place)), most);
    }
    most
}

/// Keeps the hash value of each message that has exactly `done` blocks.
fn keep_ended(
    hashes: &mut [[u32; 8]; LANES],
    state: &[u32x8; 8],
    messages: &[&[u8]; LANES],
    done: usize,
)
    ensures ended { InEachLane (λ j. blocks_in (lent_at messages.now j) ≡ done →
        slice_index_or hashes.new j [] ≡ lane j state.now) }
    ensures others { InEachLane (λ j. blocks_in (lent_at messages.now j) ≢ done →
        slice_index_or hashes.new j [] ≡ slice_index_or hashes.old j []) }
{
    for place in 0..LANES {
        let count = blocks(message_at(messages, place));
        let hash = hash_at_end(count, done, hashes[place], state, place);
        hashes[place] = hash;
    }
}

/// The message at a place.
fn message_at<'a>(messages: &[&'a [u8]; LANES], place: usize) -> &'a [u8]
    requires { place < 8 }
    ensures { result.now ≡ lent_at messages.now place }
{
    messages[place]
}

/// The larger of two counts.
fn larger(x: usize, y: usize) -> usize
    ensures first { x ≤ result }
    ensures second { y ≤ result }
{
    if x < y { y } else { x }
}

/// The hash value of a message if all its blocks are done, and else the one that was kept.
fn hash_at_end(
    count: usize,
    done: usize,
    kept: [u32; 8],
    state: &[u32x8; 8],
    place: usize,
) -> [u32; 8]
    requires { place < 8 }
    ensures ended { count ≡ done → result ≡ lane place state.now }
    ensures others { count ≢ done → result ≡ kept }
{
    if count == done {
        hash_in(state, place)
    } else {
        kept
    }
}

/// The hash value of the message at a place.
fn hash_in(state: &[u32x8; 8], place: usize) -> [u32; 8]
    requires { place < 8 }
    ensures { result ≡ lane place state.now }
{
    [
        word_in(state[0], place),
        word_in(state[1], place),
        word_in(state[2], place),
        word_in(state[3], place),
        word_in(state[4], place),
        word_in(state[5], place),
        word_in(state[6], place),
        word_in(state[7], place),
    ]
}

/// The word of the message at a place.
fn word_in(words: u32x8, place: usize) -> u32
    requires { place < 8 }
    ensures { result ≡ slice_index words place }
{
    words.to_array()[place]
}

/// The hash value that each message begins with.
fn initial() -> [u32x8; 8]
    ensures { InEachLane (λ j. lane j result ≡ initial_hash_256) }
{
    [
        u32x8::splat(INITIAL[0]),
        u32x8::splat(INITIAL[1]),
        u32x8::splat(INITIAL[2]),
        u32x8::splat(INITIAL[3]),
        u32x8::splat(INITIAL[4]),
        u32x8::splat(INITIAL[5]),
        u32x8::splat(INITIAL[6]),
        u32x8::splat(INITIAL[7]),
    ]
}

/// The bytes of a hash value, the high byte of each word first.
fn bytes_of(hash: &[u32; 8]) -> [u8; 32]
    ensures { result ≡ digest_bytes hash.now 8 }
{
    let mut bytes = [0; 32];
    for word in 0..8 {
        bytes[4 * word..4 * word + 4].copy_from_slice(&hash[word].to_be_bytes());
    }
    bytes
}
