//! A message and its padding, in blocks (FIPS 180-4, 5.1.1).
ghost use Rattle.std.specs.Prelude.{◌≡◌, ◌+◌, ◌-◌, ◌*◌, ◌/◌, ◌%◌, ◌^◌, ◌<◌, ◌≤◌, length, take, drop};
ghost use Rattle.std.specs.Prelude.{replicate, ◌∷◌};
ghost use Rattle.sha2.specs.Sha256.{padded_message};
ghost use Rattle.bw_digest.specs.Messages.{block_of, blocks_in, IsTail};

use crate::block::BLOCK;

/// The first bytes of a padding: a bit 1, then zeros.
const PADDING: [u8; BLOCK] = [
    0x80, 0, 0, 0, 0, 0, 0, 0, 0, 0, 0, 0, 0, 0, 0, 0, 0, 0, 0, 0, 0, 0, 0, 0, 0, 0, 0, 0, 0, 0, 0,
    0, 0, 0, 0, 0, 0, 0, 0, 0, 0, 0, 0, 0, 0, 0, 0, 0, 0, 0, 0, 0, 0, 0, 0, 0, 0, 0, 0, 0, 0, 0, 0,
    0,
];

/// How many bytes the end of a message and its padding take, at most.
const LONGEST_TAIL: usize = 2 * BLOCK;

/// What follows the last whole block of a message with its padding, and then zeros.
pub(crate) type Tail = [u8; LONGEST_TAIL];

/// How many blocks a message has with its padding.
pub(crate) fn blocks(body: &[u8]) -> usize
    ensures { result ≡ blocks_in body.now }
{
    body.len() / BLOCK + 1 + usize::from(body.len() % BLOCK > 55)
}

/// The block of a message at a place. After the last it has no meaning.
#[inline(always)]
pub(crate) fn block_at(body: &[u8], tail: &Tail, place: usize) -> [u8; BLOCK]
    requires { IsTail body.now tail.now }
    ensures { place < blocks_in body.now → result ≡ block_of body.now place }
{
    let whole = body.len() / BLOCK;
    let mut block = [0; BLOCK];
    if place < whole {
        block.copy_from_slice(&body[place * BLOCK..place * BLOCK + BLOCK]);
    } else if place - whole < 2 {
        let at = (place - whole) * BLOCK;
        block.copy_from_slice(&tail[at..at + BLOCK]);
    }
    block
}

/// What follows the last whole block of a message.
pub(crate) fn tail_of(body: &[u8]) -> Tail
    ensures { IsTail body.now result }
{
    let used = body.len() % BLOCK;
    let padding = padding(used);
    let end = used + padding.len();
    let bits = (body.len() as u64).wrapping_mul(8);
    let mut tail = [0; LONGEST_TAIL];
    tail[..used].copy_from_slice(&body[body.len() - used..]);
    tail[used..end].copy_from_slice(padding);
    tail[end..end + 8].copy_from_slice(&bits.to_be_bytes());
    tail
}

/// What is between a message that ends so many bytes into a block and its length: a bit 1, then
/// zeros.
fn padding(used: usize) -> &'static [u8]
    requires { used < 64 }
    ensures { result.now ≡ 0x80 ∷ replicate ((119 - used) % 64) 0 }
{
    &PADDING[..(119 - used) % BLOCK + 1]
}
