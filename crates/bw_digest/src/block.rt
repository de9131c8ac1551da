//! A block of each of eight messages, hashed at once (FIPS 180-4, 6.2.2).
ghost use Rattle.std.specs.Prelude.{◌≡◌, ℕ, ◌+◌, ◌*◌, ◌/◌, ◌^◌, ◌<◌, ◌≤◌, List, length, bit_and};
ghost use Rattle.std.specs.Prelude.{bit_xor, slice_index, slice_index_or, slice_set, []};
ghost use Rattle.std.specs.Int.{w32, rotate_right, bit_not};
ghost use Rattle.sha2.specs.Sha256.{add32, big_sigma0, big_sigma1, ch, compress, maj, round};
ghost use Rattle.sha2.specs.Sha256.{rounds, schedule, small_sigma0, small_sigma1, word_at, first_words};
ghost use Rattle.sha2.specs.Sha256.{add_state, window_word, IsWindow};
ghost use Rattle.bw_digest.specs.Lanes.{lane, words_from, InEachLane, AreRoundsIn};

use crate::constants::ROUND;
use std::simd::u32x8;

/// How many messages are hashed at once.
pub const LANES: usize = 8;

/// How many bytes a block has.
pub(crate) const BLOCK: usize = 64;

// Which lanes of two vectors a step of the transposition takes; those of the second count from 8.
// It stays within halves of four lanes until the last step, as a processor's steps do.
const LOW_WORDS: [usize; LANES] = [0, 8, 1, 9, 4, 12, 5, 13];

const HIGH_WORDS: [usize; LANES] = [2, 10, 3, 11, 6, 14, 7, 15];

const LOW_PAIRS: [usize; LANES] = [0, 1, 8, 9, 4, 5, 12, 13];

const HIGH_PAIRS: [usize; LANES] = [2, 3, 10, 11, 6, 7, 14, 15];

const LOW_HALF: [usize; LANES] = [0, 1, 2, 3, 8, 9, 10, 11];

const HIGH_HALF: [usize; LANES] = [4, 5, 6, 7, 12, 13, 14, 15];

/// A block of each message.
pub(crate) type Blocks = [[u8; BLOCK]; LANES];

/// Updates the hash value of each message by one block of it.
pub(crate) fn compress(state: &mut [u32x8; 8], blocks: &Blocks)
    ensures { InEachLane (λ j. lane j state.new
        ≡ compress (lane j state.old) (slice_index_or blocks.now j [])) }
{
    let mut window = first_window(blocks);
    let v = first_rounds(&window, *state);
    let v = sixteen_rounds(&mut window, v, 1);
    let v = sixteen_rounds(&mut window, v, 2);
    let v = sixteen_rounds(&mut window, v, 3);
    *state = added(*state, v);
}

/// The sums of two lists of eight words.
#[inline(always)]
fn added(h: [u32x8; 8], v: [u32x8; 8]) -> [u32x8; 8]
    ensures { InEachLane (λ j. lane j result ≡ add_state (lane j h) (lane j v)) }
{
    [
        add(h[0], v[0]),
        add(h[1], v[1]),
        add(h[2], v[2]),
        add(h[3], v[3]),
        add(h[4], v[4]),
        add(h[5], v[5]),
        add(h[6], v[6]),
        add(h[7], v[7]),
    ]
}

/// The sixteen words of each message's block.
#[inline(always)]
fn first_window(blocks: &Blocks) -> [u32x8; 16]
    ensures { InEachLane (λ j. lane j result ≡ first_words (slice_index_or blocks.now j []) 16) }
{
    let x = eight_words(blocks, 0);
    let y = eight_words(blocks, 8);
    [
        x[0], x[1], x[2], x[3], x[4], x[5], x[6], x[7], y[0], y[1], y[2], y[3], y[4], y[5], y[6],
        y[7],
    ]
}

/// Eight words of each message's block, from a place on. A vector is read from each block, and
/// these rows are transposed, which takes fewer steps than a read of each word into its lane.
#[inline(always)]
fn eight_words(blocks: &Blocks, place: usize) -> [u32x8; 8]
    requires { place + 8 ≤ 16 }
    ensures { InEachLane (λ j. lane j result
        ≡ words_from (slice_index_or blocks.now j []) place) }
{
    let a = row(&blocks[0], place);
    let b = row(&blocks[1], place);
    let c = row(&blocks[2], place);
    let d = row(&blocks[3], place);
    let e = row(&blocks[4], place);
    let f = row(&blocks[5], place);
    let g = row(&blocks[6], place);
    let h = row(&blocks[7], place);
    let (ab, ab_high) = (a.shuffle(b, LOW_WORDS), a.shuffle(b, HIGH_WORDS));
    let (cd, cd_high) = (c.shuffle(d, LOW_WORDS), c.shuffle(d, HIGH_WORDS));
    let (ef, ef_high) = (e.shuffle(f, LOW_WORDS), e.shuffle(f, HIGH_WORDS));
    let (gh, gh_high) = (g.shuffle(h, LOW_WORDS), g.shuffle(h, HIGH_WORDS));
    let (x0, x1) = (ab.shuffle(cd, LOW_PAIRS), ab.shuffle(cd, HIGH_PAIRS));
    let (x2, x3) = (
        ab_high.shuffle(cd_high, LOW_PAIRS),
        ab_high.shuffle(cd_high, HIGH_PAIRS),
    );
    let (y0, y1) = (ef.shuffle(gh, LOW_PAIRS), ef.shuffle(gh, HIGH_PAIRS));
    let (y2, y3) = (
        ef_high.shuffle(gh_high, LOW_PAIRS),
        ef_high.shuffle(gh_high, HIGH_PAIRS),
    );
    [
        x0.shuffle(y0, LOW_HALF),
        x1.shuffle(y1, LOW_HALF),
        x2.shuffle(y2, LOW_HALF),
        x3.shuffle(y3, LOW_HALF),
        x0.shuffle(y0, HIGH_HALF),
        x1.shuffle(y1, HIGH_HALF),
        x2.shuffle(y2, HIGH_HALF),
        x3.shuffle(y3, HIGH_HALF),
    ]
}

/// Eight words of a block, from a place on.
#[inline(always)]
fn row(block: &[u8; BLOCK], place: usize) -> u32x8
    requires { place + 8 ≤ 16 }
    ensures { result ≡ words_from block.now place }
{
    u32x8::from_array([
        word(block, place),
        word(block, place + 1),
        word(block, place + 2),
        word(block, place + 3),
        word(block, place + 4),
        word(block, place + 5),
        word(block, place + 6),
        word(block, place + 7),
    ])
}

/// A word of a block, its high byte first.
#[inline(always)]
fn word(block: &[u8; BLOCK], place: usize) -> u32
    requires { place < 16 }
    ensures { result ≡ word_at block.now (4 * place) }
{
    let at = 4 * place;
    u32::from_be_bytes([block[at], block[at + 1], block[at + 2], block[at + 3]])
}

/// One of the first sixteen rounds, whose words are the blocks'.
#[inline(always)]
fn first_round(window: &[u32x8; 16], v: [u32x8; 8], t: usize) -> [u32x8; 8]
    requires { t < 16 }
    ensures { (j : ℕ) (b h : List ℕ) → j < 8 → IsWindow (lane j window.now) (schedule b 48) 16
        → lane j v ≡ rounds h (schedule b 48) t
        → lane j result ≡ rounds h (schedule b 48) (t + 1) }
{
    round(v, ROUND[t], window[t])
}

#[inline(always)]
fn first_four_rounds(window: &[u32x8; 16], v: [u32x8; 8], t: usize) -> [u32x8; 8]
    requires { t + 4 ≤ 16 }
    ensures { (j : ℕ) (b h : List ℕ) → j < 8 → IsWindow (lane j window.now) (schedule b 48) 16
        → lane j v ≡ rounds h (schedule b 48) t
        → lane j result ≡ rounds h (schedule b 48) (t + 4) }
{
    let v = first_round(window, v, t);
    let v = first_round(window, v, t + 1);
    let v = first_round(window, v, t + 2);
    first_round(window, v, t + 3)
}

/// The first sixteen rounds.
#[inline(always)]
fn first_rounds(window: &[u32x8; 16], v: [u32x8; 8]) -> [u32x8; 8]
    ensures { (j : ℕ) (b h : List ℕ) → j < 8 → IsWindow (lane j window.now) (schedule b 48) 16
        → lane j v ≡ h → lane j result ≡ rounds h (schedule b 48) 16 }
{
    let v = first_four_rounds(window, v, 0);
    let v = first_four_rounds(window, v, 4);
    let v = first_four_rounds(window, v, 8);
    first_four_rounds(window, v, 12)
}

/// Sixteen rounds from round `16 * turn` on, so that each word's place in the window is a constant.
#[inline(always)]
fn sixteen_rounds(window: &mut [u32x8; 16], v: [u32x8; 8], turn: usize) -> [u32x8; 8]
    requires low { 1 ≤ turn }
    requires high { turn < 4 }
    ensures { (j : ℕ) (b h : List ℕ) → j < 8 → AreRoundsIn j b h window.old v (16 * turn)
        → AreRoundsIn j b h window.new result (16 * turn + 16) }
{
    let v = four_rounds(window, v, turn, 0);
    let v = four_rounds(window, v, turn, 4);
    let v = four_rounds(window, v, turn, 8);
    four_rounds(window, v, turn, 12)
}

/// Round `16 * turn + place`, from the sixteenth on, which also computes its word of the schedule.
#[inline(always)]
fn next_round(window: &mut [u32x8; 16], v: [u32x8; 8], turn: usize, place: usize) -> [u32x8; 8]
    requires low { 1 ≤ turn }
    requires high { turn < 4 }
    requires place { place < 16 }
    ensures { (j : ℕ) (b h : List ℕ) → j < 8
        → AreRoundsIn j b h window.old v (16 * turn + place)
        → AreRoundsIn j b h window.new result (16 * turn + (place + 1)) }
{
    let word = next_word(window, place);
    round(v, ROUND[16 * turn + place], word)
}

#[inline(always)]
fn four_rounds(window: &mut [u32x8; 16], v: [u32x8; 8], turn: usize, place: usize) -> [u32x8; 8]
    requires low { 1 ≤ turn }
    requires high { turn < 4 }
    requires place { place + 4 ≤ 16 }
    ensures { (j : ℕ) (b h : List ℕ) → j < 8
        → AreRoundsIn j b h window.old v (16 * turn + place)
        → AreRoundsIn j b h window.new result (16 * turn + (place + 4)) }
{
    let v = next_round(window, v, turn, place);
    let v = next_round(window, v, turn, place + 1);
    let v = next_round(window, v, turn, place + 2);
    next_round(window, v, turn, place + 3)
}

/// Puts the next word of each schedule at a place of the window, over the word sixteen before it.
#[inline(always)]
fn next_word(window: &mut [u32x8; 16], place: usize) -> u32x8
    requires { place < 16 }
    ensures value { InEachLane (λ j. slice_index result j ≡ window_word (lane j window.old) place) }
    ensures window { window.new ≡ slice_set window.old place result }
{
    let sum = add(
        small_sigma1(window[(place + 14) % 16]),
        window[(place + 9) % 16],
    );
    let word = add(
        add(sum, small_sigma0(window[(place + 1) % 16])),
        window[place],
    );
    window[place] = word;
    word
}

/// One round on the working variables of each message.
#[inline(always)]
fn round(v: [u32x8; 8], constant: u32, word: u32x8) -> [u32x8; 8]
    ensures { InEachLane (λ j. lane j result
        ≡ round (lane j v) constant (slice_index word j)) }
{
    let [a, b, c, d, e, f, g, h] = v;
    let sum = add(add(h, big_sigma1(e)), ch(e, f, g));
    let first = add(add(sum, u32x8::splat(constant)), word);
    let second = add(big_sigma0(a), maj(a, b, c));
    [add(first, second), a, b, c, add(d, first), e, f, g]
}

#[inline(always)]
fn big_sigma0(x: u32x8) -> u32x8
    ensures { InEachLane (λ j. slice_index result j ≡ big_sigma0 (slice_index x j)) }
{
    xor(xor(rotate(x, 2), rotate(x, 13)), rotate(x, 22))
}

#[inline(always)]
fn big_sigma1(x: u32x8) -> u32x8
    ensures { InEachLane (λ j. slice_index result j ≡ big_sigma1 (slice_index x j)) }
{
    xor(xor(rotate(x, 6), rotate(x, 11)), rotate(x, 25))
}

#[inline(always)]
fn small_sigma0(x: u32x8) -> u32x8
    ensures { InEachLane (λ j. slice_index result j ≡ small_sigma0 (slice_index x j)) }
{
    xor(xor(rotate(x, 7), rotate(x, 18)), shift(x, 3))
}

#[inline(always)]
fn small_sigma1(x: u32x8) -> u32x8
    ensures { InEachLane (λ j. slice_index result j ≡ small_sigma1 (slice_index x j)) }
{
    xor(xor(rotate(x, 17), rotate(x, 19)), shift(x, 10))
}

#[inline(always)]
fn ch(x: u32x8, y: u32x8, z: u32x8) -> u32x8
    ensures { InEachLane (λ j. slice_index result j
        ≡ ch (slice_index x j) (slice_index y j) (slice_index z j)) }
{
    xor(and(x, y), and(not(x), z))
}

/// Each bit that two of the three have: that of `y`, unless both others differ from it. The `x ^ y`
/// of a round is the `y ^ z` of the next, so it is made once.
#[inline(always)]
fn maj(x: u32x8, y: u32x8, z: u32x8) -> u32x8
    ensures { InEachLane (λ j. slice_index result j
        ≡ maj (slice_index x j) (slice_index y j) (slice_index z j)) }
{
    xor(y, and(xor(x, y), xor(y, z)))
}

#[inline(always)]
fn add(x: u32x8, y: u32x8) -> u32x8
    ensures { InEachLane (λ j. slice_index result j ≡ add32 (slice_index x j) (slice_index y j)) }
{
    x + y
}

#[inline(always)]
fn xor(x: u32x8, y: u32x8) -> u32x8
    ensures { InEachLane (λ j. slice_index result j ≡ bit_xor (slice_index x j) (slice_index y j)) }
{
    x ^ y
}

#[inline(always)]
fn and(x: u32x8, y: u32x8) -> u32x8
    ensures { InEachLane (λ j. slice_index result j ≡ bit_and (slice_index x j) (slice_index y j)) }
{
    x & y
}

#[inline(always)]
fn not(x: u32x8) -> u32x8
    ensures { InEachLane (λ j. slice_index result j ≡ bit_not w32 (slice_index x j)) }
{
    !x
}

#[inline(always)]
fn shift(x: u32x8, k: u32) -> u32x8
    requires { k < 32 }
    ensures { InEachLane (λ j. slice_index result j ≡ slice_index x j / 2 ^ k) }
{
    x >> u32x8::splat(k)
}

#[inline(always)]
fn rotate(x: u32x8, k: u32) -> u32x8
    requires { (0 < k) × (k < 32) }
    ensures { InEachLane (λ j. slice_index result j ≡ rotate_right w32 (slice_index x j) k) }
{
    (x >> u32x8::splat(k)) | (x << u32x8::splat(32 - k))
}
