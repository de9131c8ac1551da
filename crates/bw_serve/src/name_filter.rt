//! The filter of an exchange's bytes. No input or output.
ghost use Rattle.std.specs.Prelude.{◌≡◌, ◌+◌, ◌≤◌, ◌++◌, ℕ, List, false, length, take, drop};
ghost use Rattle.bw_model.specs.Bytes.{u32_at};
ghost use Rattle.bw_serve.specs.Filters.{after_byte, after_bytes, allows, filtered, has_name, passed};
ghost use Rattle.bw_serve.specs.Filters.{starting};

use arrayvec::ArrayVec;
use bw_model::read_u32;
use std::marker::Model;

/// The most bytes of a frame up to the end of its name, if that is as long as its length byte
/// allows.
const LONGEST_HEAD: usize = 261;

/// The most bytes of such a name.
const LONGEST_NAME: usize = 255;

/// What is known of an exchange's bytes so far: the first frame's name, and where in a frame the
/// next byte is.
#[derive(Drop)]
pub struct NameFilter {
    first: ArrayVec<u8, LONGEST_NAME>,
    head: ArrayVec<u8, LONGEST_HEAD>,
    left: u32,
    passing: bool,
}

impl Model for NameFilter {
    ghost use Rattle.std.specs.Prelude.{◌≤◌, length};
    ghost use Rattle.bw_serve.specs.Filters.{Filter};

    ghost Value = { Filter };

    ghost view = { λ f. record {
      first = f.first.items;
      head = f.head.items;
      left = f.left;
      passing = f.passing;
    } };

    ghost invariant = { λ f. length f.head.items ≤ 260 };
}

impl NameFilter {
    /// The filter before the first byte of an exchange: it lets one name alone through, or any.
    pub fn new(one_name: bool) -> NameFilter
        ensures { result ≡ starting one_name }
    {
        NameFilter {
            first: ArrayVec::new(),
            head: ArrayVec::new(),
            left: 0,
            passing: !one_name,
        }
    }

    /// Replaces the first `count` bytes by those that the filter gives for them.
    pub fn pass(&mut self, bytes: &mut [u8], count: usize)
        requires { count ≤ length bytes.old }
        ensures after { self.new ≡ after_bytes self.old (take count bytes.old) }
        ensures given { bytes.new ≡ filtered self.old (take count bytes.old) ++ drop count bytes.old }
    {
        let mut at = 0;
        while at < count {
            // most bytes follow a frame's name
            at += self.pass_over(count - at - 1);
            bytes[at] = self.pass_byte(bytes[at]);
            at += 1;
        }
    }

    /// Passes over the next bytes, at most `most`, that are given unchanged. Returns how many.
    fn pass_over(&mut self, most: usize) -> usize
        ensures most { result ≤ most }
        ensures same { (bytes : List ℕ) → length bytes ≡ result →
            (filtered self.old bytes ≡ bytes) × (self.new ≡ after_bytes self.old bytes) }
    {
        if self.passing {
            return most;
        }
        let count = most.min(self.left as usize);
        self.left -= count as u32;
        count
    }

    /// What is given for the next byte.
    #[tactic(auto, unfolding(crate::specs::Filters::after_byte, crate::specs::Filters::passed))]
    fn pass_byte(&mut self, byte: u8) -> u8
        ensures after { self.new ≡ after_byte self.old byte }
        ensures given { result ≡ passed self.old byte }
    {
        if self.passing {
            return byte;
        }
        if self.left > 0 {
            self.left -= 1;
            return byte;
        }
        self.head.push(byte);
        if !has_name(self.head.as_slice()) {
            return byte;
        }
        if !allows(self.first.as_slice(), &self.head.as_slice()[6..]) {
            self.head.clear();
            self.passing = true;
            return 0;
        }
        self.first.clear();
        let _ = self.first.try_extend_from_slice(&self.head.as_slice()[6..]);
        self.left = read_u32(self.head.as_slice(), 0).saturating_sub(self.head.len() as u32 - 4);
        self.head.clear();
        byte
    }
}

/// Whether these bytes of a frame reach the end of its name.
fn has_name(head: &[u8]) -> bool
    requires { length head.now ≤ 261 }
    ensures named { result ≡ has_name head.now }
    ensures short { result ≡ false → length head.now ≤ 260 }
{
    head.len() >= 6 && head.len() >= 6 + head[5] as usize
}

/// Whether a name is the first, or equals it.
fn allows(first: &[u8], name: &[u8]) -> bool
    ensures { result ≡ allows first.now name.now }
{
    first.is_empty() || name == first
}
