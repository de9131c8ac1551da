//! Networks: addresses that have the same first bits.
ghost use Rattle.std.specs.Prelude.{◌≡◌, ◌≢◌, ◌-◌, ◌/◌, ◌^◌, ◌≤◌, ◌==◌, ℕ, MatchOption, decimal};
ghost use Rattle.std.specs.declared.net.ip_addr.IpAddr.{IpAddr as ModelIp};
ghost use Rattle.std.specs.Str.{bytes_eq};
ghost use Rattle.bw_operators.specs.AllowLists.{AllowedNetwork, begin_alike, has_address, ip_octets};
ghost use Rattle.bw_operators.specs.AllowLists.{is_mapped, plain_octets};
ghost use Rattle.bw_operators.specs.AllowFiles.{SaysAddress, SaysNetwork, address_bits};
ghost use Rattle.bw_operators.specs.AllowWords.{IsSplitAtSlash, HasNoSlash};

use itoa::Buffer;
use std::marker::Model;
use std::net::IpAddr;

/// The addresses that have the first bits of this one.
#[derive(Drop)]
pub(crate) struct Network {
    ip: IpAddr,
    bits: u8,
}

impl Model for Network {
    ghost use Rattle.bw_operators.specs.AllowLists.{AllowedNetwork, ip_octets};

    ghost Value = { AllowedNetwork };

    ghost view = { λ n. record { octets = ip_octets n.ip; bits = n.bits } };
}

impl Network {
    /// Whether an address, the high octet first, is one of the network.
    pub(crate) fn has(&self, address: &[u8]) -> bool
        ensures { result ≡ has_address address.now self.now }
    {
        match self.ip {
            IpAddr::V4(ip) => begin_alike(self.bits, address, &ip.octets()),
            IpAddr::V6(ip) => begin_alike(self.bits, address, &ip.octets()),
        }
    }
}

/// Whether two addresses of one kind have the same first bits.
fn begin_alike(bits: u8, left: &[u8], right: &[u8]) -> bool
    ensures { result ≡ begin_alike bits left.now right.now }
{
    let Some((x, xs)) = left.split_first() else {
        return right.is_empty();
    };
    let Some((y, ys)) = right.split_first() else {
        return false;
    };
    has_same_start(bits, *x, *y) && begin_alike(bits.saturating_sub(8), xs, ys)
}

/// Whether two octets have the same first bits.
fn has_same_start(bits: u8, x: u8, y: u8) -> bool
    ensures { result ≡ (x / 2 ^ (8 - bits) == y / 2 ^ (8 - bits)) }
{
    let rest = 8u8.saturating_sub(bits);
    u16::from(x) >> rest == u16::from(y) >> rest
}

/// The start of `::ffff:a.b.c.d`.
const MAPPED_START: [u8; 12] = [0, 0, 0, 0, 0, 0, 0, 0, 0, 0, 255, 255];

/// An address as IPv4 if it is `::ffff:a.b.c.d`, and any other as it is.
pub(crate) fn plain_octets(octets: &[u8]) -> &[u8]
    ensures { result.now ≡ plain_octets octets.now }
{
    if is_mapped(octets) {
        octets.split_at(12).1
    } else {
        octets
    }
}

/// Whether an address is `::ffff:a.b.c.d`.
fn is_mapped(octets: &[u8]) -> bool
    ensures { result ≡ is_mapped octets.now }
{
    octets.starts_with(&MAPPED_START)
}

/// The address that a text is. `::ffff:a.b.c.d` is none: such a peer counts as `a.b.c.d`, so a rule
/// with that address would fit nobody.
fn address_of(text: &[u8]) -> Option<IpAddr>
    ensures { MatchOption result ((ip : ModelIp) → ¬ SaysAddress text.now ip) (SaysAddress text.now) }
{
    let Ok(ip) = IpAddr::parse_ascii(text) else {
        return None;
    };
    if has_mapped_start(ip) {
        return None;
    }
    Some(ip)
}

/// Whether an address is `::ffff:a.b.c.d`.
fn has_mapped_start(ip: IpAddr) -> bool
    ensures { result ≡ is_mapped (ip_octets ip) }
{
    match ip {
        IpAddr::V4(ip) => is_mapped(&ip.octets()),
        IpAddr::V6(ip) => is_mapped(&ip.octets()),
    }
}

/// The network that a word says: an address, or one with a slash and how many of its bits count.
pub(crate) fn network_of(word: &[u8]) -> Option<Network>
    ensures { MatchOption result ((network : AllowedNetwork) → ¬ SaysNetwork word.now network)
        (SaysNetwork word.now) }
{
    if let Some(ip) = address_of(word) {
        let bits = address_bits(ip);
        return Some(Network { ip, bits });
    }
    let Some((address, digits)) = parts(word) else {
        return None;
    };
    let Some(ip) = address_of(address) else {
        return None;
    };
    let Some(bits) = bits_of(digits, address_bits(ip)) else {
        return None;
    };
    Some(Network { ip, bits })
}

/// How many bits an address has.
fn address_bits(ip: IpAddr) -> u8
    ensures { result ≡ address_bits ip }
{
    match ip {
        IpAddr::V4(_) => 32,
        IpAddr::V6(_) => 128,
    }
}

/// What stands before the last slash, and after it.
fn parts(word: &[u8]) -> Option<(&[u8], &[u8])>
    ensures { MatchOption result (HasNoSlash word.now) (λ p. IsSplitAtSlash word.now p.0.now p.1.now) }
{
    let mut left = word;
    while let Some((last, front)) = left.split_last() {
        if *last == b'/' {
            return Some((front, &word[left.len()..]));
        }
        left = front;
    }
    None
}

/// The number, at most `most`, of which these are the digits, with no zero before them.
fn bits_of(digits: &[u8], most: u8) -> Option<u8>
    requires { most ≤ 128 }
    ensures { MatchOption result ((n : ℕ) → n ≤ most → decimal n ≢ digits.now)
        (λ n. (n ≤ most) × (decimal n ≡ digits.now)) }
{
    for bits in 0..most + 1 {
        if is_number(digits, bits) {
            return Some(bits);
        }
    }
    None
}

/// Whether these are the digits of a number.
fn is_number(digits: &[u8], number: u8) -> bool
    ensures { result ≡ bytes_eq (decimal number) digits.now }
{
    let mut buffer = Buffer::new();
    buffer.format(number).as_bytes() == digits
}
