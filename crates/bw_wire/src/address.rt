//! The name and the number after a kind byte, as messages, asks and replies have them.
ghost use Rattle.std.specs.Prelude.{◌≡◌, ◌≤◌, IsTrue, not, false, drop, length};
ghost use Rattle.bw_model.specs.Wire.{Second, last_number, name_in, after_name as following};
ghost use Rattle.bw_model.specs.Wire.{number_in, payload_in, is_name_bad, is_number_bad};
ghost use Rattle.bw_wire.specs.Addresses.{HasName, HasAddress};

use bw_model::{Name, read_u32};

/// The last number that a message may have.
pub(crate) const LAST_NUMBER: u32 = 16_777_215;

/// Whether the bytes begin with a name after its length.
pub(crate) fn has_name(rest: &[u8]) -> bool
    ensures value { result ≡ not (is_name_bad rest.now) }
    ensures named { IsTrue result → HasName rest.now }
{
    let Some(len) = rest.first() else {
        return false;
    };
    let end = 1 + *len as usize;
    if rest.len() < end {
        return false;
    }
    Name::new(&rest[1..end]).is_some()
}

/// Whether a number that may be sent follows the name.
pub(crate) fn has_number(rest: &[u8]) -> bool
    requires { HasName rest.now }
    ensures value { result ≡ not (is_number_bad (last_number Second) rest.now) }
    ensures numbered { IsTrue result → HasAddress rest.now }
{
    let following = after_name(rest);
    if following.len() < 4 {
        return false;
    }
    read_u32(following, 0) <= LAST_NUMBER
}

/// The name.
pub(crate) fn name(rest: &[u8]) -> Name
    requires { is_name_bad rest.now ≡ false }
    ensures { result ≡ name_in rest.now }
{
    Name::new(&rest[1..1 + rest[0] as usize]).unwrap()
}

/// What follows the name.
fn after_name(rest: &[u8]) -> &[u8]
    requires { HasName rest.now }
    ensures { result.now ≡ following rest.now }
{
    &rest[1 + rest[0] as usize..]
}

/// The number.
pub(crate) fn number(rest: &[u8]) -> u32
    requires { HasAddress rest.now }
    ensures { result ≡ number_in rest.now }
{
    read_u32(after_name(rest), 0)
}

/// What follows the number.
pub(crate) fn payload(rest: &[u8]) -> &[u8]
    requires { HasAddress rest.now }
    ensures { result.now ≡ payload_in rest.now }
{
    &after_name(rest)[4..]
}

/// What follows the kind byte.
pub(crate) fn after_kind(body: &[u8]) -> &[u8]
    requires { 1 ≤ length body.now }
    ensures { result.now ≡ drop 1 body.now }
{
    &body[1..]
}
