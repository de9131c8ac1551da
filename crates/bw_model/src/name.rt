//! The names of takes.
ghost use Rattle.std.specs.Prelude.{◌≡◌, ◌≤◌, IsTrue, length};
ghost use Rattle.std.specs.List.{list_all};
ghost use Rattle.std.specs.Option.{SomeIff};
ghost use Rattle.bw_model.specs.Limits.{longest_name};
ghost use Rattle.bw_model.specs.Wire.{is_name, is_name_byte as is_byte_of_name};

use arrayvec::ArrayVec;
use std::marker::Model;

/// The name of a take: 1 to 32 bytes of `a` to `z`, `0` to `9`, `-` and `_`.
///
/// Names are ordered by their bytes.
#[derive(Debug, Drop, PartialEq, Eq, Hash, PartialOrd, Ord)]
pub struct Name {
    bytes: ArrayVec<u8, 32>,
}

impl Model for Name {
    ghost use Rattle.std.specs.Prelude.{ℕ, List, IsTrue};
    ghost use Rattle.bw_model.specs.Wire.{is_name};

    ghost Value = { List ℕ };

    ghost view = { λ n. n.bytes.items };

    ghost invariant = { λ n. IsTrue (is_name n.bytes.items) };

    ghost inverse = { λ v. record { bytes = record { items = v } } };
}

impl Name {
    /// The name of these bytes, 1 to 32 of `a-z`, `0-9`, `-` and `_`; None for other bytes.
    pub fn new(bytes: &[u8]) -> Option<Name>
        ensures { SomeIff result (IsTrue (is_name bytes.now)) bytes.now }
    {
        if bytes.is_empty() || !are_name_bytes(bytes) {
            return None;
        }
        let mut name = ArrayVec::new();
        match name.try_extend_from_slice(bytes) {
            Ok(()) => Some(Name { bytes: name }),
            Err(_) => None,
        }
    }

    /// The bytes of the name.
    pub fn as_bytes(&self) -> &[u8]
        ensures value { result.now ≡ self.now }
        ensures name { IsTrue (is_name result.now) }
        ensures no_shorter { 1 ≤ length result.now }
        ensures no_longer { length result.now ≤ longest_name }
    {
        self.bytes.as_slice()
    }

    /// An equal name, without allocating memory.
    pub fn copy(&self) -> Name
        ensures { result ≡ self.now }
    {
        let mut name = ArrayVec::new();
        let _ = name.try_extend_from_slice(self.bytes.as_slice());
        Name { bytes: name }
    }
}

fn are_name_bytes(bytes: &[u8]) -> bool
    ensures { result ≡ list_all is_byte_of_name bytes.now }
{
    bytes.iter().all(|c| is_name_byte(*c))
}

fn is_name_byte(c: u8) -> bool
    ensures { result ≡ is_byte_of_name c }
{
    c.is_ascii_lowercase() || c.is_ascii_digit() || c == b'-' || c == b'_'
}
