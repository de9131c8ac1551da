//! Rules: from which networks a name may come.
ghost use Rattle.std.specs.Prelude.{◌≡◌, Bool, List, ℕ, [], IsFalse, IsTrue, MatchOption, unwrap_or};
ghost use Rattle.std.specs.List.{list_any};
ghost use Rattle.bw_model.specs.Wire.{is_name};
ghost use Rattle.bw_operators.specs.AllowLists.{fits_name, has_address, is_allowed_by};
ghost use Rattle.bw_operators.specs.AllowFiles.{SaysName};

use crate::network::Network;
use bw_model::Name;
use std::marker::Model;

/// A name, or the start of names; without a name the start of all.
#[derive(Drop)]
pub(crate) struct Pattern {
    name: Option<Name>,
    is_start: bool,
}

/// A name, or the start of names, and the networks from which it may come.
#[derive(Drop)]
pub(crate) struct Rule {
    pattern: Pattern,
    networks: Vec<Network>,
}

impl Model for Rule {
    ghost use Rattle.std.specs.Prelude.{[], unwrap_or};
    ghost use Rattle.bw_operators.specs.AllowLists.{AllowRule};

    ghost Value = { AllowRule };

    ghost view = { λ r. record {
      name = unwrap_or r.pattern.name [];
      is_start = r.pattern.is_start;
      networks = r.networks.items;
    } };
}

impl Rule {
    /// The rule of this pattern and these networks.
    pub(crate) fn new(pattern: Pattern, networks: Vec<Network>) -> Rule
        ensures name { result.name ≡ unwrap_or pattern.name [] }
        ensures is_start { result.is_start ≡ pattern.is_start }
        ensures networks { result.networks ≡ networks.items }
    {
        Rule { pattern, networks }
    }

    /// Whether the rule is of this name, and the address is in one of its networks.
    pub(crate) fn allows(&self, address: &[u8], name: &[u8]) -> bool
        ensures { result ≡ is_allowed_by address.now name.now self.now }
    {
        self.fits(name) && some_has(&self.networks, address)
    }

    /// Whether the rule is of this name.
    fn fits(&self, name: &[u8]) -> bool
        ensures { result ≡ fits_name name.now self.now }
    {
        if self.pattern.is_start {
            name.starts_with(bytes_of(&self.pattern.name))
        } else {
            name == bytes_of(&self.pattern.name)
        }
    }
}

/// Whether an address is in one of the networks.
fn some_has(networks: &[Network], address: &[u8]) -> bool
    ensures { result ≡ list_any (has_address address.now) networks.now }
{
    networks.iter().any(|network| network.has(address))
}

/// The bytes of a name; none without one.
fn bytes_of(name: &Option<Name>) -> &[u8]
    ensures { result.now ≡ unwrap_or name.now [] }
{
    match name {
        Some(name) => name.as_bytes(),
        None => &[],
    }
}

/// The name that a word says, or the start of names, with `*` after it.
pub(crate) fn pattern_of(word: &[u8]) -> Option<Pattern>
    ensures { MatchOption result
        ((name : List ℕ) (is_start : Bool) → ¬ SaysName word.now name is_start)
        (λ p. SaysName word.now (unwrap_or p.name []) p.is_start) }
{
    let Some((last, start)) = word.split_last() else {
        return None;
    };
    if *last != b'*' {
        return name_of(word, false);
    }
    if start.is_empty() {
        return Some(Pattern {
            name: None,
            is_start: true,
        });
    }
    name_of(start, true)
}

/// The pattern of a name, if these bytes are one.
fn name_of(bytes: &[u8], is_start: bool) -> Option<Pattern>
    ensures { MatchOption result (IsFalse (is_name bytes.now)) (λ p. IsTrue (is_name bytes.now)
        × (p.name ≡ Some bytes.now) × (p.is_start ≡ is_start)) }
{
    let Some(name) = Name::new(bytes) else {
        return None;
    };
    Some(Pattern {
        name: Some(name),
        is_start,
    })
}
