//! The list of the names that a server takes, and of the addresses from which it takes each.
ghost use Rattle.std.specs.Prelude.{◌≡◌};
ghost use Rattle.std.specs.List.{list_any};
ghost use Rattle.bw_operators.specs.AllowFiles.{ReadsAllowed};
ghost use Rattle.bw_operators.specs.AllowLists.{may_come, ip_octets, is_allowed_by, plain_octets};

use crate::allow_file::{AllowFault, rules_of};
use crate::network::plain_octets;
use crate::rule::Rule;
use bw_model::Name;
use std::alloc::Global;
use std::marker::Model;
use std::net::{IpAddr, SocketAddr};

/// The names that a server takes, and from which addresses; or that it takes all.
#[derive(Drop)]
pub struct AllowList {
    rules: Option<Vec<Rule>>,
}

impl Model for AllowList {
    ghost use Rattle.std.specs.Option.{option_map};
    ghost use Rattle.bw_operators.specs.AllowLists.{AllowRules};

    ghost Value = { AllowRules };

    ghost view = { λ a. option_map (λ rules. rules.items) a.rules };
}

impl AllowList {
    /// The list of a server that takes every name from everywhere.
    pub fn everyone() -> AllowList
        ensures { result ≡ None }
    {
        AllowList { rules: None }
    }

    /// The list that a text says: a line for each rule, a name, or the start of names with `*` after
    /// it, and then the networks from which it may come, each an address, or one with a slash and how
    /// many of its bits count. Blanks, tabs and carriage returns stand between words. Empty lines and
    /// lines that begin with `#` are left out.
    ///
    /// # Errors
    /// `Line` with the number of the first line that says no rule and isn't left out, counted from 1;
    /// `Memory` if memory was refused.
    ///
    /// # Not specified
    /// When memory is refused.
    pub fn read(alloc: Global, text: &[u8]) -> Result<AllowList, AllowFault>
        ensures { ReadsAllowed text.now result }
    {
        match rules_of(alloc, text) {
            Ok(rules) => Ok(AllowList { rules: Some(rules) }),
            Err(fault) => Err(fault),
        }
    }

    /// Whether messages under this name are taken from this peer.
    pub fn allows(&self, peer: SocketAddr, name: &Name) -> bool
        ensures { result ≡ may_come self.now peer name.now }
    {
        let Some(rules) = &self.rules else {
            return true;
        };
        match peer.ip() {
            IpAddr::V4(ip) => some_allows(rules, plain_octets(&ip.octets()), name.as_bytes()),
            IpAddr::V6(ip) => some_allows(rules, plain_octets(&ip.octets()), name.as_bytes()),
        }
    }
}

/// Whether one of the rules allows this name from this address.
fn some_allows(rules: &[Rule], address: &[u8], name: &[u8]) -> bool
    ensures { result ≡ list_any (is_allowed_by address.now name.now) rules.now }
{
    rules.iter().any(|rule| rule.allows(address, name))
}
