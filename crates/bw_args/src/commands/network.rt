//! What `serve` and `send` have in common, and how their values are read.
ghost use Rattle.std.specs.Prelude.{◌≡◌};
ghost use Rattle.clap.specs.Words.{first_value, found_of};
ghost use Rattle.bw_args.specs.Lines.{IsAddressGiven, IsCountGiven, is_set};

use super::NoNumber;
use crate::addresses::address;
use crate::numbers;
use clap::ArgMatches;
use std::net::SocketAddr;

/// Whether the flag of this name is given.
pub(crate) fn flag_given(options: &ArgMatches<'_>, flag: &str) -> bool
    ensures { result ≡ is_set (first_value (found_of options.now) flag.now) }
{
    match options.get_str(flag) {
        Some(text) => text == "true",
        None => false,
    }
}

/// The address that the option of this name gives; none if it is malformed.
pub(crate) fn address_given(
    options: &ArgMatches<'_>,
    option: &str,
    network: bool,
) -> Option<SocketAddr>
    ensures { IsAddressGiven network (first_value (found_of options.now) option.now) result }
{
    address(options.get_str(option)?, network)
}

/// The number from 1 to `most` that the option of this name gives, or none.
pub(crate) fn count_given(
    options: &ArgMatches<'_>,
    option: &str,
    most: u32,
) -> Result<Option<u32>, NoNumber>
    ensures { IsCountGiven most (first_value (found_of options.now) option.now) result }
{
    let Some(text) = options.get_str(option) else {
        return Ok(None);
    };
    match numbers::count(text, most) {
        Some(number) => Ok(Some(number)),
        None => Err(NoNumber),
    }
}
