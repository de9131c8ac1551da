//! The receipt of a recording, as `send` is asked for one.
ghost use Rattle.std.specs.Prelude.{◌≡◌, option_map, IfOk};
ghost use Rattle.clap.specs.Words.{first_value, found_of};
ghost use Rattle.bw_args.specs.ReceiptOptions.{is_receipt_mixed, receipt_given, target_in_plain};

use super::network::flag_given;
use crate::ReceiptTarget;
use clap::ArgMatches;
use std::alloc::{AllocError, Global};

/// Where the receipt goes that the options ask for, if they ask for one.
pub fn receipt_given(
    alloc: Global,
    options: &ArgMatches<'_>,
) -> Result<Option<ReceiptTarget>, AllocError>
    ensures { IfOk result (λ receipt. option_map target_in_plain receipt
        ≡ receipt_given (first_value (found_of options.now))) }
{
    let json = flag_given(options, "json");
    match options.get_str("receipt") {
        Some(path) => Ok(Some(ReceiptTarget {
            path: String::from_str(alloc, path)?,
            json,
        })),
        None => Ok(None),
    }
}

/// Whether a receipt is asked for of headerless samples or of a file that is followed, or a form of it
/// without a receipt.
pub fn is_receipt_mixed(options: &ArgMatches<'_>) -> bool
    ensures { result ≡ is_receipt_mixed (first_value (found_of options.now)) }
{
    if options.get_str("receipt").is_some() {
        return options.get_str("pcm").is_some()
            || options.get_str("spool").is_some()
            || flag_given(options, "follow");
    }
    flag_given(options, "json")
}
