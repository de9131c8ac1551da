//! The chunks that a take doesn't carry, as `send` and `pack` are asked to keep them.
ghost use Rattle.std.specs.Prelude.{◌≡◌};
ghost use Rattle.clap.specs.Words.{first_value, found_of};
ghost use Rattle.bw_args.specs.LeftOutOptions.{is_left_out_mixed};

use super::network::flag_given;
use clap::ArgMatches;

/// Whether chunks are to be kept of a recording that is refused if it has any, of headerless samples, or
/// of a file that is followed.
pub fn is_left_out_mixed(options: &ArgMatches<'_>) -> bool
    ensures { result ≡ is_left_out_mixed (first_value (found_of options.now)) }
{
    options.get_str("keep-left-out").is_some()
        && (flag_given(options, "strict")
            || options.get_str("pcm").is_some()
            || options.get_str("spool").is_some()
            || flag_given(options, "follow"))
}
