//! The command `join`.
ghost use Rattle.std.specs.Prelude.{codes, IfOk, OnErr, Some};
ghost use Rattle.clap.specs.Words.{found_of, rows_of};
ghost use Rattle.bw_args.specs.Lines.{AsksForPath, IsLineFor};

use crate::{BadValue, CommandLine, Task};
use clap::ArgMatches;
use std::alloc::{AllocError, Global};

/// The take, and the file of the chunks that are joined to it.
pub fn join_line(alloc: Global, options: &ArgMatches<'_>) -> Result<CommandLine, AllocError>
    ensures ok { IfOk result (IsLineFor (Some (codes "join", rows_of (found_of options.now)))) }
    ensures err { OnErr result
        (AsksForPath (Some (codes "join", rows_of (found_of options.now)))) }
{
    // `clap` refuses words without both files.
    let Some(take) = options.get_str("take") else {
        return Ok(CommandLine::BadValue(BadValue::Limit));
    };
    let Some(left) = options.get_str("left") else {
        return Ok(CommandLine::BadValue(BadValue::Limit));
    };
    let take = String::from_str(alloc, take)?;
    let left = String::from_str(alloc, left)?;
    Ok(CommandLine::Run(Task::Join { take, left }))
}
