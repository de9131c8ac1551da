//! The commands on one recording: `pack`, `picture` and `repair`.
ghost use Rattle.std.specs.Prelude.{codes, Some, IfOk, OnErr};
ghost use Rattle.clap.specs.Words.{found_of, rows_of};
ghost use Rattle.bw_args.specs.Lines.{AsksForPath, IsLineFor};

use super::left_out::is_left_out_mixed;
use super::network::flag_given;
use super::sources::source_given;
use crate::{BadValue, CommandLine, Task};
use clap::ArgMatches;
use std::alloc::{AllocError, Global};

pub(crate) fn pack_line(alloc: Global, options: &ArgMatches<'_>) -> Result<CommandLine, AllocError>
    ensures ok { IfOk result (IsLineFor (Some (codes "pack", rows_of (found_of options.now)))) }
    ensures err { OnErr result
        (AsksForPath (Some (codes "pack", rows_of (found_of options.now)))) }
{
    // `clap` refuses words without the file.
    let Some(path) = options.get_str("file") else {
        return Ok(CommandLine::BadValue(BadValue::LeftOut));
    };
    if is_left_out_mixed(options) {
        return Ok(CommandLine::BadValue(BadValue::LeftOut));
    }
    let source = source_given(alloc, options, path)?;
    Ok(CommandLine::Run(Task::Pack(source)))
}

pub(crate) fn picture_line(
    alloc: Global,
    options: &ArgMatches<'_>,
) -> Result<CommandLine, AllocError>
    ensures ok { IfOk result (IsLineFor (Some (codes "picture", rows_of (found_of options.now)))) }
    ensures err { OnErr result
        (AsksForPath (Some (codes "picture", rows_of (found_of options.now)))) }
{
    // `clap` refuses words without the file.
    let Some(path) = options.get_str("file") else {
        return Ok(CommandLine::BadValue(BadValue::Limit));
    };
    let file = String::from_str(alloc, path)?;
    Ok(CommandLine::Run(Task::Picture { file }))
}

pub(crate) fn repair_line(
    alloc: Global,
    options: &ArgMatches<'_>,
) -> Result<CommandLine, AllocError>
    ensures ok { IfOk result (IsLineFor (Some (codes "repair", rows_of (found_of options.now)))) }
    ensures err { OnErr result
        (AsksForPath (Some (codes "repair", rows_of (found_of options.now)))) }
{
    // `clap` refuses words without the file.
    let Some(path) = options.get_str("file") else {
        return Ok(CommandLine::BadValue(BadValue::Limit));
    };
    let file = String::from_str(alloc, path)?;
    let write = flag_given(options, "write");
    Ok(CommandLine::Run(Task::Repair { file, write }))
}
