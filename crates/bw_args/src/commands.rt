//! What the commands of the program result in.
ghost use Rattle.std.specs.Prelude.{◌≡◌, codes, option_map, Some, IfOk, OnErr};
ghost use Rattle.clap.specs.Words.{first_value, found_of, rows_of, subcommand_rows_of};
ghost use Rattle.bw_args.specs.Lines.{AsksForPath, IsFuseGiven, IsLimitGiven, IsLineFor};
ghost use Rattle.bw_args.specs.Lines.{IsNameGiven, is_nameless};

mod converting;
mod grammar;
mod inspecting;
mod joining;
mod left_out;
mod listing;
mod network;
mod one_file;
mod options;
mod receipts;
mod row;
mod samples;
mod sending;
mod serving;
mod several;
mod sources;

use crate::{BadValue, CommandLine, Task, numbers};
use bw_model::Name;
use clap::ArgMatches;
pub use grammar::{bwingest, name_missing};
use std::alloc::{AllocError, Global};

/// A text that is no number of the kind wanted.
#[derive(Drop)]
struct NoNumber;

/// What parsed words result in. Only paths and settings take memory, so that a bad value is
/// reported however little is left.
pub fn line(alloc: Global, matches: &ArgMatches<'_>) -> Result<CommandLine, AllocError>
    ensures ok { IfOk result (IsLineFor (subcommand_rows_of matches.now)) }
    ensures err { OnErr result (AsksForPath (subcommand_rows_of matches.now)) }
{
    match entered(matches) {
        Some((name, options)) => line_of(alloc, name, options),
        None => Ok(CommandLine::BadValue(BadValue::Limit)),
    }
}

/// Whether `send` is asked for with neither a name nor a FILE.
pub fn is_nameless(matches: &ArgMatches<'_>) -> bool
    ensures { result ≡ is_nameless (subcommand_rows_of matches.now) }
{
    match entered(matches) {
        Some((name, options)) => name == "send" && sending::lacks_name(options),
        None => false,
    }
}

/// What a command of this name results in, with these options.
pub fn line_of(
    alloc: Global,
    name: &str,
    options: &ArgMatches<'_>,
) -> Result<CommandLine, AllocError>
    ensures ok { IfOk result (IsLineFor (Some (name.now, rows_of (found_of options.now)))) }
    ensures err { OnErr result (AsksForPath (Some (name.now, rows_of (found_of options.now)))) }
{
    match name {
        "replay" => Ok(replay_line(options)),
        "rehearse" => Ok(rehearse_line(options)),
        "inspect" => inspecting::inspect_line(alloc, options),
        "serve" => serving::serve_line(alloc, options),
        "send" => sending::send_line(alloc, options),
        "pack" => one_file::pack_line(alloc, options),
        "picture" => one_file::picture_line(alloc, options),
        "repair" => one_file::repair_line(alloc, options),
        "convert" => converting::convert_line(alloc, options),
        "join" => joining::join_line(alloc, options),
        "takes" => listing::takes_line(alloc, options),
        // `clap` refuses words without a command of ours.
        _ => Ok(CommandLine::BadValue(BadValue::Limit)),
    }
}

/// The command that was entered, with its options.
fn entered<'a, 'b>(matches: &'b ArgMatches<'a>) -> Option<(&'a str, &'b ArgMatches<'a>)>
    ensures { option_map (λ p. (p.0.now, rows_of (found_of p.1.now))) result
        ≡ subcommand_rows_of matches.now }
{
    matches.subcommand()
}

/// The limit is looked at first.
fn replay_line(options: &ArgMatches<'_>) -> CommandLine
    ensures { IsLineFor (Some (codes "replay", rows_of (found_of options.now))) result }
{
    let Some(limit) = limit_given(options) else {
        return CommandLine::BadValue(BadValue::Limit);
    };
    let Ok(fuse) = fuse_given(options) else {
        return CommandLine::BadValue(BadValue::Fuse);
    };
    CommandLine::Run(Task::Replay { limit, fuse })
}

/// The name is looked at first.
fn rehearse_line(options: &ArgMatches<'_>) -> CommandLine
    ensures { IsLineFor (Some (codes "rehearse", rows_of (found_of options.now))) result }
{
    let Some(name) = name_given(options) else {
        return CommandLine::BadValue(BadValue::Name);
    };
    match limit_given(options) {
        Some(limit) => CommandLine::Run(Task::Rehearse { name, limit }),
        None => CommandLine::BadValue(BadValue::Limit),
    }
}

/// The name that the options give; none if it is malformed.
fn name_given(options: &ArgMatches<'_>) -> Option<Name>
    ensures { IsNameGiven (first_value (found_of options.now) (codes "name")) result }
{
    Name::new(options.get_str("name")?.as_bytes())
}

/// The limit that the options give, or the default; none if it is malformed.
fn limit_given(options: &ArgMatches<'_>) -> Option<u64>
    ensures { IsLimitGiven (first_value (found_of options.now) (codes "limit")) result }
{
    match options.get_str("limit") {
        Some(text) => numbers::limit(text),
        None => Some(numbers::DEFAULT_LIMIT),
    }
}

/// The number of the call that is to fail, as the options give it, or none.
fn fuse_given(options: &ArgMatches<'_>) -> Result<Option<u32>, NoNumber>
    ensures { IsFuseGiven (first_value (found_of options.now) (codes "fuse")) result }
{
    let Some(text) = options.get_str("fuse") else {
        return Ok(None);
    };
    match numbers::number(text) {
        Some(number) => Ok(Some(number)),
        None => Err(NoNumber),
    }
}
