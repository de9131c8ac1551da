//! The command `inspect`.
ghost use Rattle.std.specs.Prelude.{◌≡◌, ◌||◌, ◌∷◌, [], false, map, codes, Some, IfOk, IfNone, IfSome};
ghost use Rattle.std.specs.Prelude.{OnErr};
ghost use Rattle.std.specs.List.{list_any};
ghost use Rattle.clap.specs.Words.{found_of, rows_of};
ghost use Rattle.bw_args.specs.InspectedFiles.{is_alone, is_input, is_possible};
ghost use Rattle.bw_args.specs.Lines.{AsksForPath, IsLineFor};

use super::network::flag_given;
use super::sources::copies_of;
use crate::{BadValue, CommandLine, Inspection, Task};
use clap::ArgMatches;
use std::alloc::{AllocError, Global};

/// One file without an option is a task of its own.
pub(crate) fn inspect_line(
    alloc: Global,
    options: &ArgMatches<'_>,
) -> Result<CommandLine, AllocError>
    ensures ok { IfOk result (IsLineFor (Some (codes "inspect", rows_of (found_of options.now)))) }
    ensures err { OnErr result
        (AsksForPath (Some (codes "inspect", rows_of (found_of options.now)))) }
{
    // `clap` refuses words without a file.
    let Some(paths) = options.get_raw("file") else {
        return Ok(CommandLine::BadValue(BadValue::Inspection));
    };
    let json = flag_given(options, "json");
    let human = flag_given(options, "human");
    let digest = flag_given(options, "digest");
    if !is_possible(paths, json, human, digest) {
        return Ok(CommandLine::BadValue(BadValue::Inspection));
    }
    match only_path(paths, has_option(json, human, digest)) {
        Some(path) => {
            let file = String::from_str(alloc, path)?;
            Ok(CommandLine::Run(Task::Inspect { file }))
        }
        None => {
            let files = copies_of(alloc, paths)?;
            let inspection = Inspection {
                files,
                json,
                human,
                digest,
            };
            Ok(CommandLine::Run(Task::InspectFiles(inspection)))
        }
    }
}

/// Whether files can be inspected so: in JSON or for people, and standard input (`-`) alone and
/// without a digest, since it can be read once.
fn is_possible(paths: &[&str], json: bool, human: bool, digest: bool) -> bool
    ensures { result ≡ is_possible (map (λ p. p.now) paths.now) json human digest }
{
    if json && human {
        return false;
    }
    if paths.len() == 1 && !digest {
        return true;
    }
    !names_input(paths)
}

/// Whether standard input is among these.
fn names_input(paths: &[&str]) -> bool
    ensures { result ≡ list_any is_input (map (λ p. p.now) paths.now) }
{
    for path in paths {
        if *path == "-" {
            return true;
        }
    }
    false
}

fn has_option(json: bool, human: bool, digest: bool) -> bool
    ensures { result ≡ (json || (human || digest)) }
{
    json || human || digest
}

/// The path that is given, if it is the only one and no option is.
fn only_path<'a>(paths: &[&'a str], optioned: bool) -> Option<&'a str>
    ensures alone { IfSome result (λ path.
        (map (λ p. p.now) paths.now ≡ path.now ∷ []) × (optioned ≡ false)) }
    ensures others { IfNone result (is_alone (map (λ p. p.now) paths.now) optioned ≡ false) }
{
    if optioned {
        return None;
    }
    match paths {
        [path] => Some(path),
        _ => None,
    }
}
