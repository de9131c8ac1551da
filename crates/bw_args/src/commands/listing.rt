//! The command `takes`.
ghost use Rattle.std.specs.Prelude.{◌≡◌, false, codes, option_map, Some, IfOk, OnErr};
ghost use Rattle.clap.specs.Words.{found_of, rows_of};
ghost use Rattle.bw_args.specs.Forms.{RunsFor};
ghost use Rattle.bw_args.specs.Lines.{AsksForPath, IsLineFor, IsWorkGiven, Verifying};
ghost use Rattle.bw_args.specs.Lines.{is_watch_mixed};
ghost use Rattle.bw_args.specs.VerifyOptions.{is_verify_mixed};

use super::network::flag_given;
use super::serving::folder_given;
use crate::{BadValue, CommandLine, FolderWork, TakesFolder, Task};
use bw_model::Name;
use clap::ArgMatches;
use std::alloc::{AllocError, Global};

/// The folder is looked at first.
pub(crate) fn takes_line(alloc: Global, options: &ArgMatches<'_>) -> Result<CommandLine, AllocError>
    ensures ok { IfOk result (IsLineFor (Some (codes "takes", rows_of (found_of options.now)))) }
    ensures err { OnErr result
        (AsksForPath (Some (codes "takes", rows_of (found_of options.now)))) }
{
    let Some(path) = folder_given(options) else {
        return Ok(CommandLine::BadValue(BadValue::Folder));
    };
    let watch = flag_given(options, "watch");
    let check = flag_given(options, "check");
    let json = flag_given(options, "json");
    let digest = flag_given(options, "digest");
    let name = options.get_str("give-up");
    let receipts = options.get_str("verify");
    if is_verify_mixed(watch, check, json, digest, name, receipts) {
        return Ok(CommandLine::BadValue(BadValue::Verify));
    }
    if let Some(receipts) = receipts {
        return verification(alloc, path, receipts);
    }
    if is_watch_mixed(watch, check, json, digest, name) {
        return Ok(CommandLine::BadValue(BadValue::Watch));
    }
    let Some(work) = work_of(watch, check, json, digest, name) else {
        return Ok(CommandLine::BadValue(BadValue::GiveUp));
    };
    let folder = String::from_str(alloc, path)?;
    Ok(CommandLine::Run(Task::Takes(TakesFolder { folder, work })))
}

/// Runs the comparison of a folder's takes with the receipts in a file.
fn verification(alloc: Global, folder: &str, receipts: &str) -> Result<CommandLine, AllocError>
    ensures { IfOk result (RunsFor (Verifying folder.now receipts.now)) }
{
    let folder = String::from_str(alloc, folder)?;
    let receipts = String::from_str(alloc, receipts)?;
    Ok(CommandLine::Run(Task::Verify { folder, receipts }))
}

/// Whether takes are to be compared with receipts, and something else is asked for beside it.
fn is_verify_mixed(
    watch: bool,
    check: bool,
    json: bool,
    digest: bool,
    name: Option<&str>,
    receipts: Option<&str>,
) -> bool
    ensures { result ≡ is_verify_mixed watch check json digest
        (option_map (λ text. text.now) name.entry) (option_map (λ text. text.now) receipts.entry) }
{
    receipts.is_some() && (watch || check || json || digest || name.is_some())
}

/// Whether takes are to be watched, and something else is asked for beside it.
fn is_watch_mixed(watch: bool, check: bool, json: bool, digest: bool, name: Option<&str>) -> bool
    ensures { result
        ≡ is_watch_mixed watch check json digest (option_map (λ text. text.now) name.entry) }
{
    watch && (check || json || digest || name.is_some())
}

/// What is done in a folder; none if a name is malformed, or options are given that don't go
/// together.
fn work_of(
    watch: bool,
    check: bool,
    json: bool,
    digest: bool,
    name: Option<&str>,
) -> Option<FolderWork>
    ensures { IsWorkGiven watch check json digest (option_map (λ text. text.now) name.entry) result }
{
    if is_watch_mixed(watch, check, json, digest, name) {
        return None;
    }
    if watch {
        return Some(FolderWork::Watch);
    }
    report_or_give_up(check, json, digest, name)
}

/// The same where takes aren't watched.
fn report_or_give_up(
    check: bool,
    json: bool,
    digest: bool,
    name: Option<&str>,
) -> Option<FolderWork>
    ensures { IsWorkGiven false check json digest (option_map (λ text. text.now) name.entry) result }
{
    let Some(text) = name else {
        return Some(FolderWork::Report {
            check,
            json,
            digest,
        });
    };
    if check || json || digest {
        return None;
    }
    match Name::new(text.as_bytes()) {
        Some(name) => Some(FolderWork::GiveUp(name)),
        None => None,
    }
}
