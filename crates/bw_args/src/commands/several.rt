//! Several recordings, as `send` takes them.
ghost use Rattle.std.specs.Prelude.{◌≡◌, codes, false, map, option_map, true, Some, IfOk, OnErr};
ghost use Rattle.clap.specs.Words.{first_value, found_of, matched_of, raw_values, rows_of};
ghost use Rattle.bw_args.specs.Given.{GivesAddress, is_set};
ghost use Rattle.bw_args.specs.Lines.{AsksForPath, GivesTries, IsLineFor};
ghost use Rattle.bw_args.specs.ReceiptOptions.{is_receipt_mixed};
ghost use Rattle.bw_args.specs.SeveralRecordings.{is_files_mixed, is_sampled, is_for_live};
ghost use Rattle.bw_args.specs.Sources.{has_files};

use super::network::{address_given, flag_given};
use super::receipts::{is_receipt_mixed, receipt_given};
use super::sending::{Tries, tries_given};
use super::sources::{copies_of, settings_given, text_given};
use crate::{BadValue, CommandLine, FilesSender, Task, numbers};
use clap::ArgMatches;
use std::alloc::{AllocError, Global};
use std::net::SocketAddr;

/// What `send` results in for the recordings at these paths. Bad values are reported in this order: options
/// that are for one recording alone, the address, those of `tries_given`, and those of a receipt.
pub fn files_line(
    alloc: Global,
    options: &ArgMatches<'_>,
    paths: &[&str],
) -> Result<CommandLine, AllocError>
    requires some { has_files (first_value (found_of options.now)) ≡ true }
    requires takes { Some (map (λ path. path.now) paths.now)
        ≡ option_map raw_values (matched_of (found_of options.now) (codes "files")) }
    ensures ok { IfOk result (IsLineFor (Some (codes "send", rows_of (found_of options.now)))) }
    ensures err { OnErr result
        (AsksForPath (Some (codes "send", rows_of (found_of options.now)))) }
{
    if is_files_mixed(options) {
        return Ok(CommandLine::BadValue(BadValue::Files));
    }
    let network = flag_given(options, "network");
    let Some(connect) = address_given(options, "connect", network) else {
        return Ok(CommandLine::BadValue(BadValue::Connect));
    };
    let tries = match tries_given(options) {
        Ok(tries) => tries,
        Err(value) => return Ok(CommandLine::BadValue(value)),
    };
    if is_receipt_mixed(options) {
        return Ok(CommandLine::BadValue(BadValue::Receipt));
    }
    sender_line(alloc, options, paths, connect, tries)
}

/// The task that sends the recordings at these paths.
pub fn sender_line(
    alloc: Global,
    options: &ArgMatches<'_>,
    paths: &[&str],
    connect: SocketAddr,
    tries: Tries,
) -> Result<CommandLine, AllocError>
    requires some { has_files (first_value (found_of options.now)) ≡ true }
    requires takes { Some (map (λ path. path.now) paths.now)
        ≡ option_map raw_values (matched_of (found_of options.now) (codes "files")) }
    requires unmixed { is_files_mixed (first_value (found_of options.now)) ≡ false }
    requires connects { GivesAddress (is_set (first_value (found_of options.now) (codes "network")))
        (first_value (found_of options.now) (codes "connect")) connect }
    requires tries { GivesTries (first_value (found_of options.now)) tries }
    requires receipted { is_receipt_mixed (first_value (found_of options.now)) ≡ false }
    ensures ok { IfOk result (IsLineFor (Some (codes "send", rows_of (found_of options.now)))) }
    ensures err { OnErr result
        (AsksForPath (Some (codes "send", rows_of (found_of options.now)))) }
{
    let strict = flag_given(options, "strict");
    let strict_texts = flag_given(options, "strict-texts");
    let log = flag_given(options, "log");
    let paths = copies_of(alloc, paths)?;
    let names = text_given(alloc, options, "names")?;
    let settings = settings_given(alloc, options)?;
    let states = text_given(alloc, options, "state")?;
    let receipt = receipt_given(alloc, options)?;
    Ok(CommandLine::Run(Task::SendFiles(FilesSender {
        connect,
        paths,
        names,
        settings,
        strict,
        strict_texts,
        timeout: tries.timeout.unwrap_or(numbers::DEFAULT_TIMEOUT),
        fruitless: tries.fruitless.unwrap_or(numbers::DEFAULT_FRUITLESS),
        log,
        states,
        receipt,
        rate: tries.rate,
    })))
}

/// Whether options are given that are for one recording alone.
pub fn is_files_mixed(options: &ArgMatches<'_>) -> bool
    ensures { result ≡ is_files_mixed (first_value (found_of options.now)) }
{
    options.get_str("rounds").is_some()
        || options.get_str("name").is_some()
        || options.get_str("file").is_some()
        || options.get_str("keep-left-out").is_some()
        || is_sampled(options)
}

/// Whether an option says something about headerless samples.
fn is_sampled(options: &ArgMatches<'_>) -> bool
    ensures { result ≡ is_sampled (first_value (found_of options.now)) }
{
    options.get_str("pcm").is_some()
        || options.get_str("skip").is_some()
        || options.get_str("block").is_some()
        || flag_given(options, "follow")
        || options.get_str("until").is_some()
        || is_for_live(options)
}

/// Whether an option says where live samples are kept, or what else their take has.
fn is_for_live(options: &ArgMatches<'_>) -> bool
    ensures { result ≡ is_for_live (first_value (found_of options.now)) }
{
    options.get_str("spool").is_some()
        || flag_given(options, "no-defaults")
        || options.get_str("marks").is_some()
}
