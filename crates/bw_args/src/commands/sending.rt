//! The command `send`.
ghost use Rattle.std.specs.Prelude.{◌≡◌, ◌||◌, codes, false, is_some, not, Some, None, IfOk, IfErr};
ghost use Rattle.std.specs.Prelude.{OnErr};
ghost use Rattle.clap.specs.Words.{first_value, found_of, rows_of};
ghost use Rattle.bw_args.specs.Given.{GivesAddress, GivesName, is_set};
ghost use Rattle.bw_args.specs.Lines.{AsksForPath, GivesTries, IsFirstBad, IsLineFor};
ghost use Rattle.bw_args.specs.LeftOutOptions.{is_left_out_mixed};
ghost use Rattle.bw_args.specs.Lines.{looked_at_trying};
ghost use Rattle.bw_args.specs.PcmSources.{GivesSamples};
ghost use Rattle.bw_args.specs.ReceiptOptions.{is_receipt_mixed};
ghost use Rattle.bw_args.specs.Sources.{has_files, is_mixed, path_given};

use super::left_out::is_left_out_mixed;
use super::name_given;
use super::network::{address_given, count_given, flag_given};
use super::receipts::{is_receipt_mixed, receipt_given};
use super::samples::{samples_given, samples_line};
use super::several::files_line;
use super::sources::{has_files, is_mixed, path_given, source_given, text_given};
use crate::{BadValue, CommandLine, FileSender, Send, Task, numbers};
use bw_model::Name;
use clap::ArgMatches;
use std::alloc::{AllocError, Global};
use std::net::SocketAddr;

/// What `send` results in, for several recordings or for at most one.
pub(crate) fn send_line(alloc: Global, options: &ArgMatches<'_>) -> Result<CommandLine, AllocError>
    ensures ok { IfOk result (IsLineFor (Some (codes "send", rows_of (found_of options.now)))) }
    ensures err { OnErr result
        (AsksForPath (Some (codes "send", rows_of (found_of options.now)))) }
{
    let Some(paths) = options.get_raw("files") else {
        return one_sender_line(alloc, options);
    };
    if paths.is_empty() {
        return one_sender_line(alloc, options);
    }
    files_line(alloc, options, paths)
}

/// What `send` results in for at most one recording. Bad values are reported in this order: the address,
/// the name, those of `tries_given`, options that don't belong together, those of a receipt, those of
/// what is kept, and those of `samples_given`.
fn one_sender_line(alloc: Global, options: &ArgMatches<'_>) -> Result<CommandLine, AllocError>
    requires alone { has_files (first_value (found_of options.now)) ≡ false }
    ensures ok { IfOk result (IsLineFor (Some (codes "send", rows_of (found_of options.now)))) }
    ensures err { OnErr result
        (AsksForPath (Some (codes "send", rows_of (found_of options.now)))) }
{
    let network = flag_given(options, "network");
    let Some(connect) = address_given(options, "connect", network) else {
        return Ok(CommandLine::BadValue(BadValue::Connect));
    };
    let Some(name) = name_given(options) else {
        return Ok(CommandLine::BadValue(BadValue::Name));
    };
    let tries = match tries_given(options) {
        Ok(tries) => tries,
        Err(value) => return Ok(CommandLine::BadValue(value)),
    };
    if is_mixed(options) {
        return Ok(CommandLine::BadValue(BadValue::Mixed));
    }
    if is_receipt_mixed(options) {
        return Ok(CommandLine::BadValue(BadValue::Receipt));
    }
    if is_left_out_mixed(options) {
        return Ok(CommandLine::BadValue(BadValue::LeftOut));
    }
    let samples = match samples_given(options) {
        Ok(samples) => samples,
        Err(value) => return Ok(CommandLine::BadValue(value)),
    };
    let Some(path) = path_given(options) else {
        return Ok(CommandLine::Run(Task::Send(Send {
            connect,
            name,
            rounds: tries.rounds.unwrap_or(numbers::DEFAULT_ROUNDS),
            timeout: tries.timeout,
        })));
    };
    match samples {
        Some(samples) => samples_line(alloc, options, path, connect, name, tries, samples),
        None => file_line(alloc, options, path, connect, name, tries),
    }
}

/// What `send` results in for the recording at a path.
fn file_line(
    alloc: Global,
    options: &ArgMatches<'_>,
    path: &str,
    connect: SocketAddr,
    name: Name,
    tries: Tries,
) -> Result<CommandLine, AllocError>
    requires connects { GivesAddress (is_set (first_value (found_of options.now) (codes "network")))
        (first_value (found_of options.now) (codes "connect")) connect }
    requires named { GivesName (first_value (found_of options.now) (codes "name")) name }
    requires takes { Some path.now ≡ path_given (first_value (found_of options.now)) }
    requires tries { GivesTries (first_value (found_of options.now)) tries }
    requires unmixed { is_mixed (first_value (found_of options.now)) ≡ false }
    requires receipted { is_receipt_mixed (first_value (found_of options.now)) ≡ false }
    requires kept { is_left_out_mixed (first_value (found_of options.now)) ≡ false }
    requires unsampled { GivesSamples (first_value (found_of options.now)) None }
    ensures ok { IfOk result (IsLineFor (Some (codes "send", rows_of (found_of options.now)))) }
    ensures err { OnErr result
        (AsksForPath (Some (codes "send", rows_of (found_of options.now)))) }
{
    let log = flag_given(options, "log");
    let source = source_given(alloc, options, path)?;
    let state = text_given(alloc, options, "state")?;
    let receipt = receipt_given(alloc, options)?;
    Ok(CommandLine::Run(Task::SendFile(FileSender {
        connect,
        name,
        source,
        timeout: tries.timeout.unwrap_or(numbers::DEFAULT_TIMEOUT),
        fruitless: tries.fruitless.unwrap_or(numbers::DEFAULT_FRUITLESS),
        log,
        state,
        receipt,
        rate: tries.rate,
    })))
}

/// How a sender tries, as far as it is given.
#[derive(Clone, Copy)]
pub(crate) struct Tries {
    pub(crate) rounds: Option<u32>,
    pub(crate) timeout: Option<u32>,
    pub(crate) fruitless: Option<u32>,
    pub(crate) rate: Option<u32>,
}

/// Whether neither a name nor a FILE is given.
pub(crate) fn lacks_name(options: &ArgMatches<'_>) -> bool
    ensures { result ≡ not (is_some (first_value (found_of options.now) (codes "name"))
        || has_files (first_value (found_of options.now))) }
{
    options.get_str("name").is_none() && !has_files(options)
}

/// How the options say that a sender tries.
///
/// # Errors
/// The first of these that is bad: the rounds, the timeout, the fruitless links, the rate.
pub(crate) fn tries_given(options: &ArgMatches<'_>) -> Result<Tries, BadValue>
    ensures ok { IfOk result (GivesTries (first_value (found_of options.now))) }
    ensures err { IfErr result (IsFirstBad looked_at_trying (first_value (found_of options.now))) }
{
    let Ok(rounds) = count_given(options, "rounds", numbers::MOST_ROUNDS) else {
        return Err(BadValue::Rounds);
    };
    let Ok(timeout) = count_given(options, "timeout", numbers::MOST_SECONDS) else {
        return Err(BadValue::Timeout);
    };
    let Ok(fruitless) = count_given(options, "fruitless", numbers::MOST_FRUITLESS) else {
        return Err(BadValue::Fruitless);
    };
    let Ok(rate) = count_given(options, "rate", numbers::MOST_RATE) else {
        return Err(BadValue::Rate);
    };
    Ok(Tries {
        rounds,
        timeout,
        fruitless,
        rate,
    })
}
