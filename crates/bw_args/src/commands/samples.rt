//! Headerless samples, and those of a file that is followed, as `send` takes them.
ghost use Rattle.std.specs.Prelude.{◌≡◌, codes, false, option_map, string_bytes, Some, IfOk, IfErr};
ghost use Rattle.std.specs.Prelude.{MatchOption, OnErr};
ghost use Rattle.clap.specs.Words.{first_value, found_of, rows_of};
ghost use Rattle.bw_args.specs.Given.{GivesAddress, GivesName, is_set};
ghost use Rattle.bw_args.specs.Lines.{AsksForPath, GivesTries, IsFirstBad, IsLineFor};
ghost use Rattle.bw_args.specs.LeftOutOptions.{is_left_out_mixed};
ghost use Rattle.bw_args.specs.Lines.{looked_at_samples};
ghost use Rattle.bw_args.specs.PcmSources.{GivesSamples, IsFormatGiven, IsFormatText, IsNumberGiven};
ghost use Rattle.bw_args.specs.PcmSources.{are_samples_mixed, at_comma, described_samples, fruitless_of};
ghost use Rattle.bw_args.specs.PcmSources.{is_growing_mixed, is_unpaired, plain_pcm, samples_with};
ghost use Rattle.bw_args.specs.PcmSources.{PlainPcm, is_live, plain_samples};
ghost use Rattle.bw_args.specs.ReceiptOptions.{is_receipt_mixed};
ghost use Rattle.bw_args.specs.Sources.{is_mixed, path_given};
ghost use Rattle.bw_args.specs.declared.commands.samples.WrittenFormat.{WrittenFormat};

use super::NoNumber;
use super::network::{count_given, flag_given};
use super::sending::Tries;
use super::sources::{path_given, source_given};
use crate::{BadValue, CommandLine, PcmSender, PcmSource, Task, numbers};
use bw_model::Name;
use clap::ArgMatches;
use std::alloc::{AllocError, Global};
use std::net::SocketAddr;

/// Headerless samples that the options describe.
#[derive(Clone, Copy)]
pub(crate) struct Samples<'a> {
    rate: u32,
    channels: u32,
    bits: u32,
    skip: u32,
    block: Option<u32>,
    until: Option<&'a str>,
    marks: Option<&'a str>,
    is_spooled: bool,
    defaults: bool,
    in_header: bool,
}

/// A format as it is written: whether there is such a format isn't checked.
#[derive(Clone, Copy)]
pub(crate) struct WrittenFormat {
    rate: u32,
    channels: u32,
    bits: u32,
}

/// The samples that the options describe, or none.
///
/// # Errors
/// The first of these that is bad: the format, the bytes before the samples, the frames of a block,
/// and options that don't belong together.
pub(crate) fn samples_given<'o>(
    options: &'o ArgMatches<'_>,
) -> Result<Option<Samples<'o>>, BadValue>
    ensures ok { IfOk result (λ samples.
        GivesSamples (first_value (found_of options.now)) (option_map plain_samples samples)) }
    ensures err { IfErr result
        (IsFirstBad looked_at_samples (first_value (found_of options.now))) }
{
    let Ok(format) = format_given(options) else {
        return Err(BadValue::Pcm);
    };
    let Ok(skip) = number_given(options, "skip") else {
        return Err(BadValue::Skip);
    };
    let Ok(block) = count_given(options, "block", numbers::MOST_BLOCK) else {
        return Err(BadValue::Block);
    };
    if are_mixed(options) {
        return Err(BadValue::MixedSamples);
    }
    let Some(format) = format else {
        return Ok(header_samples(options));
    };
    Ok(Some(Samples {
        rate: format.rate,
        channels: format.channels,
        bits: format.bits,
        skip: skip.unwrap_or(0),
        block,
        until: options.get_str("until"),
        marks: options.get_str("marks"),
        is_spooled: options.get_str("spool").is_some(),
        defaults: !flag_given(options, "no-defaults"),
        in_header: false,
    }))
}

/// The samples of a file with a header, where the options say that it is followed.
fn header_samples<'o>(options: &'o ArgMatches<'_>) -> Option<Samples<'o>>
    ensures { (samples : WrittenFormat → PlainPcm) → option_map plain_samples result
        ≡ described_samples samples (is_set (first_value (found_of options.now) (codes "follow")))
        (first_value (found_of options.now) (codes "until")) None }
{
    if !flag_given(options, "follow") {
        return None;
    }
    Some(Samples {
        rate: 0,
        channels: 0,
        bits: 0,
        skip: 0,
        block: None,
        until: options.get_str("until"),
        marks: None,
        is_spooled: false,
        defaults: false,
        in_header: true,
    })
}

/// The format that the options give, or none.
fn format_given(options: &ArgMatches<'_>) -> Result<Option<WrittenFormat>, NoNumber>
    ensures { IsFormatGiven (first_value (found_of options.now) (codes "pcm")) result }
{
    let Some(text) = options.get_str("pcm") else {
        return Ok(None);
    };
    match format_written(text) {
        Some(format) => Ok(Some(format)),
        None => Err(NoNumber),
    }
}

/// The format that a text spells: RATE,CHANNELS,BITS.
fn format_written(text: &str) -> Option<WrittenFormat>
    ensures { MatchOption result ((format : WrittenFormat) → ¬ IsFormatText text.now format)
        (λ format. IsFormatText text.now format) }
{
    let (rate, rest) = split_at_comma(text)?;
    let (channels, bits) = split_at_comma(rest)?;
    Some(WrittenFormat {
        rate: numbers::number(rate)?,
        channels: numbers::number(channels)?,
        bits: numbers::number(bits)?,
    })
}

/// What comes before the first comma of a text, and after it.
fn split_at_comma(text: &str) -> Option<(&str, &str)>
    ensures { option_map (λ parts. (parts.0.now, parts.1.now)) result ≡ at_comma text.now }
{
    text.split_once(',')
}

/// The number that the option of this name gives, or none.
fn number_given(options: &ArgMatches<'_>, option: &str) -> Result<Option<u32>, NoNumber>
    ensures { IsNumberGiven (first_value (found_of options.now) option.now) result }
{
    let Some(text) = options.get_str(option) else {
        return Ok(None);
    };
    match numbers::number(text) {
        Some(number) => Ok(Some(number)),
        None => Err(NoNumber),
    }
}

/// Whether options are given that aren't for one sender of samples.
fn are_mixed(options: &ArgMatches<'_>) -> bool
    ensures { result ≡ are_samples_mixed (first_value (found_of options.now)) }
{
    if options.get_str("pcm").is_some() {
        return path_given(options).is_none()
            || options.get_str("state").is_some()
            || is_unpaired(options);
    }
    options.get_str("skip").is_some()
        || options.get_str("block").is_some()
        || options.get_str("spool").is_some()
        || flag_given(options, "no-defaults")
        || options.get_str("marks").is_some()
        || is_growing_mixed(options)
}

/// Whether options are given that aren't for a recording whose file is still written: `--follow`
/// without a file, with a state, or with a refusal of what is lost, which isn't known yet; and
/// `--until` without it.
fn is_growing_mixed(options: &ArgMatches<'_>) -> bool
    ensures { result ≡ is_growing_mixed (first_value (found_of options.now)) }
{
    if flag_given(options, "follow") {
        return path_given(options).is_none()
            || options.get_str("state").is_some()
            || flag_given(options, "strict")
            || flag_given(options, "strict-texts");
    }
    options.get_str("until").is_some()
}

/// Whether options are given that don't say in one way when the recording has ended: beside
/// `--spool` another file, `--follow` or `--until`, and without it one of these two without the
/// other; or marks of one that has ended.
fn is_unpaired(options: &ArgMatches<'_>) -> bool
    ensures { result ≡ is_unpaired (first_value (found_of options.now)) }
{
    if options.get_str("spool").is_some() {
        return options.get_str("file").is_some()
            || flag_given(options, "follow")
            || options.get_str("until").is_some();
    }
    if flag_given(options, "follow") {
        return options.get_str("until").is_none();
    }
    options.get_str("until").is_some() || options.get_str("marks").is_some()
}

/// What `send` results in for samples in the file, or the spool, at a path.
pub(crate) fn samples_line(
    alloc: Global,
    options: &ArgMatches<'_>,
    path: &str,
    connect: SocketAddr,
    name: Name,
    tries: Tries,
    samples: Samples<'_>,
) -> Result<CommandLine, AllocError>
    requires connects { GivesAddress (is_set (first_value (found_of options.now) (codes "network")))
        (first_value (found_of options.now) (codes "connect")) connect }
    requires named { GivesName (first_value (found_of options.now) (codes "name")) name }
    requires takes { Some path.now ≡ path_given (first_value (found_of options.now)) }
    requires tries { GivesTries (first_value (found_of options.now)) tries }
    requires unmixed { is_mixed (first_value (found_of options.now)) ≡ false }
    requires unreceipted { is_receipt_mixed (first_value (found_of options.now)) ≡ false }
    requires kept { is_left_out_mixed (first_value (found_of options.now)) ≡ false }
    requires samples { GivesSamples (first_value (found_of options.now))
        (Some (plain_samples samples)) }
    ensures ok { IfOk result (IsLineFor (Some (codes "send", rows_of (found_of options.now)))) }
    ensures err { OnErr result
        (AsksForPath (Some (codes "send", rows_of (found_of options.now)))) }
{
    let log = flag_given(options, "log");
    let source = source_given(alloc, options, path)?;
    let pcm = pcm_source(alloc, samples)?;
    Ok(CommandLine::Run(Task::SendPcm(PcmSender {
        connect,
        name,
        source,
        pcm,
        timeout: tries.timeout.unwrap_or(numbers::DEFAULT_TIMEOUT),
        fruitless: most_fruitless(samples, tries.fruitless),
        log,
        rate: tries.rate,
    })))
}

/// The same samples, with a path of their own.
fn pcm_source(alloc: Global, samples: Samples<'_>) -> Result<PcmSource, AllocError>
    ensures { IfOk result (λ source. plain_pcm source ≡ plain_samples samples.entry) }
{
    let until = owned(alloc, samples.until)?;
    let marks = owned(alloc, samples.marks)?;
    Ok(PcmSource {
        rate: samples.rate,
        channels: samples.channels,
        bits: samples.bits,
        skip: samples.skip,
        block: samples.block,
        until,
        marks,
        is_spooled: samples.is_spooled,
        defaults: samples.defaults,
        in_header: samples.in_header,
    })
}

fn owned(alloc: Global, path: Option<&str>) -> Result<Option<String>, AllocError>
    ensures { IfOk result (λ owned. option_map string_bytes owned
        ≡ option_map (λ path. path.now) path.entry) }
{
    match path {
        Some(path) => Ok(Some(String::from_str(alloc, path)?)),
        None => Ok(None),
    }
}

/// After how many links in a row that settle nothing a sender of these samples gives up.
fn most_fruitless(samples: Samples<'_>, given: Option<u32>) -> Option<u32>
    ensures { result ≡ fruitless_of (is_live (plain_samples samples.entry)) given }
{
    if samples.until.is_some() || samples.is_spooled || samples.in_header {
        return given;
    }
    Some(given.unwrap_or(numbers::DEFAULT_FRUITLESS))
}
