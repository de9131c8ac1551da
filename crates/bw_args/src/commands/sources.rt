//! The file of a recording, as `send` and `pack` take it.
ghost use Rattle.std.specs.Prelude.{◌≡◌, ◌||◌, codes, is_some, map, option_map, string_bytes, IfOk};
ghost use Rattle.clap.specs.Words.{first_value, found_of, rows_of};
ghost use Rattle.bw_args.specs.Given.{is_set};
ghost use Rattle.bw_args.specs.Sources.{has_files, is_mixed, is_source_mixed};
ghost use Rattle.bw_args.specs.Sources.{path_given, settings_on_line};

use super::network::flag_given;
use crate::SourceFile;
use clap::ArgMatches;
use std::alloc::{AllocError, Global};

/// The file at this path, with what the options say about it.
pub(crate) fn source_given(
    alloc: Global,
    options: &ArgMatches<'_>,
    path: &str,
) -> Result<SourceFile, AllocError>
    ensures { IfOk result (λ source.
        (string_bytes source.path ≡ path.now)
        × (map string_bytes source.settings.items ≡ settings_on_line (rows_of (found_of options.now)))
        × (source.strict ≡ is_set (first_value (found_of options.now) (codes "strict")))
        × (source.strict_texts ≡ is_set (first_value (found_of options.now) (codes "strict-texts")))
        × (option_map string_bytes source.left_out
        ≡ first_value (found_of options.now) (codes "keep-left-out"))) }
{
    Ok(SourceFile {
        path: String::from_str(alloc, path)?,
        settings: settings_given(alloc, options)?,
        strict: flag_given(options, "strict"),
        strict_texts: flag_given(options, "strict-texts"),
        left_out: text_given(alloc, options, "keep-left-out")?,
    })
}

/// The path of what is sent, if the options give one: of the file of a recording, or of the spool of
/// standard input.
pub(crate) fn path_given<'a>(options: &ArgMatches<'a>) -> Option<&'a str>
    ensures { option_map (λ path. path.now) result ≡ path_given (first_value (found_of options.now)) }
{
    match options.get_str("file") {
        Some(path) => Some(path),
        None => options.get_str("spool"),
    }
}

/// A copy of the text that the option of this name gives, if it gives one.
pub(crate) fn text_given(
    alloc: Global,
    options: &ArgMatches<'_>,
    option: &str,
) -> Result<Option<String>, AllocError>
    ensures { IfOk result (λ text.
        option_map string_bytes text ≡ first_value (found_of options.now) option.now) }
{
    match options.get_str(option) {
        Some(path) => Ok(Some(String::from_str(alloc, path)?)),
        None => Ok(None),
    }
}

/// What the options set, in their order.
pub(crate) fn settings_given(
    alloc: Global,
    options: &ArgMatches<'_>,
) -> Result<Vec<String>, AllocError>
    ensures { IfOk result (λ settings.
        map string_bytes settings.items ≡ settings_on_line (rows_of (found_of options.now))) }
{
    match options.get_raw("set") {
        Some(texts) => copies_of(alloc, texts),
        None => Ok(Vec::new(alloc)),
    }
}

/// A copy of each text.
pub(crate) fn copies_of(alloc: Global, texts: &[&str]) -> Result<Vec<String>, AllocError>
    ensures { IfOk result (λ copies.
        map string_bytes copies.items ≡ map (λ text. text.now) texts.now) }
{
    let mut copies = Vec::new(alloc);
    for text in texts {
        copies.push(String::from_str(alloc, text)?)?;
    }
    Ok(copies)
}

/// Whether a FILE is given as a word of its own.
pub fn has_files(options: &ArgMatches<'_>) -> bool
    ensures { result ≡ has_files (first_value (found_of options.now)) }
{
    options.get_str("files").is_some()
}

/// Whether options are given that aren't for one sender of at most one recording: a FILE, `--names`, or
/// those that aren't for one source.
pub fn is_mixed(options: &ArgMatches<'_>) -> bool
    ensures { result ≡ is_mixed (first_value (found_of options.now)) }
{
    has_files(options) || options.get_str("names").is_some() || is_source_mixed(options)
}

/// Whether options are given that aren't for one source: those of a recording without a file or a spool,
/// or a number of rounds with one.
fn is_source_mixed(options: &ArgMatches<'_>) -> bool
    ensures { result ≡ is_source_mixed (first_value (found_of options.now)) }
{
    if path_given(options).is_some() {
        return options.get_str("rounds").is_some();
    }
    options.get_str("set").is_some()
        || options.get_str("fruitless").is_some()
        || options.get_str("state").is_some()
        || options.get_str("rate").is_some()
        || options.get_str("receipt").is_some()
        || is_kept_or_has_flag(options)
}

/// Whether chunks are to be kept, or a flag is given that is for a recording's sender alone.
fn is_kept_or_has_flag(options: &ArgMatches<'_>) -> bool
    ensures { result ≡ (is_some (first_value (found_of options.now) (codes "keep-left-out"))
        || (is_set (first_value (found_of options.now) (codes "json"))
        || (is_set (first_value (found_of options.now) (codes "strict"))
        || (is_set (first_value (found_of options.now) (codes "strict-texts"))
        || is_set (first_value (found_of options.now) (codes "log")))))) }
{
    options.get_str("keep-left-out").is_some() || has_flag(options)
}

/// Whether a flag is given that is for a recording's sender alone.
fn has_flag(options: &ArgMatches<'_>) -> bool
    ensures { result ≡ (is_set (first_value (found_of options.now) (codes "json"))
        || (is_set (first_value (found_of options.now) (codes "strict"))
        || (is_set (first_value (found_of options.now) (codes "strict-texts"))
        || is_set (first_value (found_of options.now) (codes "log"))))) }
{
    flag_given(options, "json")
        || flag_given(options, "strict")
        || flag_given(options, "strict-texts")
        || flag_given(options, "log")
}
