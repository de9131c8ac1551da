//! A spool is held for a recording that was begun at a moment, which its line keeps.
ghost use Rattle.std.specs.Prelude.{◌≡◌, ◌++◌, ◌<◌, ◌≤◌, ◌^◌, ℕ, List, Option, Some, IfOk, codes, decimal};
ghost use Rattle.std.specs.Prelude.{length, string_bytes};
ghost use Rattle.bw_live.specs.BegunSpools.{FillsFile, FindsBegin, FindsFilled, HoldsBegun, IsFilledBy};
ghost use Rattle.bw_live.specs.BegunSpools.{SaysBegun, begun_name as name_by};

use crate::filled::Filled;
use bw_console::print::give_up;
use bw_console::{Exit, Fault, report_unopened};
use bw_ports::{Purpose, SpoolKeeper, StateFiles, hold_spool, purpose_line};
use bw_stream::Sink;
use itoa::Buffer;
use std::alloc::{AllocError, Global};
use std::io;

/// What the path of the file with a spool's line has more than the spool's.
const BINDING: &str = ".for";

/// The most bytes of that file that are read: more than a line has.
const MOST_BOUND: usize = 256;

/// What stands between the name and the moment.
const BEGAN: &[u8] = b" began=";

/// How many bytes of a line come before the name.
const BEFORE_NAME: usize = 5;

/// How many bytes of a line come before the moment, besides the name.
const BEFORE_MOMENT: usize = 12;

/// What a spool is held for.
#[derive(Clone, Copy)]
pub struct SpoolWish<'a> {
    /// Where it is.
    pub path: &'a str,
    /// The take, and the form of its samples.
    pub purpose: Purpose<'a>,
    /// When a recording that begins now begins, in milliseconds after the start of 1970 (UTC); None if no
    /// field is to be filled.
    pub started: Option<u64>,
}

/// Holds a spool, and returns when the recording in it was begun: now, if it holds nothing; else as its
/// line says, which is None of a spool that another version or `--no-defaults` began.
///
/// # Errors
/// How the command ends because it isn't held, which is reported: `Device`, or `Memory` if memory was
/// refused.
///
/// # Not specified
/// When it isn't held.
pub fn hold_begun<S: StateFiles, K: SpoolKeeper, E: Sink>(
    alloc: Global,
    wish: &SpoolWish<'_>,
    states: &mut S,
    keeper: &mut K,
    faults: &mut E,
) -> Result<Option<u64>, Exit>
    // It is held for the line that says so.
    ensures { HoldsBegun S.StateFiles K.SpoolKeeper E.Sink wish.now result states.old keeper.old keeper.new
        faults.old faults.new }
{
    let began = match begin_of(alloc, wish, states) {
        Ok(began) => began,
        Err(error) => return Err(report_unopened(alloc, wish.path, &error, faults)),
    };
    let Ok(name) = begun_name(alloc, wish.purpose.name, began) else {
        return Err(give_up(faults, &Fault::Memory));
    };
    let purpose = Purpose {
        name: name.as_slice(),
        ..wish.purpose
    };
    match hold_spool(alloc, wish.path, &purpose, keeper, faults) {
        Ok(()) => Ok(began),
        Err(exit) => Err(exit),
    }
}

/// Which fields are filled of the samples in a file: if a spool's line is at its side, for this take, the
/// same as of that spool; else those that are the same in each run.
///
/// # Errors
/// How the command ends because that line can't be read, which is reported: `Device`, or `Memory` if memory
/// was refused.
///
/// # Not specified
/// When it can't be read.
pub fn filled_of_file<S: StateFiles, E: Sink>(
    alloc: Global,
    wish: &SpoolWish<'_>,
    states: &mut S,
    faults: &mut E,
) -> Result<Filled, Exit>
    ensures { FillsFile S.StateFiles E.Sink wish.now result states.old faults.old faults.new }
{
    match filled_at(alloc, wish, states) {
        Ok(filled) => Ok(filled),
        Err(error) => Err(report_unopened(alloc, wish.path, &error, faults)),
    }
}

/// Which fields are filled of the samples in a file.
///
/// # Errors
/// If the system failed, or memory was refused.
fn filled_at<S: StateFiles>(
    alloc: Global,
    wish: &SpoolWish<'_>,
    states: &mut S,
) -> io::Result<Filled>
    ensures { IfOk result (FindsFilled S.StateFiles wish.now states.old) }
{
    let Some(_now) = wish.started else {
        return Ok(Filled::Nothing);
    };
    let at = binding_of(alloc, wish.path)?;
    let text = states.read(at.as_str(), MOST_BOUND)?;
    Ok(filled_by(alloc, &wish.purpose, text.as_slice())?)
}

/// Which fields are filled, by the text at a file's side.
///
/// # Errors
/// `AllocError` if memory was refused.
fn filled_by(alloc: Global, purpose: &Purpose<'_>, text: &[u8]) -> Result<Filled, AllocError>
    ensures { IfOk result (IsFilledBy purpose.now text.now) }
{
    if let Some(moment) = begun_in(alloc, purpose, text)? {
        return Ok(Filled::Begun(moment));
    }
    let plain = purpose_line(alloc, purpose)?;
    if plain.as_slice() == text {
        Ok(Filled::Nothing)
    } else {
        Ok(Filled::Steady)
    }
}

/// When the recording in a spool was begun.
///
/// # Errors
/// If the system failed, or memory was refused.
fn begin_of<S: StateFiles>(
    alloc: Global,
    wish: &SpoolWish<'_>,
    states: &mut S,
) -> io::Result<Option<u64>>
    ensures { IfOk result (FindsBegin S.StateFiles wish.now states.old) }
{
    let Some(now) = wish.started else {
        return Ok(None);
    };
    let at = binding_of(alloc, wish.path)?;
    let held = states.read(wish.path, 1)?;
    if held.is_empty() {
        return Ok(Some(now));
    }
    let text = states.read(at.as_str(), MOST_BOUND)?;
    Ok(begun_in(alloc, &wish.purpose, text.as_slice())?)
}

/// Where the line of the spool at a path is.
///
/// # Errors
/// `AllocError` if memory was refused.
fn binding_of(alloc: Global, path: &str) -> Result<String, AllocError>
    ensures { IfOk result (λ at. string_bytes at ≡ path.now ++ codes ".for") }
{
    let mut at = String::from_str(alloc, path)?;
    at.push_str(BINDING)?;
    Ok(at)
}

/// When a recording for this purpose was begun, by the line of its spool; None if that doesn't say it.
///
/// # Errors
/// `AllocError` if memory was refused.
fn begun_in(alloc: Global, purpose: &Purpose<'_>, text: &[u8]) -> Result<Option<u64>, AllocError>
    ensures { IfOk result (SaysBegun purpose.now text.now) }
{
    let plain = purpose_line(alloc, purpose)?;
    let before = BEFORE_MOMENT + purpose.name.len();
    let after = plain.len().saturating_sub(BEFORE_NAME + purpose.name.len());
    let Some(moment) = number_between(text, before, after) else {
        return Ok(None);
    };
    let name = begun_name(alloc, purpose.name, Some(moment))?;
    let line = purpose_line(
        alloc,
        &Purpose {
            name: name.as_slice(),
            ..*purpose
        },
    )?;
    if line.as_slice() == text {
        Ok(Some(moment))
    } else {
        Ok(None)
    }
}

/// The number in a text that so many bytes come before, and so many after.
fn number_between(text: &[u8], before: usize, after: usize) -> Option<u64>
    ensures { (n : ℕ) → n < 2 ^ 64 → (head tail : List ℕ) → text.now ≡ head ++ decimal n ++ tail →
        length head ≡ before → length tail ≡ after → result ≡ Some n }
{
    let end = text.len().saturating_sub(after);
    if end < before {
        return None;
    }
    match std::str::from_utf8(&text[before..end]) {
        Ok(digits) => digits.parse::<u64>().ok(),
        Err(_) => None,
    }
}

/// What names a take in a line: its name, and when its recording was begun, if that is kept.
///
/// # Errors
/// `AllocError` if memory was refused.
fn begun_name(alloc: Global, name: &[u8], began: Option<u64>) -> Result<Vec<u8>, AllocError>
    ensures { IfOk result (λ v. v.items ≡ name_by name.now began) }
{
    let Some(moment) = began else {
        return Vec::from_slice(alloc, name);
    };
    let mut bytes = Vec::from_slice(alloc, name)?;
    bytes.extend_from_slice(BEGAN)?;
    bytes.extend_from_slice(Buffer::new().format(moment).as_bytes())?;
    Ok(bytes)
}
