//! The line of a take on a screen.
ghost use Rattle.std.specs.Prelude.{◌≡◌, ◌++◌, ◌≤◌, OnOk, Some};
ghost use Rattle.bw_takes.specs.FolderProgress.{progress_word};
ghost use Rattle.bw_takes.specs.Screens.{age_text, cell, hours_text, growth_text, recorded_text};
ghost use Rattle.bw_takes.specs.Screens.{row_text, seconds_text};

use crate::line::cause_word;
use crate::progress::ProgressState;
use crate::screen::{Row, ScreenStyle, line_end};
use std::alloc::{AllocError, Global};

/// What fills a column.
const BLANKS: &[u8] = b"            ";

/// Appends the line of a take.
#[tactic(auto, using(std::proofs::lemmas::List::append_assoc))]
pub(crate) fn put_row(
    alloc: Global,
    style: ScreenStyle,
    row: &Row,
    text: &mut Vec<u8>,
) -> Result<(), AllocError>
    ensures { OnOk result (text.new.items ≡ text.old.items ++ row_text style row.now) }
{
    put_cell(word_of(row.take.state).as_bytes(), 12, text)?;
    put_recorded(alloc, row.take.frames, row.take.rate, text)?;
    put_growth(alloc, row.growth, row.take.rate, text)?;
    put_age(alloc, row.unchanged, text)?;
    text.extend_from_slice(row.take.name.as_bytes())?;
    text.extend_from_slice(line_end(style))
}

/// The word for a state.
fn word_of(state: ProgressState) -> &'static str
    ensures { result.now ≡ progress_word state }
{
    match state {
        ProgressState::Open => "open",
        ProgressState::Closed => "closed",
        ProgressState::Unopened => "unopened",
        ProgressState::Stood => "stood",
        ProgressState::Faulty(fault) => cause_word(&fault),
        ProgressState::Changed => "ChangedBlock",
    }
}

/// Appends how long so many frames last at a rate.
fn put_recorded(alloc: Global, frames: u64, rate: u32, text: &mut Vec<u8>) -> Result<(), AllocError>
    ensures { OnOk result (text.new.items ≡ text.old.items ++ cell 10 (recorded_text frames rate)) }
{
    if rate == 0 {
        return put_cell(b"-", 10, text);
    }
    put_clock(alloc, frames / u64::from(rate), text)
}

/// Appends so many seconds as hours, minutes and seconds.
#[tactic(auto, unfolding(crate::specs::Screens::hours_text))]
fn put_clock(alloc: Global, seconds: u64, text: &mut Vec<u8>) -> Result<(), AllocError>
    ensures { OnOk result (text.new.items ≡ text.old.items ++ cell 10 (hours_text seconds)) }
{
    let (hours, tens, minutes) = (seconds / 3600, seconds / 600 % 6, seconds / 60 % 10);
    let (late, last) = (seconds / 10 % 6, seconds % 10);
    let clock = format!(in alloc; "{hours}:{tens}{minutes}:{late}{last}")?;
    put_cell(clock.as_bytes(), 10, text)
}

/// Appends how long the frames last that came.
fn put_growth(
    alloc: Global,
    growth: Option<u64>,
    rate: u32,
    text: &mut Vec<u8>,
) -> Result<(), AllocError>
    ensures { OnOk result (text.new.items ≡ text.old.items ++ cell 9 (growth_text growth rate)) }
{
    match growth {
        Some(frames) => put_grown(alloc, frames, rate, text),
        None => put_cell(b"-", 9, text),
    }
}

/// The same of so many frames.
fn put_grown(alloc: Global, frames: u64, rate: u32, text: &mut Vec<u8>) -> Result<(), AllocError>
    ensures { OnOk result (text.new.items
        ≡ text.old.items ++ cell 9 (growth_text (Some frames) rate)) }
{
    if rate == 0 {
        return put_cell(b"-", 9, text);
    }
    let rate = u64::from(rate);
    put_seconds(alloc, frames / rate, frames % rate * 1000 / rate, text)
}

/// Appends whole seconds and thousandths of one.
#[tactic(auto, unfolding(crate::specs::Screens::seconds_text))]
fn put_seconds(alloc: Global, whole: u64, part: u64, text: &mut Vec<u8>) -> Result<(), AllocError>
    ensures { OnOk result (text.new.items ≡ text.old.items ++ cell 9 (seconds_text whole part)) }
{
    let (tenths, hundredths, thousandths) = (part / 100, part / 10 % 10, part % 10);
    let seconds = format!(in alloc; "{whole}.{tenths}{hundredths}{thousandths} s")?;
    put_cell(seconds.as_bytes(), 9, text)
}

/// Appends for how many screens nothing came.
#[tactic(auto, unfolding(crate::specs::Screens::age_text))]
fn put_age(alloc: Global, age: u64, text: &mut Vec<u8>) -> Result<(), AllocError>
    ensures { OnOk result (text.new.items ≡ text.old.items ++ cell 9 (age_text age)) }
{
    let seconds = format!(in alloc; "{age} s")?;
    put_cell(seconds.as_bytes(), 9, text)
}

/// Appends a text and what fills its column.
#[tactic(auto, using(std::proofs::lemmas::List::append_assoc))]
fn put_cell(word: &[u8], width: usize, text: &mut Vec<u8>) -> Result<(), AllocError>
    requires { width ≤ 12 }
    ensures { OnOk result (text.new.items ≡ text.old.items ++ cell width word.now) }
{
    text.extend_from_slice(word)?;
    text.extend_from_slice(&BLANKS[..width.saturating_sub(word.len())])?;
    text.extend_from_slice(b"  ")
}
