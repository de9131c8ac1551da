//! A screen of takes.
ghost use Rattle.std.specs.Prelude.{◌≡◌, ◌++◌, decimal, flat_map, IfOk, OnOk};
ghost use Rattle.bw_takes.specs.Screens.{first_row as first_of, next_row as next_of};
ghost use Rattle.bw_takes.specs.Screens.{row_after as after};
ghost use Rattle.bw_takes.specs.Screens.{all_word, column_names, open_word};
ghost use Rattle.bw_takes.specs.Screens.{head_text, is_open_state, open_count as count_of};
ghost use Rattle.bw_takes.specs.Screens.{rows_after as all_after, takes_text, text_if};
ghost use Rattle.bw_takes.specs.Screens.{line_end as line_ends, screen_end as ends_with};
ghost use Rattle.bw_takes.specs.Screens.{screen_start as starts_with, screen_text as text_of};

use crate::progress::{ProgressState, TakeProgress};
use crate::row::put_row;
use std::alloc::{AllocError, Global};

/// What screens are written to.
#[derive(Clone, Copy, Debug, PartialEq, Eq)]
pub enum ScreenStyle {
    /// A terminal: each screen replaces the one before, and what doesn't fit is cut.
    Terminal,
    /// Anything else: the lines of one screen after those of another, and an empty line between.
    Lines,
}

/// A take on a screen.
#[derive(Drop)]
pub struct Row {
    pub take: TakeProgress,
    /// How many frames came since the screen before; none if the take wasn't on it.
    pub growth: Option<u64>,
    /// For how many screens before this one its next number was the same.
    pub unchanged: u64,
}

/// A screen, and its rows.
#[derive(Drop)]
pub(crate) struct Screen {
    pub(crate) text: Vec<u8>,
    pub(crate) rows: Vec<Row>,
}

/// The screen of takes after one with these rows.
pub(crate) fn make_screen(
    alloc: Global,
    style: ScreenStyle,
    takes: &[TakeProgress],
    before: &[Row],
) -> Result<Screen, AllocError>
    ensures rows { IfOk result (λ screen. screen.rows.items ≡ all_after before.now takes.now) }
    ensures text { IfOk result (λ screen.
        screen.text.items ≡ text_of style (all_after before.now takes.now)) }
{
    let rows = rows_after(alloc, takes, before)?;
    let text = screen_text(alloc, style, rows.as_slice())?;
    Ok(Screen { text, rows })
}

/// The rows of takes after a screen with these.
fn rows_after(alloc: Global, takes: &[TakeProgress], before: &[Row]) -> Result<Vec<Row>, AllocError>
    ensures { IfOk result (λ rows. rows.items ≡ all_after before.now takes.now) }
{
    let mut rows = Vec::new(alloc);
    for take in takes {
        rows.push(row_after(take, before))?;
    }
    Ok(rows)
}

/// The row of a take after a screen with these.
fn row_after(take: &TakeProgress, before: &[Row]) -> Row
    ensures { result ≡ after before.now take.now }
{
    for row in before {
        if row.take.name.as_bytes() == take.name.as_bytes() {
            return next_row(take, row);
        }
    }
    first_row(take)
}

/// The row of a take that wasn't on the screen before.
fn first_row(take: &TakeProgress) -> Row
    ensures { result ≡ first_of take.now }
{
    Row {
        take: copy_of(take),
        growth: None,
        unchanged: 0,
    }
}

/// The row of a take that had this one on the screen before.
fn next_row(take: &TakeProgress, row: &Row) -> Row
    ensures { result ≡ next_of take.now row.now }
{
    let unchanged = if take.next == row.take.next {
        row.unchanged.saturating_add(1)
    } else {
        0
    };
    Row {
        take: copy_of(take),
        growth: Some(take.frames.saturating_sub(row.take.frames)),
        unchanged,
    }
}

fn copy_of(take: &TakeProgress) -> TakeProgress
    ensures { result ≡ take.now }
{
    TakeProgress {
        name: take.name.copy(),
        state: take.state,
        frames: take.frames,
        rate: take.rate,
        next: take.next,
    }
}

/// The text of a screen with these rows.
#[tactic(auto, using(std::proofs::lemmas::List::append_assoc))]
fn screen_text(alloc: Global, style: ScreenStyle, rows: &[Row]) -> Result<Vec<u8>, AllocError>
    ensures { IfOk result (λ text. text.items ≡ text_of style rows.now) }
{
    let mut text = Vec::new(alloc);
    text.extend_from_slice(screen_start(style))?;
    put_head(alloc, style, rows, &mut text)?;
    put_rows(alloc, style, true, rows, &mut text)?;
    put_rows(alloc, style, false, rows, &mut text)?;
    text.extend_from_slice(screen_end(style))?;
    Ok(text)
}

/// Appends the lines above the takes.
#[tactic(auto, using(std::proofs::lemmas::List::append_assoc), unfolding(crate::specs::Screens::head_text))]
fn put_head(
    alloc: Global,
    style: ScreenStyle,
    rows: &[Row],
    text: &mut Vec<u8>,
) -> Result<(), AllocError>
    ensures { OnOk result (text.new.items ≡ text.old.items ++ head_text style rows.now) }
{
    put_counts(alloc, open_count(rows) as u64, rows.len() as u64, text)?;
    text.extend_from_slice(line_end(style))?;
    text.extend_from_slice(heading())?;
    text.extend_from_slice(line_end(style))
}

/// How many takes are open.
fn open_count(rows: &[Row]) -> usize
    ensures { result ≡ count_of rows.now }
{
    let mut count = 0;
    for row in rows {
        if is_open(row.take.state) {
            count += 1;
        }
    }
    count
}

/// Appends how many takes there are.
#[tactic(auto, using(std::proofs::lemmas::List::append_assoc))]
fn put_counts(alloc: Global, opened: u64, all: u64, text: &mut Vec<u8>) -> Result<(), AllocError>
    ensures { OnOk result (text.new.items ≡ text.old.items ++ takes_text opened all) }
{
    put_count(alloc, opened, word_for_open(), text)?;
    put_count(alloc, all, word_for_all(), text)
}

/// Appends a number and the word after it.
#[tactic(auto, using(std::proofs::lemmas::List::append_assoc))]
fn put_count(alloc: Global, number: u64, word: &[u8], text: &mut Vec<u8>) -> Result<(), AllocError>
    ensures { OnOk result (text.new.items ≡ text.old.items ++ (decimal number ++ word.now)) }
{
    let digits = format!(in alloc; "{number}")?;
    text.extend_from_slice(digits.as_bytes())?;
    text.extend_from_slice(word)
}

#[tactic(auto, unfolding(crate::specs::Screens::open_word))]
fn word_for_open() -> &'static [u8]
    ensures { result.now ≡ open_word }
{
    b" open, "
}

#[tactic(auto, unfolding(crate::specs::Screens::all_word))]
fn word_for_all() -> &'static [u8]
    ensures { result.now ≡ all_word }
{
    b" in all"
}

/// The names of the columns.
#[tactic(auto, unfolding(crate::specs::Screens::column_names))]
fn heading() -> &'static [u8]
    ensures { result.now ≡ column_names }
{
    b"STATE         RECORDED    GROWTH     UNCHANGED  NAME"
}

/// Appends the lines of the open takes, or of the others.
fn put_rows(
    alloc: Global,
    style: ScreenStyle,
    opened: bool,
    rows: &[Row],
    text: &mut Vec<u8>,
) -> Result<(), AllocError>
    ensures { OnOk result (text.new.items
        ≡ text.old.items ++ flat_map (text_if opened style) rows.now) }
{
    for row in rows {
        put_row_if(alloc, style, opened, row, text)?;
    }
    Ok(())
}

fn put_row_if(
    alloc: Global,
    style: ScreenStyle,
    opened: bool,
    row: &Row,
    text: &mut Vec<u8>,
) -> Result<(), AllocError>
    ensures { OnOk result (text.new.items ≡ text.old.items ++ text_if opened style row.now) }
{
    if is_open(row.take.state) == opened {
        return put_row(alloc, style, row, text);
    }
    Ok(())
}

fn is_open(state: ProgressState) -> bool
    ensures { result ≡ is_open_state state }
{
    match state {
        ProgressState::Open => true,
        ProgressState::Closed => false,
        ProgressState::Unopened => false,
        ProgressState::Stood => false,
        ProgressState::Faulty(_) => false,
        ProgressState::Changed => false,
    }
}

/// Where a screen begins: a terminal doesn't wrap from here on, so that a line never takes two, and
/// its first line is cleared.
fn screen_start(style: ScreenStyle) -> &'static [u8]
    ensures { result.now ≡ starts_with style }
{
    match style {
        ScreenStyle::Terminal => b"\x1b[?7l\x1b[H\x1b[K",
        ScreenStyle::Lines => b"",
    }
}

/// Where a line ends: the cursor of a terminal goes down, which scrolls nothing where there is no
/// lower line, and the line there is cleared.
pub(crate) fn line_end(style: ScreenStyle) -> &'static [u8]
    ensures { result.now ≡ line_ends style }
{
    match style {
        ScreenStyle::Terminal => b"\r\x1b[B\x1b[K",
        ScreenStyle::Lines => b"\n",
    }
}

/// Where a screen ends: a terminal clears all below, and wraps again.
fn screen_end(style: ScreenStyle) -> &'static [u8]
    ensures { result.now ≡ ends_with style }
{
    match style {
        ScreenStyle::Terminal => b"\x1b[J\x1b[?7h",
        ScreenStyle::Lines => b"\n",
    }
}
