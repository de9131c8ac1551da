//! The line of a take.
ghost use Rattle.std.specs.Prelude.{◌≡◌, ◌++◌, ◌≤◌, OnOk};
ghost use Rattle.bw_journal.specs.Rows.{row_count};
ghost use Rattle.bw_takes.specs.TakeLines.{next_line, numbered_line, opened_line, word_line};
ghost use Rattle.bw_takes.specs.TakeLines.{next_end, timed_part, timed_start, state_word as word_of};
ghost use Rattle.bw_takes.specs.TakeReports.{cause_word as word_of_cause, finding_summary, summary_line};
ghost use Rattle.bw_takes.specs.TakeSummaries.{story_summary};

use crate::finding::TakeFinding;
use crate::hashing::SampleDigest;
use bw_journal::Replayed;
use bw_model::Name;
use bw_recovery::{NameFault, file_cause, journal_cause};
use std::alloc::{AllocError, Global};

impl TakeFinding {
    /// Appends the line of the take of this name of which this was found, ended by a line feed: its
    /// name; whether it is open, closed or not opened, or existed before the server's; of one with
    /// samples of the server's its frames and seconds; its next number; and their digest, if it is
    /// known. Of one with which something is wrong it is the name and the cause, and of one with
    /// other samples than its journal has the digests of, the first such number.
    ///
    /// # Errors
    /// `AllocError` if memory was refused.
    pub fn put_take_line(
        &self,
        alloc: Global,
        name: &Name,
        digest: SampleDigest,
        lines: &mut Vec<u8>,
    ) -> Result<(), AllocError>
        ensures { OnOk result (lines.new.items
            ≡ lines.old.items ++ summary_line name.now (finding_summary self.now) digest) }
    {
        let Ok(name) = std::str::from_utf8(name.as_bytes()) else {
            return Err(AllocError);
        };
        let named = Named { alloc, name };
        match self {
            TakeFinding::Stood => named.put_next("stood", 0, lines),
            TakeFinding::Unbegun => named.put_next("unopened", 0, lines),
            TakeFinding::Refused(fault) => named.put_word(cause_word(fault), lines),
            TakeFinding::Begun(replayed) => named.put_begun(replayed, digest, lines),
            TakeFinding::Changed(number) => {
                named.put_numbered("ChangedBlock", u64::from(*number), lines)
            }
        }
    }
}

/// A name whose line is put.
#[derive(Drop)]
struct Named<'a> {
    alloc: Global,
    name: &'a str,
}

impl Named<'_> {
    /// Appends the line of a take whose journal is begun.
    fn put_begun(
        &self,
        replayed: &Replayed,
        digest: SampleDigest,
        lines: &mut Vec<u8>,
    ) -> Result<(), AllocError>
        ensures { OnOk result (lines.new.items ≡ lines.old.items ++ summary_line self.now.name.now
            (story_summary replayed.now.state.parts (row_count replayed.now.table.items)) digest) }
    {
        let state = &replayed.state;
        let next = replayed.table.len() / 33;
        if state.is_taken() {
            return self.put_next("stood", next, lines);
        }
        let word = state_word(state.is_closed());
        match state.format() {
            Some(format) => {
                let frames = state.frames();
                self.put_opened(word, frames, format.rate(), next, digest, lines)
            }
            None => self.put_next("unopened", next, lines),
        }
    }

    /// Appends the line of a take that is one word.
    #[tactic(auto, unfolding(crate::specs::TakeLines::word_line))]
    fn put_word(&self, word: &str, lines: &mut Vec<u8>) -> Result<(), AllocError>
        ensures { OnOk result (lines.new.items
            ≡ lines.old.items ++ word_line self.now.name.now word.now) }
    {
        let name = self.name;
        let line = format!(in self.alloc; "{name} {word}\n")?;
        lines.extend_from_slice(line.as_bytes())
    }

    /// Appends the line of a take with which this is wrong at a number.
    #[tactic(auto, unfolding(crate::specs::TakeLines::numbered_line))]
    fn put_numbered(&self, word: &str, number: u64, lines: &mut Vec<u8>) -> Result<(), AllocError>
        ensures { OnOk result (lines.new.items
            ≡ lines.old.items ++ numbered_line self.now.name.now word.now number) }
    {
        let name = self.name;
        let line = format!(in self.alloc; "{name} {word} number {number}\n")?;
        lines.extend_from_slice(line.as_bytes())
    }

    /// Appends the line of a take without samples of the server's.
    #[tactic(auto, unfolding(crate::specs::TakeLines::next_line))]
    fn put_next(&self, word: &str, next: usize, lines: &mut Vec<u8>) -> Result<(), AllocError>
        ensures { OnOk result (lines.new.items
            ≡ lines.old.items ++ next_line self.now.name.now word.now next) }
    {
        let name = self.name;
        let line = format!(in self.alloc; "{name} {word} next {next}\n")?;
        lines.extend_from_slice(line.as_bytes())
    }

    /// Appends the line of a take with so many frames at a rate: its seconds are rounded down.
    #[tactic(auto, using(std::proofs::lemmas::List::append_assoc))]
    fn put_opened(
        &self,
        word: &str,
        frames: u64,
        rate: u32,
        next: usize,
        digest: SampleDigest,
        lines: &mut Vec<u8>,
    ) -> Result<(), AllocError>
        requires { 1 ≤ rate }
        ensures { OnOk result (lines.new.items ≡ lines.old.items
            ++ opened_line self.now.name.now word.now frames rate next digest) }
    {
        let rate = u64::from(rate);
        self.put_start(word, frames, frames / rate, lines)?;
        put_part(self.alloc, frames % rate * 1000 / rate, lines)?;
        put_next_end(self.alloc, next, digest, lines)
    }

    /// Appends a line's frames and whole seconds.
    #[tactic(auto, unfolding(crate::specs::TakeLines::timed_start))]
    fn put_start(
        &self,
        word: &str,
        frames: u64,
        seconds: u64,
        lines: &mut Vec<u8>,
    ) -> Result<(), AllocError>
        ensures { OnOk result (lines.new.items
            ≡ lines.old.items ++ timed_start self.now.name.now word.now frames seconds) }
    {
        let name = self.name;
        let line = format!(in self.alloc; "{name} {word} frames {frames} seconds {seconds}.")?;
        lines.extend_from_slice(line.as_bytes())
    }
}

/// Appends the line of the take of this name that is one word.
///
/// # Errors
/// `AllocError` if memory was refused.
pub(crate) fn put_word_line(
    alloc: Global,
    name: &Name,
    word: &str,
    lines: &mut Vec<u8>,
) -> Result<(), AllocError>
    ensures { OnOk result (lines.new.items ≡ lines.old.items ++ word_line name.now word.now) }
{
    let Ok(name) = std::str::from_utf8(name.as_bytes()) else {
        return Err(AllocError);
    };
    let named = Named { alloc, name };
    named.put_word(word, lines)
}

/// Appends a line's thousandths of a second.
#[tactic(auto, unfolding(crate::specs::TakeLines::timed_part))]
fn put_part(alloc: Global, part: u64, lines: &mut Vec<u8>) -> Result<(), AllocError>
    ensures { OnOk result (lines.new.items ≡ lines.old.items ++ timed_part part) }
{
    let (tenths, hundredths, thousandths) = (part / 100, part / 10 % 10, part % 10);
    let line = format!(in alloc; "{tenths}{hundredths}{thousandths} next ")?;
    lines.extend_from_slice(line.as_bytes())
}

/// Appends a line's next number, and the digest of the samples if it is known.
#[tactic(auto, unfolding(crate::specs::TakeLines::next_end))]
fn put_next_end(
    alloc: Global,
    next: usize,
    digest: SampleDigest,
    lines: &mut Vec<u8>,
) -> Result<(), AllocError>
    ensures { OnOk result (lines.new.items ≡ lines.old.items ++ next_end next digest) }
{
    let line = match digest {
        SampleDigest::Unasked => format!(in alloc; "{next}\n")?,
        SampleDigest::Missing => format!(in alloc; "{next}\n")?,
        SampleDigest::Known(digest) => {
            let digits = hex::encode(alloc, digest)?;
            format!(in alloc; "{next} sha256={digits}\n")?
        }
    };
    lines.extend_from_slice(line.as_bytes())
}

/// The word for whether a take is closed.
pub(crate) fn state_word(closed: bool) -> &'static str
    ensures { result.now ≡ word_of closed }
{
    if closed { "closed" } else { "open" }
}

/// What is wrong with a take, in a word.
pub(crate) fn cause_word(fault: &NameFault) -> &'static str
    ensures { result.now ≡ word_of_cause fault.now }
{
    match fault {
        NameFault::Journal(fault) => journal_cause(*fault),
        NameFault::OtherLimit(_) => "OtherLimit",
        NameFault::File(fault) => file_cause(*fault),
    }
}
