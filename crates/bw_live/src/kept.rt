//! What is kept of a recording's markers is read.
ghost use Rattle.std.specs.Prelude.{◌≡◌, ◌≤◌, [], IfOk, OnErr, OnOk, fold, length, option_map};
ghost use Rattle.bw_live.specs.KeptPlaces.{blank_at, kept_said, marks_of, no_marks, point_in_text};
ghost use Rattle.bw_live.specs.KeptPlaces.{point_kept, point_of as point_with, with_kept_line, with_placed};
ghost use Rattle.bw_ports.specs.StateReadings.{lines_after};

use crate::answer::MarkFault;
use crate::line::first_line;
use crate::number::number_in;
use bw_layout::CuePoint;
use std::alloc::{AllocError, Global};

/// A take has at most so many markers.
const MOST_MARKERS: usize = 1024;

/// What is kept of a recording's markers.
#[derive(Debug, Drop)]
pub struct KeptMarks {
    /// How many lines of the marks' file were seen.
    pub lines: u64,
    /// The markers, in the order of their lines.
    pub points: Vec<CuePoint>,
    /// There are no more.
    pub is_ended: bool,
}

impl KeptMarks {
    /// Nothing was seen.
    ///
    /// # Errors
    /// `AllocError` if memory was refused.
    pub(crate) fn new(alloc: Global) -> Result<KeptMarks, AllocError>
        ensures { IfOk result (λ k. marks_of k ≡ no_marks) }
    {
        Ok(KeptMarks {
            lines: 0,
            points: Vec::with_capacity(alloc, MOST_MARKERS)?,
            is_ended: false,
        })
    }

    /// One more line was seen, and became this.
    ///
    /// # Errors
    /// `AllocError` if memory was refused: never while there are fewer than 1,024 markers.
    pub(crate) fn add(&mut self, placed: Result<CuePoint, MarkFault>) -> Result<(), AllocError>
        ensures added { OnOk result (marks_of self.new ≡ with_placed (marks_of self.old) placed) }
        ensures kept { OnErr result (marks_of self.new ≡ marks_of self.old) }
    {
        if let Ok(point) = placed {
            self.points.push(point)?;
        }
        self.lines = self.lines.saturating_add(1);
        Ok(())
    }

    /// What a line of the kept markers says.
    ///
    /// # Errors
    /// `AllocError` if memory was refused.
    fn add_kept(&mut self, line: &[u8]) -> Result<(), AllocError>
        ensures { OnOk result (marks_of self.new ≡ with_kept_line (marks_of self.old) line.now) }
    {
        if line == b"end.".as_slice() {
            self.is_ended = true;
            return Ok(());
        }
        if line == b"skipped.".as_slice() {
            self.lines = self.lines.saturating_add(1);
            return Ok(());
        }
        match point_in(line) {
            Some(point) => self.add(Ok(point)),
            None => Ok(()),
        }
    }
}

/// What bytes keep under this header; None if they have another.
///
/// # Errors
/// `AllocError` if memory was refused.
///
/// # Not specified
/// When memory is refused.
pub fn kept_in(alloc: Global, header: &[u8], bytes: &[u8]) -> Result<Option<KeptMarks>, AllocError>
    ensures { IfOk result (λ kept. option_map marks_of kept ≡ kept_said header.now bytes.now) }
{
    let Some((first, lines)) = first_line(bytes) else {
        return Ok(None);
    };
    if first != header {
        return Ok(None);
    }
    let kept = kept_lines(alloc, lines)?;
    Ok(Some(kept))
}

/// What the whole lines keep.
///
/// # Errors
/// `AllocError` if memory was refused.
fn kept_lines(alloc: Global, bytes: &[u8]) -> Result<KeptMarks, AllocError>
    ensures { IfOk result (λ kept. marks_of kept
        ≡ fold with_kept_line no_marks (lines_after [] bytes.now)) }
{
    let mut kept = KeptMarks::new(alloc)?;
    let mut rest = bytes;
    while let Some((line, more)) = first_line(rest) {
        kept.add_kept(line)?;
        rest = more;
    }
    Ok(kept)
}

/// The marker that a line keeps.
fn point_in(line: &[u8]) -> Option<CuePoint>
    ensures { result ≡ point_kept line.now }
{
    if line.ends_with(b".") {
        point_of_text(&line[..line.len() - 1])
    } else {
        None
    }
}

/// The marker that a text `FRAME LABEL-ID` keeps.
fn point_of_text(text: &[u8]) -> Option<CuePoint>
    ensures { result ≡ point_in_text text.now }
{
    let blank = blank_in(text);
    let after = (blank + 1).min(text.len());
    point_of(number_in(&text[..blank]), number_in(&text[after..]))
}

/// How many bytes come before the first blank.
fn blank_in(text: &[u8]) -> usize
    ensures value { result ≡ blank_at text.now }
    ensures within { result ≤ length text.now }
{
    text.iter().take_while(|c| **c != b' ').count()
}

/// Frame and identifier, if both are numbers.
fn point_of(frame: Option<u32>, id: Option<u32>) -> Option<CuePoint>
    ensures { result ≡ point_with frame id }
{
    let frame = frame?;
    let id = id?;
    Some(CuePoint { id, frame })
}
