//! The line that shows how far an upload is.
ghost use Rattle.std.specs.Prelude.{◌≡◌, ◌+◌, ◌<◌, ◌≤◌, ◌++◌, IfOk, OnOk, Some, decimal};
ghost use Rattle.bw_progress.specs.Lines.{amount_text, batch_text, course_text, link_text, part_text};
ghost use Rattle.bw_progress.specs.Lines.{percent as percent_of, span_text};
ghost use Rattle.bw_progress.specs.Lines.{upload_line, speed_text, clock_digits};

use crate::batch::BatchPart;
use crate::progress::{LinkState, UploadProgress};
use itoa::Buffer;
use std::alloc::{AllocError, Global};

/// The line of an upload at this millisecond, without an end.
///
/// # Errors
/// `AllocError` if memory was refused.
pub(crate) fn line_of(
    alloc: Global,
    progress: &UploadProgress,
    now: u64,
) -> Result<Vec<u8>, AllocError>
    ensures { IfOk result (λ text. text.items ≡ upload_line now progress.now) }
{
    let mut text = Vec::new(alloc);
    put_line(&mut text, progress, now)?;
    Ok(text)
}

/// Appends the line.
fn put_line(text: &mut Vec<u8>, progress: &UploadProgress, now: u64) -> Result<(), AllocError>
    ensures { OnOk result (text.new.items ≡ text.old.items ++ upload_line now progress.now) }
{
    put_batch(text, progress.part)?;
    text.extend_from_slice(progress.name.as_bytes())?;
    text.extend_from_slice(b" ")?;
    put_amount(text, progress)?;
    text.extend_from_slice(b" ")?;
    put_course(text, progress, now)
}

/// Appends which of several recordings it is.
fn put_batch(text: &mut Vec<u8>, part: BatchPart) -> Result<(), AllocError>
    ensures { OnOk result (text.new.items ≡ text.old.items ++ batch_text part) }
{
    if part.count == 0 {
        return Ok(());
    }
    put_number(text, u64::from(part.number))?;
    text.extend_from_slice(b"/")?;
    put_number(text, u64::from(part.count))?;
    text.extend_from_slice(b" ")?;
    Ok(())
}

/// Appends how fast requests are settled, how many are under way, and the link.
fn put_course(text: &mut Vec<u8>, progress: &UploadProgress, now: u64) -> Result<(), AllocError>
    ensures { OnOk result (text.new.items ≡ text.old.items ++ course_text now progress.now) }
{
    put_speed(text, progress.bytes_a_second(now))?;
    text.extend_from_slice(b" pending ")?;
    let pending = progress.offered.saturating_sub(progress.settled);
    put_number(text, u64::from(pending))?;
    text.extend_from_slice(b" ")?;
    put_link(text, progress.link, now)
}

/// Appends how much of a take is settled, and of how much.
fn put_amount(text: &mut Vec<u8>, progress: &UploadProgress) -> Result<(), AllocError>
    ensures { OnOk result (text.new.items ≡ text.old.items ++ amount_text progress.now) }
{
    let rate = progress.measure.rate.max(1);
    let done = progress
        .measure
        .done_frames(progress.offered, progress.settled);
    match progress.measure.frames {
        Some(frames) => put_part(text, done, frames, rate),
        None => put_clock(text, done / u64::from(rate)),
    }
}

/// Appends how many of so many frames are done, in percent and as times.
fn put_part(text: &mut Vec<u8>, done: u64, frames: u64, rate: u32) -> Result<(), AllocError>
    requires { 1 ≤ rate }
    ensures { OnOk result (text.new.items ≡ text.old.items ++ part_text rate done (Some frames)) }
{
    put_number(text, percent(done, frames))?;
    text.extend_from_slice(b"% ")?;
    put_clock(text, done / u64::from(rate))?;
    text.extend_from_slice(b"/")?;
    put_clock(text, frames / u64::from(rate))
}

/// How many hundredths of so many frames are done, rounded down; all if there are none.
fn percent(done: u64, frames: u64) -> u64
    ensures { result ≡ percent_of done frames }
{
    if frames == 0 {
        return 100;
    }
    let part = u128::from(done.min(frames)) * 100 / u128::from(frames);
    part as u64
}

/// Appends so many bytes a second in millions, with one decimal: `27.4 MB/s`.
fn put_speed(text: &mut Vec<u8>, bytes: u64) -> Result<(), AllocError>
    ensures { OnOk result (text.new.items ≡ text.old.items ++ speed_text bytes) }
{
    put_number(text, bytes / 1_000_000)?;
    text.extend_from_slice(b".")?;
    put_number(text, bytes / 100_000 % 10)?;
    text.extend_from_slice(b" MB/s")?;
    Ok(())
}

/// Appends whether there is a link, or for how many seconds there has been none.
fn put_link(text: &mut Vec<u8>, link: LinkState, now: u64) -> Result<(), AllocError>
    ensures { OnOk result (text.new.items ≡ text.old.items ++ link_text now link) }
{
    match link {
        LinkState::Up => {
            text.extend_from_slice(b"link up")?;
            Ok(())
        }
        LinkState::Down { since } => {
            text.extend_from_slice(b"link down, ")?;
            put_number(text, now.saturating_sub(since) / 1_000)?;
            text.extend_from_slice(b" s")?;
            Ok(())
        }
    }
}

/// Appends so many seconds as hours, minutes and seconds: `1:02:03`.
fn put_clock(text: &mut Vec<u8>, seconds: u64) -> Result<(), AllocError>
    ensures { OnOk result (text.new.items ≡ text.old.items ++ span_text seconds) }
{
    put_number(text, seconds / 3_600)?;
    text.extend_from_slice(b":")?;
    put_two_digits(text, seconds / 60 % 60)?;
    text.extend_from_slice(b":")?;
    put_two_digits(text, seconds % 60)
}

fn put_two_digits(text: &mut Vec<u8>, number: u64) -> Result<(), AllocError>
    requires { number < 100 }
    ensures { OnOk result (text.new.items ≡ text.old.items ++ clock_digits number) }
{
    text.extend_from_slice(&[digit(number / 10), digit(number % 10)])?;
    Ok(())
}

fn digit(number: u64) -> u8
    requires { number < 10 }
    ensures { result ≡ 48 + number }
{
    b'0' + number as u8
}

/// Appends the decimal digits of a number.
fn put_number(text: &mut Vec<u8>, number: u64) -> Result<(), AllocError>
    ensures { OnOk result (text.new.items ≡ text.old.items ++ decimal number) }
{
    let mut digits = Buffer::new();
    text.extend_from_slice(digits.format(number).as_bytes())?;
    Ok(())
}
