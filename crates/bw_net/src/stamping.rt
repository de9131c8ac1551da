//! Lines that have their time.
ghost use Rattle.std.specs.Prelude.{◌≡◌, ◌≤◌, ◌++◌, length, IfOk};

use bw_operators::{LogForm, log_object, time_text};
use bw_stream::{IoFailed, Sink, write_all};
use std::alloc::{AllocError, Global};
use std::time::{SystemTime, UNIX_EPOCH};

/// How many bytes the time and the blank after it are.
pub(crate) const STAMP: usize = 25;

/// The most bytes of a line that are an object of JSON: with six bytes for each, as `\\u001f` has, it still
/// fits into a pipe that is reported ready.
pub(crate) const OBJECT_PART: usize = 640;

/// Writes a line with its time, in one write unless memory is refused.
///
/// # Errors
/// `IoFailed` if the writer failed: a prefix may have been written; in JSON also if memory was refused.
pub(crate) fn write_logged<W: Sink>(
    rt: &HostRuntime,
    form: LogForm,
    writer: &mut W,
    line: &[u8],
) -> Result<(), IoFailed> {
    match form {
        LogForm::Lines => write_stamped(rt, writer, line),
        LogForm::Json => write_objects(rt, writer, line),
    }
}

/// Writes each line of a text as an object with its time.
fn write_objects<W: Sink>(rt: &HostRuntime, writer: &mut W, text: &[u8]) -> Result<(), IoFailed> {
    let stamp = stamp_now(rt);
    let Ok(time) = std::str::from_utf8(&stamp[..STAMP - 1]) else {
        return Err(IoFailed);
    };
    for line in text.split(|c| *c == b'\n').filter(|line| !line.is_empty()) {
        write_parts(rt.alloc(), writer, time, line)?;
    }
    Ok(())
}

/// Writes a line as an object with this time; one that is long, as several.
fn write_parts<W: Sink>(
    alloc: Global,
    writer: &mut W,
    time: &str,
    line: &[u8],
) -> Result<(), IoFailed> {
    let mut left = line;
    while !left.is_empty() {
        let part = first_part(left);
        write_object(alloc, writer, time, part)?;
        left = &left[part.len().max(1)..];
    }
    Ok(())
}

/// The first characters of a line, as many as an object has room for; none where a byte isn't UTF-8.
fn first_part(line: &[u8]) -> &str
    ensures { length result.now ≤ length line.now }
{
    let part = &line[..line.len().min(OBJECT_PART)];
    match std::str::from_utf8(part) {
        Ok(text) => text,
        Err(error) => std::str::from_utf8(&part[..error.valid_up_to()]).unwrap_or(""),
    }
}

fn write_object<W: Sink>(
    alloc: Global,
    writer: &mut W,
    time: &str,
    text: &str,
) -> Result<(), IoFailed> {
    let Ok(object) = log_object(alloc, time, text) else {
        return Err(IoFailed);
    };
    match joined(alloc, object.as_bytes(), b"\n") {
        Ok(line) => write_all(writer, &line),
        Err(_) => Err(IoFailed),
    }
}

/// Writes a line, or the first part of one, after its time in UTC and a blank: in one write, so that no
/// line of another process comes in between, unless memory is refused for it.
///
/// # Errors
/// `IoFailed` if the writer failed: a prefix may have been written.
fn write_stamped<W: Sink>(rt: &HostRuntime, writer: &mut W, line: &[u8]) -> Result<(), IoFailed> {
    let stamp = stamp_now(rt);
    if let Ok(stamped) = joined(rt.alloc(), &stamp, line) {
        return write_all(writer, &stamped);
    }
    write_all(writer, &stamp)?;
    write_all(writer, line)
}

/// The time, in UTC, and a blank.
fn stamp_now(rt: &HostRuntime) -> [u8; STAMP] {
    let mut stamp = [b' '; STAMP];
    stamp[..STAMP - 1].copy_from_slice(&time_text(milliseconds_now(rt)));
    stamp
}

fn joined(alloc: Global, first: &[u8], second: &[u8]) -> Result<Vec<u8>, AllocError>
    ensures { IfOk result (λ both. both.items ≡ first.now ++ second.now) }
{
    let mut both = Vec::with_capacity(alloc, first.len().saturating_add(second.len()))?;
    both.extend_from_slice(first)?;
    both.extend_from_slice(second)?;
    Ok(both)
}

/// The time in milliseconds since the start of 1970; 0 if it can't be read.
fn milliseconds_now(rt: &HostRuntime) -> u64 {
    let Ok(now) = SystemTime::now(rt) else {
        return 0;
    };
    match now.duration_since(UNIX_EPOCH) {
        Ok(passed) => u64::try_from(passed.as_millis()).unwrap_or(u64::MAX),
        Err(_) => 0,
    }
}
