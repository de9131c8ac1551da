//! What is printed for a file.
ghost use Rattle.std.specs.Prelude.{◌≡◌, ◌++◌, Some, IfOk, false};
ghost use Rattle.bw_model.specs.Report.{report_text};
ghost use Rattle.bw_commands.specs.Inspections.{IsPrintOfText};
ghost use Rattle.bw_console.specs.Prints.{IsPrint, Print};
ghost use Rattle.bw_inspect.specs.Reports.{reported_by};
ghost use Rattle.bw_report.specs.ContentTexts.{contents_lines};
ghost use Rattle.bw_report.specs.Entries.{digest_text, entry_text, fault_entry};
ghost use Rattle.bw_report.specs.Entries.{heading as heading_of};
ghost use Rattle.bw_report.specs.HumanTexts.{human_text};

use crate::contents::put_contents;
use crate::found::Found;
use crate::human::put_report;
use crate::json::json_line;
use crate::shown::put_name;
use bw_console::Fault;
use bw_console::print::print;
use bw_contents::Contents;
use bw_inspect::{InspectFault, Report, write_report};
use bw_stream::{MemorySink, Sink};
use std::alloc::{AllocError, Global};

/// How what is found is printed.
#[derive(Clone, Copy, Debug, PartialEq, Eq)]
pub enum Style {
    /// As lines of words and whole numbers.
    Plain,
    /// As lines for people: with units, times and levels.
    Human,
    /// As one line of JSON.
    Json,
}

/// What is wanted of each file.
#[derive(Clone, Copy, Debug, PartialEq, Eq)]
pub struct Wanted {
    /// How it is printed.
    pub style: Style,
    /// Whether its lines are below a line with its name. In JSON the name is in the object.
    pub named: bool,
    /// Whether the SHA-256 of its samples is among it.
    pub digest: bool,
}

/// What is printed for what is found under a name; `named` as in `Wanted`.
///
/// # Errors
/// `AllocError` if memory was refused.
///
/// # Not specified
/// When memory is refused.
pub fn entry_of(
    alloc: Global,
    style: Style,
    named: bool,
    name: &str,
    found: &Found,
) -> Result<Vec<u8>, AllocError>
    // Each time, level and size in the text for people is the definition's.
    ensures { IfOk result (λ v. v.items ≡ entry_text style named name.now found.now) }
{
    match style {
        Style::Plain => plain_entry(alloc, named, name, found),
        Style::Human => people_entry(alloc, named, name, found),
        Style::Json => json_entry(alloc, name, found),
    }
}

/// Prints the entry of what is found under a name.
///
/// # Errors
/// Memory, Unwritable.
pub(crate) fn print_entry<W: Sink>(
    alloc: Global,
    wanted: Wanted,
    name: &str,
    found: &Found,
    out: &mut W,
) -> Result<(), Fault>
    ensures { (print : Print)
        × IsPrintOfText (entry_text wanted.style wanted.named name.now found.now) result print
        × IsPrint W.Sink print out.old out.new }
{
    let Ok(text) = entry_of(alloc, wanted.style, wanted.named, name, found) else {
        return Err(Fault::Memory);
    };
    match print(out, text.as_slice()) {
        Ok(()) => Ok(()),
        Err(_) => Err(Fault::Unwritable),
    }
}

fn json_entry(alloc: Global, name: &str, found: &Found) -> Result<Vec<u8>, AllocError>
    ensures { IfOk result (λ v. v.items ≡ entry_text Style.Json false name.now found.now) }
{
    let line = json_line(alloc, name, found)?;
    let mut text = Vec::new(alloc);
    text.extend_from_slice(line.as_bytes())?;
    text.extend_from_slice(b"\n")?;
    Ok(text)
}

fn plain_entry(alloc: Global, named: bool, name: &str, found: &Found) -> Result<Vec<u8>, AllocError>
    ensures { IfOk result (λ v. v.items ≡ entry_text Style.Plain named name.now found.now) }
{
    let text = heading(alloc, named, name)?;
    match found {
        Found::Read {
            report,
            digest,
            contents: _,
        } => {
            let text = with_report(text, report)?;
            with_digest(alloc, text, digest)
        }
        Found::Faulty(fault) => with_fault(alloc, text, fault),
        Found::Unopened(_) => with_line(text, "fault Open\n"),
    }
}

fn people_entry(
    alloc: Global,
    named: bool,
    name: &str,
    found: &Found,
) -> Result<Vec<u8>, AllocError>
    ensures { IfOk result (λ v. v.items ≡ entry_text Style.Human named name.now found.now) }
{
    let text = heading(alloc, named, name)?;
    match found {
        Found::Read {
            report,
            digest,
            contents,
        } => {
            let text = with_lines(alloc, text, report)?;
            let text = with_digest(alloc, text, digest)?;
            with_contents(alloc, text, contents)
        }
        Found::Faulty(fault) => with_fault(alloc, text, fault),
        Found::Unopened(_) => with_line(text, "fault Open\n"),
    }
}

/// A text that begins with the line of a name, or an empty one.
fn heading(alloc: Global, named: bool, name: &str) -> Result<Vec<u8>, AllocError>
    ensures { IfOk result (λ v. v.items ≡ heading_of named name.now) }
{
    let mut text = Vec::new(alloc);
    if !named {
        return Ok(text);
    }
    put_name(alloc, &mut text, name)?;
    Ok(text)
}

/// The text with the line of a digest below it, if there is one.
fn with_digest(
    alloc: Global,
    text: Vec<u8>,
    digest: &Option<[u8; 32]>,
) -> Result<Vec<u8>, AllocError>
    ensures { IfOk result (λ v. v.items ≡ text.items ++ digest_text digest.now) }
{
    match digest {
        Some(digest) => with_digits(alloc, text, digest),
        None => Ok(text),
    }
}

fn with_digits(alloc: Global, mut text: Vec<u8>, digest: &[u8]) -> Result<Vec<u8>, AllocError>
    ensures { IfOk result (λ v. v.items ≡ text.items ++ digest_text (Some digest.now)) }
{
    let digits = hex::encode(alloc, digest)?;
    text.extend_from_slice(b"sha256=")?;
    text.extend_from_slice(digits.as_bytes())?;
    text.extend_from_slice(b"\n")?;
    Ok(text)
}

/// The text with the lines of a report below it.
fn with_report(text: Vec<u8>, report: &Report) -> Result<Vec<u8>, AllocError>
    ensures { IfOk result (λ v. v.items ≡ text.items ++ report_text (reported_by report.now)) }
{
    let mut sink = MemorySink::new(text);
    match write_report(report, &mut sink) {
        Ok(()) => Ok(sink.into_bytes()),
        Err(_) => Err(AllocError),
    }
}

/// The text with the lines of a report for people below it.
fn with_lines(alloc: Global, mut text: Vec<u8>, report: &Report) -> Result<Vec<u8>, AllocError>
    ensures { IfOk result (λ v. v.items ≡ text.items ++ human_text (reported_by report.now)) }
{
    put_report(alloc, &mut text, report)?;
    Ok(text)
}

/// The text with the lines of what the chunks say below it.
fn with_contents(
    alloc: Global,
    mut text: Vec<u8>,
    contents: &Option<Contents>,
) -> Result<Vec<u8>, AllocError>
    ensures { IfOk result (λ v. v.items ≡ text.items ++ contents_lines contents.now) }
{
    put_contents(alloc, &mut text, contents)?;
    Ok(text)
}

/// The text with the line of a fault below it.
fn with_fault(alloc: Global, text: Vec<u8>, fault: &InspectFault) -> Result<Vec<u8>, AllocError>
    ensures { IfOk result (λ v. v.items ≡ text.items ++ fault_entry fault.now) }
{
    let line = format!(in alloc; "fault {fault}\n")?;
    with_line(text, line.as_str())
}

fn with_line(mut text: Vec<u8>, line: &str) -> Result<Vec<u8>, AllocError>
    ensures { IfOk result (λ v. v.items ≡ text.items ++ line.now) }
{
    text.extend_from_slice(line.as_bytes())?;
    Ok(text)
}
