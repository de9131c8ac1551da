//! The lines of a folder's takes.
ghost use Rattle.std.specs.Prelude.{◌≡◌, ◌≤◌, ◌++◌, ◌&&◌, ℕ, true, IsTrue, IfOk, IfErr, OnOk};
ghost use Rattle.bw_console.specs.Text.{as_line};
ghost use Rattle.bw_disk.specs.DiskSteps.{StaysWhole};
ghost use Rattle.bw_disk.specs.declared.reading.ReadFault.TheVariants.{Memory};
ghost use Rattle.bw_takes.specs.ReadCounts.{CountsReport, Rises, has_lines};
ghost use Rattle.bw_takes.specs.TakeReports.{ReportsTakes, TellsTake, finding_summary, styled_line};
ghost use Rattle.bw_takes.specs.TakeReports.{TellsUnreadEntry, told_by};
ghost use Rattle.bw_takes.specs.TakeSummaries.{is_sound_summary};

use crate::comparing::Depth;
use crate::finding::TakeFinding;
use crate::hashing::{Examined, examine_in_form};
use crate::json::take_json;
use crate::naming::takes_in;
use crate::printing::unread_line;
use crate::unread::{ending, find_unread};
use bw_disk::{ReadFault, Volume};
use bw_model::Name;
use bw_recovery::path_in;
use std::alloc::{AllocError, Global};

/// How a take is reported.
#[derive(Clone, Copy, Debug, PartialEq, Eq)]
pub enum LineStyle {
    /// By a line of words.
    Words,
    /// By a line of JSON.
    Json,
}

/// How the takes of a folder are reported.
#[derive(Clone, Copy, Debug, PartialEq, Eq)]
pub struct ReportForm {
    /// By which lines.
    pub style: LineStyle,
    /// How far they are looked at.
    pub depth: Depth,
    /// Whether the SHA-256 of each closed take's samples is added.
    pub digest: bool,
}

/// What is reported of a folder's takes.
#[derive(Drop)]
pub struct TakesReport {
    /// A line for each that can be read, ended by a line feed.
    pub lines: Vec<u8>,
    /// A line for each file that can't be read.
    pub unread: Vec<u8>,
    /// Whether nothing is wrong with any that can be read.
    pub sound: bool,
}

/// A line for each take of a folder that can be read, of words or of JSON, in the order of their
/// names' bytes, and a line on each file that can't. Nothing is changed.
///
/// # Errors
/// `Disk` if the folder can't be listed; `Memory` if memory was refused.
///
/// # Not specified
/// When memory is refused.
pub fn report_takes<D: Volume>(
    alloc: Global,
    disk: &mut D,
    folder: &str,
    form: ReportForm,
) -> Result<TakesReport, ReadFault>
    // A file is reported as one that can't be read only if a call of the disk failed.
    ensures failures { CountsReport (D.failures disk.old) (D.failures disk.new) result }
    ensures disk { StaysWhole D.Disk disk.old disk.new }
    // A line follows from the journal's bytes and the file's alone.
    ensures report { IsTrue (D.honest disk.old) → IfOk result (λ report.
        ReportsTakes form folder.now (D.contents disk.old) (told_by report)) }
{
    let names = takes_in(alloc, disk, folder)?;
    let mut report = TakesReport {
        lines: Vec::new(alloc),
        unread: Vec::new(alloc),
        sound: true,
    };
    for name in &names {
        put_take(alloc, disk, folder, name, form, &mut report)?;
    }
    Ok(report)
}

/// Adds the line of a take, or that on its file that can't be read.
fn put_take<D: Volume>(
    alloc: Global,
    disk: &mut D,
    folder: &str,
    name: &Name,
    form: ReportForm,
    report: &mut TakesReport,
) -> Result<(), ReadFault>
    ensures counted { (start : ℕ) → Rises start (D.failures disk.old) (has_lines report.old.unread.items) →
        OnOk result (Rises start (D.failures disk.new) (has_lines report.new.unread.items)) }
    ensures grows { D.failures disk.old ≤ D.failures disk.new }
    ensures memory { IfErr result (λ fault. fault ≡ Memory) }
    ensures disk { StaysWhole D.Disk disk.old disk.new }
    ensures told { IsTrue (D.honest disk.old) → OnOk result (TellsTake form folder.now
        (D.contents disk.old) name.now (told_by report.old) (told_by report.new)) }
{
    match examine_in_form(alloc, disk, folder, name, form) {
        Ok(take) => put_found(alloc, form.style, name, &take, report),
        Err(ReadFault::Disk) => put_unread(alloc, disk, folder, name, report),
        Err(ReadFault::Memory) => Err(ReadFault::Memory),
    }
}

/// Adds the line of a take of which this is found.
fn put_found(
    alloc: Global,
    style: LineStyle,
    name: &Name,
    take: &Examined,
    report: &mut TakesReport,
) -> Result<(), ReadFault>
    ensures memory { IfErr result (λ fault. fault ≡ Memory) }
    ensures line { OnOk result (report.new.lines.items ≡ report.old.lines.items
        ++ styled_line style name.now (finding_summary take.now.finding) take.now.digest) }
    ensures unread { report.new.unread ≡ report.old.unread }
    ensures sound { report.new.sound
        ≡ (report.old.sound && is_sound_summary (finding_summary take.now.finding)) }
{
    report.sound = report.sound && is_sound(&take.finding);
    match put_entry(alloc, style, name, take, report) {
        Ok(()) => Ok(()),
        Err(_) => Err(ReadFault::Memory),
    }
}

/// Adds the line on the file of a take that can't be read.
pub(crate) fn put_unread<D: Volume>(
    alloc: Global,
    disk: &mut D,
    folder: &str,
    name: &Name,
    report: &mut TakesReport,
) -> Result<(), ReadFault>
    ensures grows { D.failures disk.old ≤ D.failures disk.new }
    ensures memory { IfErr result (λ fault. fault ≡ Memory) }
    ensures disk { StaysWhole D.Disk disk.old disk.new }
    ensures lines_unread { OnOk result (has_lines report.new.unread.items ≡ true) }
    ensures unread { OnOk result (TellsUnreadEntry folder.now name.now
        report.old.unread.items report.new.unread.items) }
    ensures lines { report.new.lines ≡ report.old.lines }
    ensures sound { report.new.sound ≡ report.old.sound }
{
    let entry = find_unread(alloc, disk, folder, name)?;
    let path = path_in(alloc, folder, name, ending(entry))?;
    let Ok(line) = unread_line(alloc, path.as_str()) else {
        return Err(ReadFault::Memory);
    };
    match report.unread.extend_from_slice(line.as_bytes()) {
        Ok(()) => Ok(()),
        Err(_) => Err(ReadFault::Memory),
    }
}

/// Appends the line of a take of which this is found.
fn put_entry(
    alloc: Global,
    style: LineStyle,
    name: &Name,
    take: &Examined,
    report: &mut TakesReport,
) -> Result<(), AllocError>
    ensures line { OnOk result (report.new.lines.items ≡ report.old.lines.items
        ++ styled_line style name.now (finding_summary take.now.finding) take.now.digest) }
    ensures unread { report.new.unread ≡ report.old.unread }
    ensures sound { report.new.sound ≡ report.old.sound }
{
    match style {
        LineStyle::Words => {
            let finding = &take.finding;
            finding.put_take_line(alloc, name, take.digest, &mut report.lines)
        }
        LineStyle::Json => {
            let text = take_json(alloc, name, &take.finding, take.digest)?;
            put_line(&text, &mut report.lines)
        }
    }
}

/// Appends a text, and ends its line.
#[tactic(auto, using(std::proofs::lemmas::List::append_assoc))]
fn put_line(text: &str, lines: &mut Vec<u8>) -> Result<(), AllocError>
    ensures { OnOk result (lines.new.items ≡ lines.old.items ++ as_line text.now) }
{
    lines.extend_from_slice(text.as_bytes())?;
    lines.extend_from_slice(b"\n")
}

/// Whether nothing is wrong with a take of which this is found.
fn is_sound(finding: &TakeFinding) -> bool
    ensures { result ≡ is_sound_summary (finding_summary finding.now) }
{
    match finding {
        TakeFinding::Stood => true,
        TakeFinding::Unbegun => true,
        TakeFinding::Refused(_) => false,
        TakeFinding::Begun(_) => true,
        TakeFinding::Changed(_) => false,
    }
}
