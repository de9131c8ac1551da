//! A recording's header that is held in memory: all that comes before its samples.
ghost use Rattle.std.specs.Prelude.{◌≡◌, codes, true, IfOk, IfErr};
ghost use Rattle.bw_model.specs.Reading.{entry_of};
ghost use Rattle.bw_plan.specs.Recordings.{Options as OptionsOf, extension_at, history_at};
ghost use Rattle.bw_recorder.specs.FileReports.{HasExtras, HasReport};
ghost use Rattle.bw_recorder.specs.HeldHeaders.{IsHeaderOf};
ghost use Rattle.bw_recorder.specs.Openings.{RefusesAs, is_well_at};

use crate::fault::{OpenFault, read_again, unread_as};
use crate::opening::{Extras, allowed_losses};
use bw_inspect::{Report, inspect_recognizing};
use bw_plan::{Options, Outline, outline_of, read_extension, read_history};
use bw_stream::MemorySource;
use std::alloc::Global;

/// What a file's header says of its recording.
#[derive(Drop)]
pub struct HeldHeader {
    /// The recording, without samples.
    pub outline: Outline,
    /// A line for each thing that the recording loses of the header.
    pub warnings: Vec<u8>,
}

/// The recording of a file that has these bytes.
///
/// # Errors
/// Why there is none.
///
/// # Not specified
/// When memory is refused.
pub fn header_of(alloc: Global, bytes: &[u8], options: &Options) -> Result<HeldHeader, OpenFault>
    ensures ok { IfOk result (IsHeaderOf bytes.now options.now) }
    ensures err { IfErr result (RefusesAs bytes.now options.now) }
    ensures well { IfErr result (λ e. is_well_at e ≡ true) }
{
    let report = report_in(alloc, bytes)?;
    let extras = extras_in(alloc, bytes, &report)?;
    let outline = match outline_of(
        alloc,
        &report,
        extras.extension.as_slice(),
        extras.history.as_slice(),
        options,
    ) {
        Ok(outline) => outline,
        Err(fault) => return Err(OpenFault::Refused(fault)),
    };
    match allowed_losses(alloc, options, &report, &extras, &outline) {
        Ok(warnings) => Ok(HeldHeader { outline, warnings }),
        Err(fault) => Err(fault),
    }
}

/// The report of a file that has these bytes.
///
/// # Errors
/// Why there is none.
fn report_in(alloc: Global, bytes: &[u8]) -> Result<Report, OpenFault>
    ensures ok { IfOk result (HasReport bytes.now) }
    ensures err { (o : OptionsOf) → IfErr result (RefusesAs bytes.now o) }
    ensures well { IfErr result (λ e. is_well_at e ≡ true) }
{
    let mut source = MemorySource::new(bytes);
    let mut other = None;
    match inspect_recognizing(alloc, &mut source, &mut other) {
        Ok(report) => Ok(report),
        Err(fault) => Err(OpenFault::Refused(unread_as(fault, other))),
    }
}

/// What the report of a file that has these bytes doesn't keep of them.
///
/// # Errors
/// Why they aren't read.
fn extras_in(alloc: Global, bytes: &[u8], report: &Report) -> Result<Extras, OpenFault>
    ensures ok { HasReport bytes.now report.now → IfOk result (HasExtras bytes.now report.now) }
    ensures err { (o : OptionsOf) → HasReport bytes.now report.now →
        IfErr result (RefusesAs bytes.now o) }
    ensures well { IfErr result (λ e. is_well_at e ≡ true) }
{
    let extension = extension_in(alloc, bytes, report)?;
    let history = history_in(alloc, bytes, report)?;
    Ok(Extras { extension, history })
}

/// What these bytes have of an extensible format.
///
/// # Errors
/// Why it isn't read.
fn extension_in(alloc: Global, bytes: &[u8], report: &Report) -> Result<Vec<u8>, OpenFault>
    ensures ok { IfOk result (λ v.
        v.items ≡ extension_at bytes.now (entry_of (codes "fmt ") report.now.chunks)) }
    ensures err { (o : OptionsOf) → HasReport bytes.now report.now →
        IfErr result (RefusesAs bytes.now o) }
    ensures well { IfErr result (λ e. is_well_at e ≡ true) }
{
    let mut source = MemorySource::new(bytes);
    match read_extension(alloc, &mut source, report) {
        Ok(extension) => Ok(extension),
        Err(fault) => Err(read_again(fault)),
    }
}

/// The coding history in these bytes.
///
/// # Errors
/// Why it isn't read.
fn history_in(alloc: Global, bytes: &[u8], report: &Report) -> Result<Vec<u8>, OpenFault>
    ensures ok { IfOk result (λ v.
        v.items ≡ history_at bytes.now (entry_of (codes "bext") report.now.chunks)) }
    ensures err { (o : OptionsOf) → HasReport bytes.now report.now →
        IfErr result (RefusesAs bytes.now o) }
    ensures well { IfErr result (λ e. is_well_at e ≡ true) }
{
    let mut source = MemorySource::new(bytes);
    match read_history(alloc, &mut source, report) {
        Ok(history) => Ok(history),
        Err(fault) => Err(read_again(fault)),
    }
}
