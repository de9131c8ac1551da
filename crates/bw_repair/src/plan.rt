//! What is to be written into a file.
ghost use Rattle.std.specs.Prelude.{◌≡◌, IfOk, IfErr};
ghost use Rattle.bw_stream.specs.Readers.{Of};
ghost use Rattle.bw_console.specs.Prints.{failures_if};
ghost use Rattle.bw_model.specs.Report.{frames_of};
ghost use Rattle.bw_repair.specs.DataHeads.{IsDataHead};
ghost use Rattle.bw_repair.specs.Near.{IsNear};
ghost use Rattle.bw_repair.specs.Soundnesses.{HasNearPlace, IsSoundness, RefusesPlan, StandsAsItIs};
ghost use Rattle.bw_repair.specs.Soundnesses.{is_plan_well};

use crate::{DataHead, RepairFault, Sizes, check, decide, find_data};
use bw_inspect::{InspectFault, Report, inspect};
use bw_ports::EditedFiles;
use std::alloc::Global;
use std::io;

/// The sizes of a file that are to change.
#[derive(Clone, Copy, Debug, PartialEq, Eq)]
pub struct SizePlan {
    /// Where the head of the samples is, in bytes from the file's start.
    pub place: u64,
    pub old: Sizes,
    pub new: Sizes,
    /// How many frames the file reads as with the new sizes.
    pub frames: u64,
}

/// Whether a file has its sizes.
#[derive(Clone, Copy, Debug, PartialEq, Eq)]
pub enum Soundness {
    /// It is sound, and has so many frames.
    Sound(u64),
    /// It lacks sizes.
    Lacking(SizePlan),
}

/// Why nothing is found out about a file.
#[derive(Drop)]
pub enum PlanFault {
    /// The system can't open it.
    Unopened(io::Error),
    /// It has this fault, or isn't read to its end.
    Refused(RepairFault),
}

/// Finds out which sizes the file at a path lacks. The file is opened twice, and not changed.
///
/// # Errors
/// Why that isn't certain, or the file isn't read.
///
/// # Not specified
/// - When memory is refused, and when the system fails.
/// - Of a file whose bytes aren't reported: that they are the same each time.
/// - Whether a reader, which is dropped, counted a failed read.
pub fn plan_repair<F: EditedFiles>(
    alloc: Global,
    files: &mut F,
    path: &str,
) -> Result<Soundness, PlanFault>
    // Sound, or which sizes it lacks, where, and how many frames it has with them.
    ensures ok { IfOk result (λ found. Of (F.content_at files.old path.now) (λ b.
        IsSoundness b found)) }
    ensures err { IfErr result (λ e. Of (F.content_at files.old path.now) (λ b. RefusesPlan b e)) }
    ensures near { IfOk result HasNearPlace }
    ensures contents { F.content_at files.new ≡ F.content_at files.old }
    ensures count { F.edit_failures files.new ≡
        failures_if (is_plan_well result) (F.edit_failures files.old) }
{
    let mut reader = match files.open_edited(path) {
        Ok(reader) => reader,
        Err(error) => return Err(PlanFault::Unopened(error)),
    };
    match find_data(&mut reader) {
        Ok(Some(head)) => plan_at(alloc, files, path, &head),
        Ok(None) => look(alloc, files, path),
        Err(fault) => Err(PlanFault::Refused(RepairFault::from(fault))),
    }
}

/// What is to be written into a file whose samples' head is this one.
///
/// # Errors
/// As for `plan_repair`.
fn plan_at<F: EditedFiles>(
    alloc: Global,
    files: &mut F,
    path: &str,
    head: &DataHead,
) -> Result<Soundness, PlanFault>
    requires { IsNear head.now }
    ensures ok { IfOk result (λ found. Of (F.content_at files.old path.now) (λ b.
        IsDataHead b head.now → IsSoundness b found)) }
    ensures err { IfErr result (λ e. Of (F.content_at files.old path.now) (λ b.
        IsDataHead b head.now → RefusesPlan b e)) }
    ensures near { IfOk result HasNearPlace }
    ensures contents { F.content_at files.new ≡ F.content_at files.old }
    ensures count { F.edit_failures files.new ≡
        failures_if (is_plan_well result) (F.edit_failures files.old) }
{
    let sizes = match decide(head) {
        Ok(sizes) => sizes,
        Err(fault) => return Err(PlanFault::Refused(fault)),
    };
    if sizes.form == head.form && sizes.data == head.size {
        return look(alloc, files, path);
    }
    let reader = match files.open_edited(path) {
        Ok(reader) => reader,
        Err(error) => return Err(PlanFault::Unopened(error)),
    };
    match check(alloc, reader, head.place, sizes) {
        Ok(report) => Ok(Soundness::Lacking(plan_with(head, sizes, &report))),
        Err(fault) => Err(PlanFault::Refused(RepairFault::from(fault))),
    }
}

/// What is written, if these sizes are, and the file has this report with them.
fn plan_with(head: &DataHead, new: Sizes, report: &Report) -> SizePlan
    ensures place { result.place ≡ head.now.place }
    ensures old { result.old ≡ record { form = head.now.form; «data» = head.now.size } }
    ensures new { result.new ≡ new }
    ensures frames { result.frames ≡ frames_of report.now.data_size report.now.fmt.align }
{
    SizePlan {
        place: head.place,
        old: Sizes {
            form: head.form,
            data: head.size,
        },
        new,
        frames: frames_in(report),
    }
}

/// A file that is to stay as it is, if it can be read.
///
/// # Errors
/// The file's first fault; why it isn't opened or read.
fn look<F: EditedFiles>(alloc: Global, files: &mut F, path: &str) -> Result<Soundness, PlanFault>
    ensures ok { IfOk result (λ found. Of (F.content_at files.old path.now) (λ b.
        StandsAsItIs b → IsSoundness b found)) }
    ensures err { IfErr result (λ e. Of (F.content_at files.old path.now) (λ b.
        StandsAsItIs b → RefusesPlan b e)) }
    ensures near { IfOk result HasNearPlace }
    ensures contents { F.content_at files.new ≡ F.content_at files.old }
    ensures count { F.edit_failures files.new ≡
        failures_if (is_plan_well result) (F.edit_failures files.old) }
{
    let mut reader = match files.open_edited(path) {
        Ok(reader) => reader,
        Err(error) => return Err(PlanFault::Unopened(error)),
    };
    match inspect(alloc, &mut reader) {
        Ok(report) => Ok(Soundness::Sound(frames_in(&report))),
        Err(fault) => Err(PlanFault::Refused(RepairFault::from(fault))),
    }
}

/// How many whole frames a report's file has.
fn frames_in(report: &Report) -> u64
    ensures { result ≡ frames_of report.now.data_size report.now.fmt.align }
{
    if report.fmt.align == 0 {
        return 0;
    }
    report.data_size / report.fmt.align as u64
}
