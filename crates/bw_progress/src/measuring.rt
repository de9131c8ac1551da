//! A take is measured, before it is sent.
ghost use Rattle.std.specs.Prelude.{◌≡◌, ℕ, codes, IfOk, IfSome, Some, map, string_bytes};
ghost use Rattle.bw_model.specs.Reading.{entry_of};
ghost use Rattle.bw_plan.specs.Recordings.{extension_at, history_at};
ghost use Rattle.bw_progress.specs.Measures.{MeasuresFile, MeasuresSamples};
ghost use Rattle.bw_progress.specs.Files.{HoldsOfOptions, HasOutline};
ghost use Rattle.bw_recorder.specs.FileReports.{HasReport};
ghost use Rattle.bw_stream.specs.Readers.{Of};

use crate::measure::{Extent, TakeMeasure};
use bw_inspect::{Report, inspect};
use bw_plan::{Options, Outline, Pcm, outline_of, read_extension, read_history};
use bw_ports::RecordingFiles;
use bw_recorder::{RecordingFile, options_of};
use std::alloc::Global;

/// The measure of the recording in a file, which is opened three times; None if it can't be
/// measured, as where it has no recording.
///
/// # Not specified
/// - When there is none: whoever sends the file reports why it can't be sent.
/// - Of a file whose bytes aren't reported, which measure it is.
pub fn measure_file<F: RecordingFiles>(
    alloc: Global,
    files: &mut F,
    file: &RecordingFile<'_>,
) -> Option<TakeMeasure>
    ensures { IfSome result (λ m. Of (F.file_at files.old file.now.path.now) (λ b.
        HoldsOfOptions file.now (λ o. MeasuresFile b o m))) }
{
    let Ok(Some(options)) = options_of(alloc, file) else {
        return None;
    };
    match outline_at(alloc, files, file.path, &options) {
        Some(outline) => Some(TakeMeasure::new(&outline, &options, Extent::Whole)),
        None => None,
    }
}

/// The measure of the headerless samples in a file; None if they can't be measured. While they are
/// still being written, their number isn't known.
///
/// # Not specified
/// - When there is none: whoever sends the file reports why it can't be sent.
/// - How long the file is.
pub fn measure_samples<F: RecordingFiles>(
    alloc: Global,
    files: &mut F,
    file: &RecordingFile<'_>,
    pcm: Pcm,
    extent: Extent,
) -> Option<TakeMeasure>
    ensures { IfSome result (λ m. HoldsOfOptions file.now (λ o. MeasuresSamples extent pcm o m)) }
{
    let Ok(Some(options)) = options_of(alloc, file) else {
        return None;
    };
    let len = len_of(files, file.path, pcm, extent)?;
    match pcm.outline(alloc, len, &options) {
        Ok(outline) => Some(TakeMeasure::new(&outline, &options, extent)),
        Err(_fault) => None,
    }
}

/// How many bytes a file of samples has; while it is still being written, those before the samples.
fn len_of<F: RecordingFiles>(files: &mut F, path: &str, pcm: Pcm, extent: Extent) -> Option<u64> {
    match extent {
        Extent::Growing => Some(pcm.skip),
        Extent::Whole => match files.stamp(path) {
            Ok(stamp) => Some(stamp.len),
            Err(_error) => None,
        },
    }
}

/// The recording in the file at a path but for its samples, if it has one.
fn outline_at<F: RecordingFiles>(
    alloc: Global,
    files: &mut F,
    path: &str,
    options: &Options,
) -> Option<Outline>
    ensures { IfSome result (λ x. Of (F.file_at files.old path.now) (λ b.
        HasOutline b options.now x)) }
{
    let report = report_at(alloc, files, path)?;
    let extension = extension_at_path(alloc, files, path, &report)?;
    let history = history_at_path(alloc, files, path, &report)?;
    match outline_of(
        alloc,
        &report,
        extension.as_slice(),
        history.as_slice(),
        options,
    ) {
        Ok(outline) => Some(outline),
        Err(_fault) => None,
    }
}

/// The report of the file at a path, if it has one.
fn report_at<F: RecordingFiles>(alloc: Global, files: &mut F, path: &str) -> Option<Report>
    ensures report { IfSome result (λ r. Of (F.file_at files.old path.now) (λ b. HasReport b r)) }
    ensures files { F.file_at files.new ≡ F.file_at files.old }
{
    let Ok(mut file) = files.open(path) else {
        return None;
    };
    match inspect(alloc, &mut file) {
        Ok(report) => Some(report),
        Err(_fault) => None,
    }
}

/// What the file at a path has of an extensible format.
fn extension_at_path<F: RecordingFiles>(
    alloc: Global,
    files: &mut F,
    path: &str,
    report: &Report,
) -> Option<Vec<u8>>
    ensures extension { IfSome result (λ v. Of (F.file_at files.old path.now) (λ b.
        v.items ≡ extension_at b (entry_of (codes "fmt ") report.now.chunks))) }
    ensures files { F.file_at files.new ≡ F.file_at files.old }
{
    let Ok(mut file) = files.open(path) else {
        return None;
    };
    match read_extension(alloc, &mut file, report) {
        Ok(extension) => Some(extension),
        Err(_fault) => None,
    }
}

/// The coding history in the file at a path.
fn history_at_path<F: RecordingFiles>(
    alloc: Global,
    files: &mut F,
    path: &str,
    report: &Report,
) -> Option<Vec<u8>>
    ensures history { IfSome result (λ v. Of (F.file_at files.old path.now) (λ b.
        v.items ≡ history_at b (entry_of (codes "bext") report.now.chunks))) }
    ensures files { F.file_at files.new ≡ F.file_at files.old }
{
    let Ok(mut file) = files.open(path) else {
        return None;
    };
    match read_history(alloc, &mut file, report) {
        Ok(history) => Some(history),
        Err(_fault) => None,
    }
}
