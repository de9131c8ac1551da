//! The picture of the file at a path.
ghost use Rattle.std.specs.Prelude.{◌≡◌, None, Some, IfErr, IfOk, OnOk};
ghost use Rattle.bw_console.specs.Prints.{failures_if};
ghost use Rattle.bw_picture.specs.Pictures.{HasRecording, IsPictureOf, RefusesPicture};
ghost use Rattle.bw_picture.specs.Pictures.{too_long as too_long_at};
ghost use Rattle.bw_inspect.specs.Reports.{reported_by};
ghost use Rattle.bw_picture.specs.Drawings.{LacksFrames};
ghost use Rattle.bw_picture.specs.Fits.{IsDrawable, fitting_shape};
ghost use Rattle.bw_picture.specs.Pages.{picture_text};
ghost use Rattle.bw_plan.specs.Recordings.{no_options};
ghost use Rattle.bw_recorder.specs.FileReports.{HasReport};
ghost use Rattle.bw_recorder.specs.Openings.{RefusesAs, is_system_well};
ghost use Rattle.bw_stream.specs.Readers.{Of};

use crate::fault::too_long;
use crate::{Shape, fit, picture};
use bw_inspect::{InspectFault, InspectKind, Report, skip_at};
use bw_plan::{Options, Strictness, outline_of};
use bw_ports::RecordingFiles;
use bw_recorder::{OpenFault, extension_at_path, read_again, read_report};
use bw_stream::Source;
use std::alloc::Global;

/// The picture of the file at a path, which is opened for its report, its format and its samples.
///
/// # Errors
/// Why there is none.
pub(crate) fn picture_at<F: RecordingFiles>(
    alloc: Global,
    files: &mut F,
    path: &str,
) -> Result<Vec<u8>, OpenFault>
    ensures ok { IfOk result (λ v. Of (F.file_at files.old path.now) (λ b. IsPictureOf b v.items)) }
    ensures err { IfErr result (λ e. Of (F.file_at files.old path.now) (λ b. RefusesPicture b e)) }
    ensures count { F.failures files.new
        ≡ failures_if (is_system_well result) (F.failures files.old) }
{
    let report = read_report(alloc, files, path)?;
    check_recording(alloc, files, path, &report)?;
    let shape = shape_of(&report)?;
    draw_samples(alloc, files, path, &report, &shape)
}

/// Checks that the file at a path, which has this report, has a recording.
fn check_recording<F: RecordingFiles>(
    alloc: Global,
    files: &mut F,
    path: &str,
    report: &Report,
) -> Result<(), OpenFault>
    ensures ok { OnOk result (Of (F.file_at files.old path.now) (λ b.
        HasReport b report.now → HasRecording b)) }
    ensures err { IfErr result (λ e. Of (F.file_at files.old path.now) (λ b.
        HasReport b report.now → RefusesAs b no_options e)) }
    ensures files { F.file_at files.new ≡ F.file_at files.old }
    ensures count { F.failures files.new
        ≡ failures_if (is_system_well result) (F.failures files.old) }
{
    let extension = extension_at_path(alloc, files, path, report)?;
    let options = Options::new(Vec::new(alloc), Strictness::Lenient, None);
    match outline_of(alloc, report, extension.as_slice(), b"", &options) {
        Ok(_outline) => Ok(()),
        Err(fault) => Err(OpenFault::Refused(fault)),
    }
}

/// How the samples of a file with this report are drawn.
///
/// # Errors
/// TooLong.
fn shape_of(report: &Report) -> Result<Shape, OpenFault>
    ensures ok { IfOk result (λ s. fitting_shape (reported_by report.now) ≡ Some s) }
    ensures drawable { IfOk result IsDrawable }
    ensures unfit { IfErr result (λ e. fitting_shape (reported_by report.now) ≡ None) }
    ensures err { IfErr result (λ e. e ≡ too_long_at report.now.data_at) }
{
    match fit(report) {
        Some(shape) => Ok(shape),
        None => Err(too_long(report.data_at)),
    }
}

/// The picture of the samples of the file at a path, which has this report.
fn draw_samples<F: RecordingFiles>(
    alloc: Global,
    files: &mut F,
    path: &str,
    report: &Report,
    shape: &Shape,
) -> Result<Vec<u8>, OpenFault>
    requires drawable { IsDrawable shape.now }
    requires fits { fitting_shape (reported_by report.now) ≡ Some shape.now }
    ensures ok { IfOk result (λ v. Of (F.file_at files.old path.now) (λ b.
        v.items ≡ picture_text b shape.now report.now.fmt.rate report.now.cues)) }
    ensures err { IfErr result (λ e. Of (F.file_at files.old path.now) (λ b.
        HasReport b report.now → RefusesAs b no_options e)) }
    ensures count { F.failures files.new
        ≡ failures_if (is_system_well result) (F.failures files.old) }
{
    let mut file = match files.open(path) {
        Ok(file) => file,
        Err(error) => return Err(OpenFault::Unopened(error)),
    };
    match picture_over(alloc, &mut file, report, shape) {
        Ok(text) => Ok(text),
        Err(fault) => Err(read_again(fault)),
    }
}

/// The picture of the samples of a reader at its start.
///
/// # Errors
/// Truncated where the input ends before the last frame does; Read; Memory.
fn picture_over<R: Source>(
    alloc: Global,
    reader: &mut R,
    report: &Report,
    shape: &Shape,
) -> Result<Vec<u8>, InspectFault>
    requires drawable { IsDrawable shape.now }
    ensures ok { IfOk result (λ v. Of (R.left reader.old) (λ b.
        v.items ≡ picture_text b shape.now report.now.fmt.rate report.now.cues)) }
    ensures err { IfErr result (λ f. Of (R.left reader.old) (λ b. LacksFrames b shape.now f)) }
{
    let cut = InspectFault {
        kind: InspectKind::Truncated,
        offset: shape.place,
    };
    skip_at(reader, 0, shape.place, cut)?;
    picture(alloc, reader, shape, report.fmt.rate, &report.cues)
}
