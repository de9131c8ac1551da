//! The headerless samples in a file are sent.
ghost use Rattle.std.specs.Prelude.{◌≡◌, IsTrue};
ghost use Rattle.bw_console.specs.Prints.{failures_if};
ghost use Rattle.bw_plan.specs.AllowedSettings.{are_settings};
ghost use Rattle.bw_recorder.specs.Openings.{is_system_well};
ghost use Rattle.bw_recorder.specs.Packs.{HasPacked, Packing};
ghost use Rattle.bw_send_file.specs.FileLooks.{LooksAt};
ghost use Rattle.bw_send_file.specs.PcmSendings.{IsPcmSent, OpensSamples, empty_at};

use crate::pcm_job::PcmJob;
use crate::pcm_sending::send_opened;
use crate::{Errand, PlanFeed, Way};
use bw_console::Exit;
use bw_plan::{Options, Pcm, Plan, RecordingFault, RecordingKind, block_frames};
use bw_ports::RecordingFiles;
use bw_recorder::{NO_MEMORY, OpenFault, read_options, refuse_options, unread};
use bw_upload::{Feed, Observer, SendingSides};
use std::alloc::Global;

/// Sends the headerless samples in a job's file, as `send_feed` does. Before CLOSE the file
/// is looked at again: no CLOSE is sent if its length or its time of change is another one.
///
/// Before any link is made: `Refused` for a fault of the format or of the file, whose line is
/// `send: KIND at OFFSET`; `Usage` if a setting can't be read; `Device` if the file can't be opened,
/// or a read failed; `Memory` if memory was refused.
///
/// # Not specified
/// - What `send_feed` leaves open.
/// - When the system fails, and the reason in its line.
/// - Of a file whose bytes aren't reported, or whose reported length is another one, which bytes the
///   requests are of.
pub fn send_samples<F: RecordingFiles, X: SendingSides, V: Observer>(
    job: &PcmJob<'_>,
    files: &mut F,
    way: Way<'_, X>,
    observer: &mut V,
    out: &mut X::Output,
    faults: &mut X::Diagnostics,
) -> Exit
    // The feed has all requests of the plan of the samples, which are a recording.
    ensures { (did : Packing) × (did.exit ≡ result)
        × IsPcmSent ⟦<PlanFeed<F::File, F::Stamped> as Feed>⟧ X.Pause.Pause X.Dial.Dial X.Dial.Reader.Source
        X.Dial.Writer.Sink job.now.recorder job.now.file
        (OpensSamples ⟦<PlanFeed<F::File, F::Stamped> as Feed>⟧ (LooksAt F.Stamped.Stamped)
        (F.file_at files.old job.now.file.file.path.now) (F.stamp_at files.old job.now.file.file.path.now)
        job.now.file.pcm)
        (record { pause = way.entry.pause.now; dial = way.entry.dial.now })
        (record { pause = way.exit.0.now; dial = way.exit.1.0.now }) did
        × (F.failures files.new ≡ failures_if did.is_system_well (F.failures files.old))
        × HasPacked X.Output.Sink X.Diagnostics.Sink did out.old out.new faults.old faults.new }
{
    let options = match read_options(way.alloc, &job.file.file) {
        Ok(options) => options,
        Err(fault) => return refuse_options(fault, faults),
    };
    let path = job.file.file.path;
    let opened = open_samples(way.alloc, files, path, job.file.pcm, &options);
    let errand = Errand {
        recorder: job.recorder,
        path,
    };
    send_opened(&errand, opened, way, observer, out, faults)
}

/// Looks at the file at a path, and opens its samples.
///
/// # Errors
/// Why they can't be sent.
fn open_samples<F: RecordingFiles>(
    alloc: Global,
    files: &mut F,
    path: &str,
    pcm: Pcm,
    options: &Options,
) -> Result<PlanFeed<F::File, F::Stamped>, OpenFault>
    requires allowed { IsTrue (are_settings options.now.settings) }
    ensures opens { OpensSamples ⟦<PlanFeed<F::File, F::Stamped> as Feed>⟧
        (LooksAt F.Stamped.Stamped) (F.file_at files.old path.now) (F.stamp_at files.old path.now)
        pcm options.now result }
    ensures count { F.failures files.new ≡ failures_if (is_system_well result) (F.failures files.old) }
{
    let Ok(stamped) = files.stamped(path) else {
        return Err(OpenFault::Refused(NO_MEMORY));
    };
    let stamp = match files.stamp(path) {
        Ok(stamp) => stamp,
        Err(error) => return Err(OpenFault::Unopened(error)),
    };
    let outline = match pcm.outline(alloc, stamp.len, options) {
        Ok(outline) => outline,
        Err(fault) => return Err(OpenFault::Refused(fault)),
    };
    if outline.samples_len() == 0 {
        return Err(OpenFault::Refused(no_frame(pcm)));
    }
    let frames = block_frames(options, outline.format());
    let mut reader = match files.open(path) {
        Ok(reader) => reader,
        Err(error) => return Err(OpenFault::Unopened(error)),
    };
    match Plan::begin(alloc, &mut reader, outline, frames, pcm.skip) {
        Ok(plan) => Ok(PlanFeed::new(alloc, plan, reader, stamped, stamp)),
        Err(fault) => Err(OpenFault::Refused(unread(fault))),
    }
}

/// The fault of a file that has no frame where its samples would begin.
fn no_frame(pcm: Pcm) -> RecordingFault
    ensures { result ≡ empty_at pcm }
{
    RecordingFault {
        kind: RecordingKind::Empty,
        offset: pcm.skip,
    }
}
