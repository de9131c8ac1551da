//! What is said of the SHA-256 of a take's samples.
ghost use Rattle.std.specs.Prelude.{◌≡◌, true, IsTrue, IfOk};
ghost use Rattle.bw_store.specs.Stores.{Counts};
ghost use Rattle.bw_disk.specs.DiskSteps.{StaysWhole};
ghost use Rattle.bw_disk.specs.ReadFaults.{is_disk_fault};
ghost use Rattle.bw_recovery.specs.Paths.{wave_path};
ghost use Rattle.bw_takes.specs.TakeDigests.{closed_judged, closed_story, digest_said};
ghost use Rattle.bw_takes.specs.TakeReports.{digest_in, finding_summary, judged_finding, summary_in};
ghost use Rattle.bw_takes.specs.TakeReports.{take_judged_in};

use crate::comparing::examine_take;
use crate::finding::TakeFinding;
use crate::listing::ReportForm;
use bw_disk::{ReadFault, Volume};
use bw_model::Name;
use bw_recovery::path_in;
use bw_take::TakeState;
use bw_take_files::digest_samples;
use std::alloc::Global;

/// What is said of the SHA-256 of a take's samples.
#[derive(Clone, Copy, Debug, PartialEq, Eq)]
pub enum SampleDigest {
    /// Nothing: it isn't asked for.
    Unasked,
    /// There is none: the take isn't closed, or something is wrong with it.
    Missing,
    /// It is this.
    Known([u8; 32]),
}

/// A take that was looked at.
#[derive(Drop)]
pub(crate) struct Examined {
    pub(crate) finding: TakeFinding,
    pub(crate) digest: SampleDigest,
}

/// What is found of a take in a folder, and the digest of its samples, as far as it is asked for.
/// Nothing is changed.
///
/// # Errors
/// `Disk` if a call of the disk failed; `Memory` if memory was refused, or the journal has more than
/// 2^40 bytes or 2^32 numbers.
pub(crate) fn examine_in_form<D: Volume>(
    alloc: Global,
    disk: &mut D,
    folder: &str,
    name: &Name,
    form: ReportForm,
) -> Result<Examined, ReadFault>
    ensures failures { Counts (D.failures disk.old) (D.failures disk.new) (is_disk_fault result) }
    ensures disk { StaysWhole D.Disk disk.old disk.new }
    ensures found { IsTrue (D.honest disk.old) → IfOk result (λ take. finding_summary take.finding
        ≡ summary_in form.depth folder.now (D.contents disk.old) name.now) }
    ensures judged { IsTrue (D.honest disk.old) → IfOk result (λ take. judged_finding take.finding
        ≡ take_judged_in form.depth folder.now (D.contents disk.old) name.now) }
    ensures digest { IsTrue (D.honest disk.old) → IfOk result (λ take. take.digest
        ≡ digest_in form folder.now (D.contents disk.old) name.now) }
{
    let finding = examine_take(alloc, disk, folder, name, form.depth)?;
    let digest = digest_found(alloc, disk, folder, name, form.digest, &finding)?;
    Ok(Examined { finding, digest })
}

/// What is said of the digest of a take of which this is found.
fn digest_found<D: Volume>(
    alloc: Global,
    disk: &mut D,
    folder: &str,
    name: &Name,
    asked: bool,
    finding: &TakeFinding,
) -> Result<SampleDigest, ReadFault>
    ensures failures { Counts (D.failures disk.old) (D.failures disk.new) (is_disk_fault result) }
    ensures disk { StaysWhole D.Disk disk.old disk.new }
    ensures digest { IsTrue (D.honest disk.old) → IfOk result (λ said. said ≡ digest_said asked
        (closed_judged (judged_finding finding.now))
        (D.contents disk.old (wave_path folder.now name.now))) }
{
    if !asked {
        return Ok(SampleDigest::Unasked);
    }
    match finding {
        TakeFinding::Begun(replayed) => digest_begun(alloc, disk, folder, name, &replayed.state),
        TakeFinding::Stood => Ok(SampleDigest::Missing),
        TakeFinding::Unbegun => Ok(SampleDigest::Missing),
        TakeFinding::Refused(_) => Ok(SampleDigest::Missing),
        TakeFinding::Changed(_) => Ok(SampleDigest::Missing),
    }
}

/// The same of a take whose journal says this, where it is asked for.
fn digest_begun<D: Volume>(
    alloc: Global,
    disk: &mut D,
    folder: &str,
    name: &Name,
    state: &TakeState,
) -> Result<SampleDigest, ReadFault>
    ensures failures { Counts (D.failures disk.old) (D.failures disk.new) (is_disk_fault result) }
    ensures disk { StaysWhole D.Disk disk.old disk.new }
    ensures digest { IsTrue (D.honest disk.old) → IfOk result (λ said. said ≡ digest_said true
        (closed_story state.now.parts) (D.contents disk.old (wave_path folder.now name.now))) }
{
    if state.is_taken() || !state.is_closed() {
        return Ok(SampleDigest::Missing);
    }
    let wave = path_in(alloc, folder, name, ".wav")?;
    match digest_samples(disk, wave.as_str(), state)? {
        Some(digest) => Ok(SampleDigest::Known(digest)),
        None => Ok(SampleDigest::Missing),
    }
}
