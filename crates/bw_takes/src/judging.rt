//! What is wrong with a take by its receipt.
ghost use Rattle.std.specs.Prelude.{◌≡◌, IsTrue, IfOk, option_map};
ghost use Rattle.bw_journal.specs.Rows.{row_count};
ghost use Rattle.bw_store.specs.Stores.{Counts};
ghost use Rattle.bw_disk.specs.DiskSteps.{StaysWhole};
ghost use Rattle.bw_disk.specs.ReadFaults.{is_disk_fault};
ghost use Rattle.bw_recovery.specs.Paths.{wave_path};
ghost use Rattle.bw_takes.specs.TakeReports.{judged_finding};
ghost use Rattle.bw_takes.specs.TakeSummaries.{story_summary};
ghost use Rattle.bw_takes.specs.Verifications.{is_received, lone_word, wrong_closed, wrong_in, wrong_judged};
ghost use Rattle.bw_takes.specs.Verifications.{wrong_opened, wrong_summary};

use crate::comparing::Depth;
use crate::finding::TakeFinding;
use crate::hashing::{Examined, SampleDigest, examine_in_form};
use crate::line::cause_word;
use crate::listing::{LineStyle, ReportForm};
use bw_disk::{ReadFault, Volume};
use bw_journal::Replayed;
use bw_model::Name;
use bw_recovery::path_in;
use bw_take_files::Receipt;
use std::alloc::Global;

/// Takes are looked at by their journals, and closed ones are hashed.
const VERIFIED: ReportForm = ReportForm {
    style: LineStyle::Words,
    depth: Depth::Journals,
    digest: true,
};

/// What is wrong with the take of a receipt in a folder, in a word; `None` if it is closed, and its
/// samples are those of the receipt. Nothing is changed.
///
/// # Errors
/// `Disk` if a call of the disk failed; `Memory` if memory was refused, or the journal has more than
/// 2^40 bytes.
pub(crate) fn find_wrong<D: Volume>(
    alloc: Global,
    disk: &mut D,
    folder: &str,
    receipt: &Receipt,
) -> Result<Option<&'static str>, ReadFault>
    ensures failures { Counts (D.failures disk.old) (D.failures disk.new) (is_disk_fault result) }
    ensures disk { StaysWhole D.Disk disk.old disk.new }
    ensures word { IsTrue (D.honest disk.old) → IfOk result (λ word.
        option_map (λ w. w.now) word ≡ wrong_in folder.now (D.contents disk.old) receipt.now) }
{
    let take = examine_in_form(alloc, disk, folder, &receipt.name, VERIFIED)?;
    judge_found(alloc, disk, folder, receipt, &take)
}

/// What is wrong with the take of a receipt of which this is found.
fn judge_found<D: Volume>(
    alloc: Global,
    disk: &mut D,
    folder: &str,
    receipt: &Receipt,
    take: &Examined,
) -> Result<Option<&'static str>, ReadFault>
    ensures failures { Counts (D.failures disk.old) (D.failures disk.new) (is_disk_fault result) }
    ensures disk { StaysWhole D.Disk disk.old disk.new }
    ensures word { IsTrue (D.honest disk.old) → IfOk result (λ word. option_map (λ w. w.now) word
        ≡ wrong_judged receipt.now (judged_finding take.now.finding)
        (D.contents disk.old (wave_path folder.now receipt.now.name)) take.now.digest) }
{
    match &take.finding {
        TakeFinding::Stood => look_for_file(alloc, disk, folder, &receipt.name),
        TakeFinding::Unbegun => Ok(Some("unopened")),
        TakeFinding::Refused(fault) => Ok(Some(cause_word(fault))),
        TakeFinding::Begun(replayed) => Ok(wrong_begun(receipt, replayed, take.digest)),
        TakeFinding::Changed(_) => Ok(Some("ChangedBlock")),
    }
}

/// What is wrong with a name without a journal: whether a file stands there, or nothing.
fn look_for_file<D: Volume>(
    alloc: Global,
    disk: &mut D,
    folder: &str,
    name: &Name,
) -> Result<Option<&'static str>, ReadFault>
    ensures failures { Counts (D.failures disk.old) (D.failures disk.new) (is_disk_fault result) }
    ensures disk { StaysWhole D.Disk disk.old disk.new }
    ensures word { IsTrue (D.honest disk.old) → IfOk result (λ word. option_map (λ w. w.now) word
        ≡ Some (lone_word (D.contents disk.old (wave_path folder.now name.now)))) }
{
    let wave = path_in(alloc, folder, name, ".wav")?;
    let Ok(found) = disk.open(wave.as_str()) else {
        return Err(ReadFault::Disk);
    };
    match found {
        Some(_) => Ok(Some("stood")),
        None => Ok(Some("missing")),
    }
}

/// What is wrong with a take whose journal says this.
fn wrong_begun(receipt: &Receipt, replayed: &Replayed, digest: SampleDigest) -> Option<&'static str>
    ensures { option_map (λ w. w.now) result ≡ wrong_summary receipt.now
        (story_summary replayed.now.state.parts (row_count replayed.now.table.items)) digest }
{
    let state = &replayed.state;
    if state.is_taken() {
        return Some("stood");
    }
    match state.format() {
        Some(_format) => wrong_opened(receipt, state.is_closed(), state.frames(), digest),
        None => Some("unopened"),
    }
}

/// What is wrong with an opened take of so many frames.
fn wrong_opened(
    receipt: &Receipt,
    closed: bool,
    frames: u64,
    digest: SampleDigest,
) -> Option<&'static str>
    ensures { option_map (λ w. w.now) result ≡ wrong_opened receipt.now closed frames digest }
{
    if closed {
        wrong_closed(receipt, frames, digest)
    } else {
        Some("open")
    }
}

/// What is wrong with a closed take of so many frames.
fn wrong_closed(receipt: &Receipt, frames: u64, digest: SampleDigest) -> Option<&'static str>
    ensures { option_map (λ w. w.now) result ≡ wrong_closed receipt.now frames digest }
{
    if is_received(receipt, frames, digest) {
        None
    } else {
        Some("differs")
    }
}

/// Whether samples of so many frames, with this digest, are those of a receipt.
fn is_received(receipt: &Receipt, frames: u64, digest: SampleDigest) -> bool
    ensures { result ≡ is_received receipt.now frames digest }
{
    match digest {
        SampleDigest::Unasked => false,
        SampleDigest::Missing => false,
        SampleDigest::Known(digest) => frames == receipt.frames && digest[..] == receipt.digest[..],
    }
}
