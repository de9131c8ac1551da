//! The takes of a folder are compared with receipts.
ghost use Rattle.std.specs.Prelude.{◌≡◌, ◌≤◌, ◌<◌, ◌+◌, ◌^◌, ◌++◌, ℕ, IsTrue, IfOk, IfErr, OnOk, option_map};
ghost use Rattle.bw_disk.specs.DiskSteps.{StaysWhole};
ghost use Rattle.bw_disk.specs.declared.reading.ReadFault.TheVariants.{Memory};
ghost use Rattle.bw_takes.specs.ReadCounts.{CountsReport, Rises, has_lines};
ghost use Rattle.bw_takes.specs.TakeReports.{told_by};
ghost use Rattle.bw_takes.specs.Verifications.{VerifiesTakes, matched_line, verified_told, verified_word};
ghost use Rattle.bw_takes.specs.VerifiedTakes.{VerifiesTake, verified_by};

use crate::judging::find_wrong;
use crate::line::put_word_line;
use crate::listing::{TakesReport, put_unread};
use bw_disk::{ReadFault, Volume};
use bw_model::Name;
use bw_take_files::Receipt;
use std::alloc::{AllocError, Global};

/// What is reported of receipts so far; of its report nothing counts but the lines and what is unread.
#[derive(Drop)]
pub(crate) struct Verifying {
    report: TakesReport,
    /// How many takes are as their receipts say.
    matched: u64,
}

/// A line for each take of a folder that isn't as its receipt says, and can be read, in the order of the
/// receipts; then how many are as theirs say; and a line on each file that can't be read. It is sound if
/// all are. Nothing is changed.
///
/// # Errors
/// `Disk` if the folder can't be listed; `Memory` if memory was refused.
///
/// # Not specified
/// When memory is refused.
pub fn verify_takes<D: Volume>(
    alloc: Global,
    disk: &mut D,
    folder: &str,
    receipts: &[Receipt],
) -> Result<TakesReport, ReadFault>
    // A file is reported as one that can't be read only if a call of the disk failed.
    ensures failures { CountsReport (D.failures disk.old) (D.failures disk.new) result }
    ensures disk { StaysWhole D.Disk disk.old disk.new }
    ensures report { IsTrue (D.honest disk.old) → IfOk result (λ report.
        VerifiesTakes receipts.now folder.now (D.contents disk.old) (told_by report)) }
{
    let _listed = disk.list(folder)?;
    let mut verifying = Verifying {
        report: TakesReport {
            lines: Vec::new(alloc),
            unread: Vec::new(alloc),
            sound: true,
        },
        matched: 0,
    };
    for receipt in receipts {
        verify_take(alloc, disk, folder, receipt, &mut verifying)?;
    }
    end_report(alloc, verifying, receipts.len() as u64)
}

/// Reports of the take of one more receipt, or of its file that can't be read.
fn verify_take<D: Volume>(
    alloc: Global,
    disk: &mut D,
    folder: &str,
    receipt: &Receipt,
    verifying: &mut Verifying,
) -> Result<(), ReadFault>
    requires few { verifying.old.matched + 1 < 2 ^ 64 }
    ensures few { OnOk result (verifying.new.matched ≤ verifying.old.matched + 1) }
    ensures counted { (start : ℕ) →
        Rises start (D.failures disk.old) (has_lines verifying.old.report.unread.items) →
        OnOk result (Rises start (D.failures disk.new) (has_lines verifying.new.report.unread.items)) }
    ensures grows { D.failures disk.old ≤ D.failures disk.new }
    ensures memory { IfErr result (λ fault. fault ≡ Memory) }
    ensures disk { StaysWhole D.Disk disk.old disk.new }
    ensures told { IsTrue (D.honest disk.old) → OnOk result (VerifiesTake folder.now
        (D.contents disk.old) receipt.now (verified_by verifying.old) (verified_by verifying.new)) }
{
    match find_wrong(alloc, disk, folder, receipt) {
        Ok(word) => put_verified(alloc, &receipt.name, word, verifying),
        Err(ReadFault::Disk) => {
            put_unread(alloc, disk, folder, &receipt.name, &mut verifying.report)
        }
        Err(ReadFault::Memory) => Err(ReadFault::Memory),
    }
}

/// Adds the line of a take with which this is wrong, or counts it if nothing is.
fn put_verified(
    alloc: Global,
    name: &Name,
    word: Option<&str>,
    verifying: &mut Verifying,
) -> Result<(), ReadFault>
    requires few { verifying.old.matched + 1 < 2 ^ 64 }
    ensures memory { IfErr result (λ fault. fault ≡ Memory) }
    ensures unread { verifying.new.report.unread ≡ verifying.old.report.unread }
    ensures few { verifying.new.matched ≤ verifying.old.matched + 1 }
    ensures told { OnOk result (verified_by verifying.new ≡ verified_word
        (verified_by verifying.old) name.now (option_map (λ w. w.now) word.entry)) }
{
    let Some(word) = word else {
        verifying.matched += 1;
        return Ok(());
    };
    match put_word_line(alloc, name, word, &mut verifying.report.lines) {
        Ok(()) => Ok(()),
        Err(_) => Err(ReadFault::Memory),
    }
}

/// The report of so many receipts, with its last line.
fn end_report(alloc: Global, verifying: Verifying, all: u64) -> Result<TakesReport, ReadFault>
    ensures memory { IfErr result (λ fault. fault ≡ Memory) }
    ensures told { IfOk result (λ report. told_by report ≡ verified_told all (verified_by verifying)) }
    ensures unread { IfOk result (λ report. report.unread ≡ verifying.report.unread) }
{
    let matched = verifying.matched;
    let mut report = verifying.report;
    report.sound = matched == all;
    match put_matched(alloc, matched, all, &mut report.lines) {
        Ok(()) => Ok(report),
        Err(_) => Err(ReadFault::Memory),
    }
}

/// Appends how many of so many takes are as their receipts say.
#[tactic(auto, unfolding(crate::specs::Verifications::matched_line))]
fn put_matched(alloc: Global, matched: u64, all: u64, lines: &mut Vec<u8>) -> Result<(), AllocError>
    ensures { OnOk result (lines.new.items ≡ lines.old.items ++ matched_line matched all) }
{
    let line = format!(in alloc; "matched {matched} of {all}\n")?;
    lines.extend_from_slice(line.as_bytes())
}
