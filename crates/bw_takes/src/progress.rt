//! How far the takes of a folder are, as screens show it.
ghost use Rattle.std.specs.Prelude.{◌≡◌, ℕ, List, IsTrue, IfOk, IfErr, if◌then◌else◌};
ghost use Rattle.bw_disk.specs.DiskSteps.{StaysWhole};
ghost use Rattle.bw_disk.specs.declared.reading.ReadFault.{ReadFault as Fault};
ghost use Rattle.bw_journal.specs.Rows.{row_count};
ghost use Rattle.bw_takes.specs.FolderProgress.{AreTakesOf, ShowsSummary, fails_folder, reads_folder};
ghost use Rattle.bw_takes.specs.ReadCounts.{CountsRead};
ghost use Rattle.bw_takes.specs.TakeReports.{finding_summary};
ghost use Rattle.bw_takes.specs.TakeSummaries.{story_summary};
ghost use Rattle.bw_takes.specs.declared.progress.TakeProgress.{TakeProgress as Progress};

use crate::comparing::{Depth, examine_take};
use crate::finding::TakeFinding;
use crate::naming::takes_in;
use bw_disk::{ReadFault, Volume};
use bw_journal::Replayed;
use bw_model::Name;
use bw_recovery::NameFault;
use std::alloc::Global;

/// In which state a take is.
#[derive(Clone, Copy, Debug, PartialEq, Eq)]
pub enum ProgressState {
    /// It is opened, and not closed.
    Open,
    /// It is closed.
    Closed,
    /// It isn't opened.
    Unopened,
    /// A file of its name existed before the server's.
    Stood,
    /// This is wrong with its journal or its file.
    Faulty(NameFault),
    /// Samples aren't those that its journal has the digest of.
    Changed,
}

/// How far a take is.
#[derive(Drop)]
pub struct TakeProgress {
    pub name: Name,
    pub state: ProgressState,
    /// Its whole frames; 0 where it has none of the server's.
    pub frames: u64,
    /// Their rate; 0 where it has none.
    pub rate: u32,
    /// How many of its numbers are done.
    pub next: u64,
}

/// Reads how far the takes of a folder are.
pub trait ProgressReader {
    /// What a call for this folder may read, and what it leaves.
    ghost reads: { Self → List ℕ → List Progress → Self → Type 0 };

    /// The same of a call that fails.
    ghost fails: { Self → List ℕ → Fault → Self → Type 0 };

    /// How far each take of a folder is, in the order of their names' bytes.
    ///
    /// # Errors
    /// `Disk` if the folder can't be read; `Memory` if memory was refused.
    fn read_progress(&mut self, alloc: Global, folder: &str) -> Result<Vec<TakeProgress>, ReadFault>
        // Of each take it shows what its line says, each name once.
        ensures ok { IfOk result (λ takes. reads self.old folder.now takes.items self.new) }
        ensures err { IfErr result (λ fault. fails self.old folder.now fault self.new) };
}

impl<D: Volume> ProgressReader for D {
    ghost reads = { reads_folder D.Disk };

    ghost fails = { fails_folder D.Disk };

    fn read_progress(
        &mut self,
        alloc: Global,
        folder: &str,
    ) -> Result<Vec<TakeProgress>, ReadFault> {
        progress_in(alloc, self, folder)
    }
}

/// How far each take of a folder is by its journal, in the order of their names' bytes. Nothing is
/// changed.
///
/// # Errors
/// `Disk` if a call of the disk failed; `Memory` if memory was refused.
///
/// # Not specified
/// When memory is refused.
fn progress_in<D: Volume>(
    alloc: Global,
    disk: &mut D,
    folder: &str,
) -> Result<Vec<TakeProgress>, ReadFault>
    ensures failures { CountsRead (D.failures disk.old) (D.failures disk.new) result }
    ensures disk { StaysWhole D.Disk disk.old disk.new }
    ensures takes { IsTrue (D.honest disk.old) →
        IfOk result (λ takes. AreTakesOf folder.now (D.contents disk.old) takes.items) }
{
    let names = takes_in(alloc, disk, folder)?;
    let mut takes = Vec::new(alloc);
    for name in &names {
        let finding = examine_take(alloc, disk, folder, name, Depth::Journals)?;
        let Ok(()) = takes.push(progress_of(name.copy(), finding)) else {
            return Err(ReadFault::Memory);
        };
    }
    Ok(takes)
}

/// How far a take is of which this is found.
fn progress_of(name: Name, finding: TakeFinding) -> TakeProgress
    ensures name { result.name ≡ name }
    ensures shows { ShowsSummary (finding_summary finding) result }
{
    match finding {
        TakeFinding::Stood => still(name, ProgressState::Stood, 0),
        TakeFinding::Unbegun => still(name, ProgressState::Unopened, 0),
        TakeFinding::Refused(fault) => still(name, ProgressState::Faulty(fault), 0),
        TakeFinding::Begun(replayed) => begun_progress(name, &replayed),
        TakeFinding::Changed(_) => still(name, ProgressState::Changed, 0),
    }
}

/// How far a take is whose journal is begun.
fn begun_progress(name: Name, replayed: &Replayed) -> TakeProgress
    ensures name { result.name ≡ name }
    ensures shows { ShowsSummary
        (story_summary replayed.now.state.parts (row_count replayed.now.table.items)) result }
{
    let state = &replayed.state;
    let next = (replayed.table.len() / 33) as u64;
    if state.is_taken() {
        return still(name, ProgressState::Stood, next);
    }
    match state.format() {
        Some(format) => TakeProgress {
            name,
            state: opened_state(state.is_closed()),
            frames: state.frames(),
            rate: format.rate(),
            next,
        },
        None => still(name, ProgressState::Unopened, next),
    }
}

/// The state of a take that is opened, by whether it is closed.
fn opened_state(closed: bool) -> ProgressState
    ensures { result ≡ if closed then ProgressState.Closed else ProgressState.Open }
{
    if closed {
        ProgressState::Closed
    } else {
        ProgressState::Open
    }
}

/// How far a take is that has no samples of the server's.
fn still(name: Name, state: ProgressState, next: u64) -> TakeProgress
    ensures { (result.name ≡ name) × (result.state ≡ state) × (result.frames ≡ 0)
        × (result.rate ≡ 0) × (result.next ≡ next) }
{
    TakeProgress {
        name,
        state,
        frames: 0,
        rate: 0,
        next,
    }
}
