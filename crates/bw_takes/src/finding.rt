//! What is found of a take: by its journal, and by its file as far as a start reads it.
ghost use Rattle.std.specs.Prelude.{◌≡◌, ℕ, List, Option, Some, Ok, Err, Result, IsTrue, IfOk};
ghost use Rattle.bw_store.specs.Stores.{Counts};
ghost use Rattle.bw_disk.specs.DiskSteps.{StaysWhole};
ghost use Rattle.bw_disk.specs.ReadFaults.{is_disk_fault};
ghost use Rattle.bw_journal.specs.Faults.{IsJournalFault};
ghost use Rattle.bw_journal.specs.Replays.{Story, JournalFault, NotBegun as not_begun};
ghost use Rattle.bw_journal.specs.Stories.{story_of};
ghost use Rattle.bw_recovery.specs.FilesRead.{SeesRead};
ghost use Rattle.bw_recovery.specs.Paths.{wave_path, notes_path};
ghost use Rattle.bw_takes.specs.TakeFindings.{IsTakeFound, IsFoundBeside, IsLengthOf};
ghost use Rattle.hex.specs.Hex.{decode_sized};
ghost use Rattle.bw_takes.specs.TakeLines.{own_limit as limit_in, limit_spelled as limit_spelled_by};
ghost use Rattle.bw_takes.specs.TakeLines.{limit_or_largest as limit_or_largest_of, journal_front};

use crate::beginning::is_take_at;
use bw_disk::{ReadFault, Volume, read_file};
use bw_journal::{JOURNAL_MAX, ReplayFault, Replayed, before_zero, replay};
use bw_layout::Limit;
use bw_model::{Name, read_u32};
use bw_recovery::{FileRead, NameFault, data_end, header_if, judge_file, path_in, read_take};
use bw_take::TakeState;
use std::alloc::Global;

/// How a journal of the largest limit begins.
const USUAL_FRONT: [u8; 12] = *b"BWJ2feffffff";

/// What is found of a take.
#[derive(Drop)]
pub enum TakeFinding {
    /// It has no journal: only a file of its name is there.
    Stood,
    /// Its journal isn't begun.
    Unbegun,
    /// This is wrong with its journal or its file; memory is never the reason.
    Refused(NameFault),
    /// Its journal says this, and its file fits.
    Begun(Replayed),
    /// The samples of this number, the first one, aren't those that its journal has the digest of;
    /// all else fits.
    Changed(u32),
}

/// What is found of a take in a folder, by the limit that its journal begins with; no sample is
/// read. Nothing is changed.
///
/// A server may be writing meanwhile: a file that only grew after its journal was read isn't too
/// long.
///
/// # Errors
/// `Disk` if a call of the disk failed; `Memory` if memory was refused, or the journal has more than
/// 2^40 bytes.
///
/// # Not specified
/// - When memory is refused.
/// - What is found while others write.
pub(crate) fn look_at_take<D: Volume>(
    alloc: Global,
    disk: &mut D,
    folder: &str,
    name: &Name,
) -> Result<TakeFinding, ReadFault>
    ensures failures { Counts (D.failures disk.old) (D.failures disk.new) (is_disk_fault result) }
    ensures disk { StaysWhole D.Disk disk.old disk.new }
    ensures found { IsTrue (D.honest disk.old) → IfOk result (IsTakeFound name.now
        (D.contents disk.old (notes_path folder.now name.now))
        (D.contents disk.old (wave_path folder.now name.now))) }
{
    let wave = path_in(alloc, folder, name, ".wav")?;
    let notes = path_in(alloc, folder, name, ".journal")?;
    look_at_paths(alloc, disk, wave.as_str(), notes.as_str(), name)
}

/// The same of a take with its file and its journal at these paths.
fn look_at_paths<D: Volume>(
    alloc: Global,
    disk: &mut D,
    wave: &str,
    notes: &str,
    name: &Name,
) -> Result<TakeFinding, ReadFault>
    ensures failures { Counts (D.failures disk.old) (D.failures disk.new) (is_disk_fault result) }
    ensures disk { StaysWhole D.Disk disk.old disk.new }
    ensures found { IsTrue (D.honest disk.old) → IfOk result (IsTakeFound name.now
        (D.contents disk.old notes.now) (D.contents disk.old wave.now)) }
{
    let before = len_at(disk, wave)?;
    match read_file(disk, alloc, notes)? {
        Some(journal) => judge_journal(alloc, disk, wave, before, name, &journal),
        None => Ok(TakeFinding::Stood),
    }
}

/// How many bytes the file at a path has; 0 if nothing is there.
fn len_at<D: Volume>(disk: &mut D, path: &str) -> Result<u64, ReadFault>
    ensures failures { Counts (D.failures disk.old) (D.failures disk.new) (is_disk_fault result) }
    ensures disk { StaysWhole D.Disk disk.old disk.new }
    ensures len { IsTrue (D.honest disk.old) →
        IfOk result (IsLengthOf (D.contents disk.old path.now)) }
{
    let Ok(opened) = disk.open(path) else {
        return Err(ReadFault::Disk);
    };
    let Some(file) = opened else {
        return Ok(0);
    };
    match disk.len(&file) {
        Ok(len) => Ok(len),
        Err(_) => Err(ReadFault::Disk),
    }
}

/// What is found of a take with this journal, whose file at this path had so many bytes before the
/// journal was read.
fn judge_journal<D: Volume>(
    alloc: Global,
    disk: &mut D,
    wave: &str,
    before: u64,
    name: &Name,
    journal: &[u8],
) -> Result<TakeFinding, ReadFault>
    ensures failures { Counts (D.failures disk.old) (D.failures disk.new) (is_disk_fault result) }
    ensures disk { StaysWhole D.Disk disk.old disk.new }
    ensures found { IsTrue (D.honest disk.old) → IsLengthOf (D.contents disk.old wave.now) before →
        IfOk result (IsTakeFound name.now (Some journal.now) (D.contents disk.old wave.now)) }
{
    if journal.len() > JOURNAL_MAX {
        return Err(ReadFault::Memory);
    }
    let limit = own_limit(journal);
    match replay(alloc, limit, name, journal) {
        Ok(replayed) => judge_begun(alloc, disk, wave, before, limit, replayed),
        Err(fault) => judge_fault(alloc, disk, wave, fault),
    }
}

/// The limit of the server that began a journal, or the largest.
#[tactic(auto, unfolding(crate::specs::TakeLines::own_limit))]
fn own_limit(journal: &[u8]) -> Limit
    ensures { result ≡ limit_in journal.now }
{
    let front = front_of(journal);
    limit_spelled(&front[4..])
}

/// The first bytes of a journal, and after them those of the largest limit.
fn front_of(journal: &[u8]) -> [u8; 12]
    ensures { result ≡ journal_front journal.now }
{
    let begun = before_zero(journal);
    let mut front = USUAL_FRONT;
    let len = begun.len().min(12);
    front[..len].copy_from_slice(&begun[..len]);
    front
}

/// The limit that these digits spell, or the largest.
fn limit_spelled(digits: &[u8]) -> Limit
    ensures { result ≡ limit_spelled_by (decode_sized digits.now 4) }
{
    let mut limit = [0u8; 4];
    match hex::decode_to_slice(digits, &mut limit) {
        Ok(()) => limit_or_largest(read_u32(&limit, 0)),
        Err(_) => Limit::default(),
    }
}

/// This limit, or the largest if a server can't have it.
fn limit_or_largest(bytes: u32) -> Limit
    ensures { result ≡ limit_or_largest_of bytes }
{
    match Limit::new(u64::from(bytes)) {
        Some(limit) => limit,
        None => Limit::default(),
    }
}

/// What is found of a take whose journal says this.
fn judge_begun<D: Volume>(
    alloc: Global,
    disk: &mut D,
    wave: &str,
    before: u64,
    limit: Limit,
    replayed: Replayed,
) -> Result<TakeFinding, ReadFault>
    ensures failures { Counts (D.failures disk.old) (D.failures disk.new) (is_disk_fault result) }
    ensures disk { StaysWhole D.Disk disk.old disk.new }
    ensures found { IsTrue (D.honest disk.old) → IsLengthOf (D.contents disk.old wave.now) before →
        IfOk result (IsFoundBeside limit (Ok (story_of replayed)) (D.contents disk.old wave.now)) }
{
    let header = header_if(alloc, &replayed.state, limit)?;
    let read = read_take(disk, alloc, wave, &replayed.state)?;
    let settled = settled(&replayed.state, before, read);
    let facts = settled.as_ref().map(FileRead::facts);
    match judge_file(&replayed.state, limit, &header, facts) {
        Ok(_) => Ok(TakeFinding::Begun(replayed)),
        Err(fault) => Ok(TakeFinding::Refused(NameFault::File(fault))),
    }
}

/// What was read of a take's file, with the length that is judged.
fn settled(state: &TakeState, before: u64, read: Option<FileRead>) -> Option<FileRead>
    ensures { (file : Option (List ℕ)) → IsLengthOf file before → SeesRead state.now.parts file read →
        SeesRead state.now.parts file result }
{
    match read {
        Some(read) => Some(FileRead {
            len: settled_len(state, before, read.len),
            front: read.front,
            after: read.after,
        }),
        None => None,
    }
}

/// The length of a file that had so many bytes before its take's journal was read, and has so many
/// after. Of an open take that grew meanwhile only what its journal covers counts.
fn settled_len(state: &TakeState, before: u64, after: u64) -> u64
    ensures { before ≡ after → result ≡ after }
{
    if state.is_closed() {
        return after;
    }
    before.max(after.min(data_end(state)))
}

/// What is found of a take whose journal can't be replayed.
fn judge_fault<D: Volume>(
    alloc: Global,
    disk: &mut D,
    wave: &str,
    fault: ReplayFault,
) -> Result<TakeFinding, ReadFault>
    ensures failures { Counts (D.failures disk.old) (D.failures disk.new) (is_disk_fault result) }
    ensures disk { StaysWhole D.Disk disk.old disk.new }
    ensures found { IsTrue (D.honest disk.old) → IfOk result (λ found.
        (limit : ℕ) (reported : Result Story JournalFault) → IsJournalFault fault reported →
        IsFoundBeside limit reported (D.contents disk.old wave.now) found) }
{
    match fault {
        ReplayFault::NotBegun => judge_unbegun(alloc, disk, wave),
        ReplayFault::NotAJournal => Ok(TakeFinding::Refused(NameFault::Journal(fault))),
        ReplayFault::OtherName => Ok(TakeFinding::Refused(NameFault::Journal(fault))),
        ReplayFault::OtherLimit => Ok(TakeFinding::Refused(NameFault::Journal(fault))),
        ReplayFault::OtherVerdict => Ok(TakeFinding::Refused(NameFault::Journal(fault))),
        ReplayFault::NotAnEntry => Ok(TakeFinding::Refused(NameFault::Journal(fault))),
        ReplayFault::Damaged => Ok(TakeFinding::Refused(NameFault::Journal(fault))),
        ReplayFault::Memory => Err(ReadFault::Memory),
    }
}

/// What is found of a take whose journal isn't begun: a file of this server beside it shows that the
/// journal was damaged.
fn judge_unbegun<D: Volume>(
    alloc: Global,
    disk: &mut D,
    wave: &str,
) -> Result<TakeFinding, ReadFault>
    ensures failures { Counts (D.failures disk.old) (D.failures disk.new) (is_disk_fault result) }
    ensures disk { StaysWhole D.Disk disk.old disk.new }
    ensures found { IsTrue (D.honest disk.old) → IfOk result (λ found.
        (limit : ℕ) → IsFoundBeside limit (Err not_begun) (D.contents disk.old wave.now) found) }
{
    if is_take_at(alloc, disk, wave)? {
        return Ok(TakeFinding::Refused(NameFault::Journal(ReplayFault::Damaged)));
    }
    Ok(TakeFinding::Unbegun)
}
