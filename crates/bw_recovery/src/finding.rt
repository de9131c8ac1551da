//! What a start finds of a name, and what that means for it.
ghost use Rattle.std.specs.Prelude.{◌≡◌, ℕ, List, Some, Ok, IsTrue, IsSome, IfOk, IfErr, IfSome, IfNone, None, ◌+◌, length};
ghost use Rattle.std.specs.Prelude.{Err, Option, option_map, ◌&&◌, take, drop, false};
ghost use Rattle.std.specs.Option.{option_map_or};
ghost use Rattle.std.specs.Str.{bytes_eq};
ghost use Rattle.bw_store.specs.Stores.{Counts};
ghost use Rattle.bw_disk.specs.DiskSteps.{StaysWhole};
ghost use Rattle.bw_disk.specs.ReadFaults.{is_disk_fault};
ghost use Rattle.bw_recovery.specs.CountedFaults.{CountsOneOf};
ghost use Rattle.bw_journal.specs.Replays.{replay as replay_of, NotBegun as not_begun};
ghost use Rattle.bw_journal.specs.Replays.{OtherLimit as other_limit_there};
ghost use Rattle.bw_journal.specs.Faults.{IsJournalFault};
ghost use Rattle.bw_journal.specs.Stories.{story_of};
ghost use Rattle.bw_recovery.specs.Names.{begins_take};
ghost use Rattle.bw_recovery.specs.Paths.{wave_path, notes_path};
ghost use Rattle.bw_model.specs.Take.{Format};
ghost use Rattle.bw_recovery.specs.Adoptions.{IsFileHeader};
ghost use Rattle.bw_recovery.specs.Findings.{IsFound, SparesFile};

use crate::adoption::{Adoption, header_of, judge_file};
use crate::fault::FileFault;
use crate::paths::path_in;
use crate::reading::{FileRead, read_start, read_take};
use bw_disk::{ReadFault, Volume, read_file};
use bw_journal::{JOURNAL_MAX, ReplayFault, Replayed, header_limit, replay};
use bw_layout::Limit;
use bw_model::Name;
use bw_take::TakeState;
use std::alloc::Global;

/// How many bytes show whether a file begins as a take of this server.
const FRONT_LEN: usize = 20;

/// Why a name can't be resumed.
#[derive(Clone, Copy, Debug, PartialEq, Eq)]
pub enum NameFault {
    /// What is wrong with its journal; memory is never the reason.
    Journal(ReplayFault),
    /// Its journal is that of a server of another limit: this one, in bytes.
    OtherLimit(u32),
    /// What is wrong with its file.
    File(FileFault),
}

/// A name whose journal is begun.
#[derive(Drop)]
pub struct Begun {
    /// What its journal says.
    pub replayed: Replayed,
    /// The bytes of its file before the samples; none if the take isn't opened.
    pub header: Vec<u8>,
    /// What becomes of its file.
    pub adoption: Adoption,
}

/// What is found of a name.
#[derive(Drop)]
pub enum Finding {
    /// It can't be resumed.
    Refused(NameFault),
    /// Its journal isn't begun: it is to be emptied, and the name stays free.
    Unbegun,
    /// It is resumed.
    Begun(Begun),
}

/// What is found of a name in a folder of two disks, of takes and of journals; None if it has no
/// journal. Nothing is changed.
///
/// # Errors
/// `Disk` if a call of a disk failed; `Memory` if memory was refused, or the journal has more than
/// 2^40 bytes.
///
/// # Not specified
/// When memory is refused, and how many calls of the disks it makes.
pub fn look<D: Volume, E: Volume>(
    alloc: Global,
    takes: &mut D,
    notes: &mut E,
    folder: &str,
    limit: Limit,
    name: &Name,
) -> Result<Option<Finding>, ReadFault>
    ensures takes { StaysWhole D.Disk takes.old takes.new }
    ensures notes { StaysWhole E.Disk notes.old notes.new }
    // Nothing is found only where there is no journal.
    ensures none { IsTrue (E.honest notes.old) → IfOk result (λ found. IfNone found
        (E.contents notes.old (notes_path folder.now name.now) ≡ None)) }
    ensures some { IsTrue (E.honest notes.old) → IfOk result (λ found. IfSome found
        (λ _. IsSome (E.contents notes.old (notes_path folder.now name.now)))) }
    // Refused by its fault, not begun, or begun with its story, as the definitions say.
    ensures found { IsTrue (D.honest takes.old) → IsTrue (E.honest notes.old) → IfOk result
        (λ found. (journal : List ℕ) →
        E.contents notes.old (notes_path folder.now name.now) ≡ Some journal → IfSome found
        (IsFound limit name.now journal (D.contents takes.old (wave_path folder.now name.now)))) }
    // `Disk` is a call of one of the disks that failed, and no other call fails.
    ensures failures { CountsOneOf (D.failures takes.old) (D.failures takes.new)
        (E.failures notes.old) (E.failures notes.new) (is_disk_fault result) }
    // Neither the header nor a cut reaches the samples.
    ensures spares { IfOk result (λ found. IfSome found SparesFile) }
{
    let Some(journal) = read_journal(notes, alloc, folder, name)? else {
        return Ok(None);
    };
    let finding = judge_name(alloc, takes, folder, limit, name, &journal)?;
    Ok(Some(finding))
}

/// The journal of a name in a folder; None if there is none.
fn read_journal<E: Volume>(
    notes: &mut E,
    alloc: Global,
    folder: &str,
    name: &Name,
) -> Result<Option<Vec<u8>>, ReadFault>
    ensures notes { StaysWhole E.Disk notes.old notes.new }
    ensures failures { Counts (E.failures notes.old) (E.failures notes.new) (is_disk_fault result) }
    ensures read { IsTrue (E.honest notes.old) → IfOk result (λ journal.
        option_map (λ v. v.items) journal ≡ E.contents notes.old (notes_path folder.now name.now)) }
{
    let path = path_in(alloc, folder, name, ".journal")?;
    read_file(notes, alloc, path.as_str())
}

/// What is found of a name with this journal.
fn judge_name<D: Volume>(
    alloc: Global,
    takes: &mut D,
    folder: &str,
    limit: Limit,
    name: &Name,
    journal: &[u8],
) -> Result<Finding, ReadFault>
    ensures takes { StaysWhole D.Disk takes.old takes.new }
    ensures found { IsTrue (D.honest takes.old) → IfOk result (IsFound limit name.now journal.now
        (D.contents takes.old (wave_path folder.now name.now))) }
    ensures failures { Counts (D.failures takes.old) (D.failures takes.new) (is_disk_fault result) }
    ensures spares { IfOk result SparesFile }
{
    let path = path_in(alloc, folder, name, ".wav")?;
    judge_at(alloc, takes, path.as_str(), limit, name, journal)
}

/// What is found of a name with this journal, whose take's file is at this path.
fn judge_at<D: Volume>(
    alloc: Global,
    takes: &mut D,
    path: &str,
    limit: Limit,
    name: &Name,
    journal: &[u8],
) -> Result<Finding, ReadFault>
    ensures takes { StaysWhole D.Disk takes.old takes.new }
    ensures found { IsTrue (D.honest takes.old) → IfOk result
        (IsFound limit name.now journal.now (D.contents takes.old path.now)) }
    ensures failures { Counts (D.failures takes.old) (D.failures takes.new) (is_disk_fault result) }
    ensures spares { IfOk result SparesFile }
{
    if journal.len() > JOURNAL_MAX {
        return Err(ReadFault::Memory);
    }
    match replay(alloc, limit, name, journal) {
        Ok(replayed) => judge_begun(alloc, takes, path, limit, replayed),
        Err(fault) => judge_fault(alloc, takes, path, journal, fault),
    }
}

/// What is found of a name whose journal says this.
fn judge_begun<D: Volume>(
    alloc: Global,
    takes: &mut D,
    path: &str,
    limit: Limit,
    replayed: Replayed,
) -> Result<Finding, ReadFault>
    ensures takes { StaysWhole D.Disk takes.old takes.new }
    ensures found { IsTrue (D.honest takes.old) → IfOk result (λ found. (name journal : List ℕ) →
        replay_of limit name journal ≡ Ok (story_of replayed) →
        replayed.used + replayed.torn ≡ length journal →
        IsFound limit name journal (D.contents takes.old path.now) found) }
    ensures failures { Counts (D.failures takes.old) (D.failures takes.new) (is_disk_fault result) }
    ensures spares { IfOk result SparesFile }
{
    let header = header_if(alloc, &replayed.state, limit)?;
    let read = read_take(takes, alloc, path, &replayed.state)?;
    let facts = read.as_ref().map(FileRead::facts);
    match judge_file(&replayed.state, limit, &header, facts) {
        Ok(adoption) => Ok(Finding::Begun(Begun {
            replayed,
            header,
            adoption,
        })),
        Err(fault) => Ok(Finding::Refused(NameFault::File(fault))),
    }
}

/// The bytes of a take's file before its samples; none if it isn't opened.
///
/// # Errors
/// `Memory` if memory was refused.
///
/// # Not specified
/// When memory is refused.
pub fn header_if(alloc: Global, state: &TakeState, limit: Limit) -> Result<Vec<u8>, ReadFault>
    ensures value { IfOk result (λ header. (f : Format) → state.now.parts.format ≡ Some f →
        IsFileHeader limit state.now.parts f header.items) }
    ensures err { IfErr result (λ e. e ≡ ReadFault.Memory) }
{
    if state.format().is_none() {
        return Ok(Vec::new(alloc));
    }
    match header_of(alloc, state, limit) {
        Ok(header) => Ok(header),
        Err(_) => Err(ReadFault::Memory),
    }
}

/// What is found of a name whose journal can't be replayed.
fn judge_fault<D: Volume>(
    alloc: Global,
    takes: &mut D,
    path: &str,
    journal: &[u8],
    fault: ReplayFault,
) -> Result<Finding, ReadFault>
    ensures takes { StaysWhole D.Disk takes.old takes.new }
    ensures found { IsTrue (D.honest takes.old) → IfOk result (λ found. (limit : ℕ) (name : List ℕ) →
        IsJournalFault fault (replay_of limit name journal.now) →
        IsFound limit name journal.now (D.contents takes.old path.now) found) }
    ensures failures { Counts (D.failures takes.old) (D.failures takes.new) (is_disk_fault result) }
    ensures spares { IfOk result SparesFile }
{
    match fault {
        ReplayFault::NotBegun => judge_unbegun(alloc, takes, path),
        ReplayFault::NotAJournal => Ok(Finding::Refused(NameFault::Journal(fault))),
        ReplayFault::OtherName => Ok(Finding::Refused(NameFault::Journal(fault))),
        ReplayFault::OtherLimit => Ok(other_limit(journal)),
        ReplayFault::OtherVerdict => Ok(Finding::Refused(NameFault::Journal(fault))),
        ReplayFault::NotAnEntry => Ok(Finding::Refused(NameFault::Journal(fault))),
        ReplayFault::Damaged => Ok(Finding::Refused(NameFault::Journal(fault))),
        ReplayFault::Memory => Err(ReadFault::Memory),
    }
}

/// A name that is refused by the limit in its journal's header.
fn other_limit(journal: &[u8]) -> Finding
    ensures found { (limit : ℕ) (name : List ℕ) (file : Option (List ℕ)) →
        replay_of limit name journal.now ≡ Err other_limit_there →
        IsFound limit name journal.now file result }
    ensures spares { SparesFile result }
{
    match header_limit(journal) {
        Some(limit) => Finding::Refused(NameFault::OtherLimit(limit)),
        None => Finding::Refused(NameFault::Journal(ReplayFault::OtherLimit)),
    }
}

/// What is found of a name whose journal isn't begun.
fn judge_unbegun<D: Volume>(alloc: Global, takes: &mut D, path: &str) -> Result<Finding, ReadFault>
    ensures takes { StaysWhole D.Disk takes.old takes.new }
    ensures found { IsTrue (D.honest takes.old) → IfOk result (λ found.
        (limit : ℕ) (name journal : List ℕ) → replay_of limit name journal ≡ Err not_begun →
        IsFound limit name journal (D.contents takes.old path.now) found) }
    ensures failures { Counts (D.failures takes.old) (D.failures takes.new) (is_disk_fault result) }
    ensures spares { IfOk result SparesFile }
{
    if is_take_at(takes, alloc, path)? {
        return Ok(Finding::Refused(NameFault::Journal(ReplayFault::Damaged)));
    }
    Ok(Finding::Unbegun)
}

/// Whether a file is at the path that begins as a take of this server.
fn is_take_at<D: Volume>(disk: &mut D, alloc: Global, path: &str) -> Result<bool, ReadFault>
    ensures disk { StaysWhole D.Disk disk.old disk.new }
    ensures failures { Counts (D.failures disk.old) (D.failures disk.new) (is_disk_fault result) }
    ensures value { IsTrue (D.honest disk.old) → IfOk result (λ v.
        v ≡ option_map_or begins_take (D.contents disk.old path.now) false) }
{
    match read_start(disk, alloc, path, FRONT_LEN)? {
        Some(front) => Ok(is_take(&front)),
        None => Ok(false),
    }
}

/// Whether a file with these first bytes, as many as there are up to 20, begins as a take of this
/// server: with a RIFF form and JUNK, or a BW64 form and `ds64`, of 28 bytes.
pub fn is_take(front: &[u8]) -> bool
    ensures { result ≡ begins_take front.now }
{
    begins_with(front, b"RIFF", b"WAVEJUNK\x1c\0\0\0")
        || begins_with(front, b"BW64", b"WAVEds64\x1c\0\0\0")
}

/// Whether a file begins with this id, and has these bytes after its size.
fn begins_with(front: &[u8], id: &[u8; 4], form: &[u8; 12]) -> bool
    ensures { result ≡ (bytes_eq (take 4 front.now) id.now
        && bytes_eq (take 12 (drop 8 front.now)) form.now) }
{
    if front.len() < 20 {
        return false;
    }
    front[..4] == id[..] && front[8..20] == form[..]
}
