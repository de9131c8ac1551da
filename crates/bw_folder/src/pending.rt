//! Notes that are kept for the next commit.
ghost use Rattle.std.specs.Prelude.{◌≡◌, IsTrue, IfOk, OnOk, OnErr, Some, length, true};
ghost use Rattle.bw_disk.specs.DiskSteps.{StaysWhole};
ghost use Rattle.bw_journal.specs.Notes.{Notes};
ghost use Rattle.bw_folder.specs.FileNotes.{writes_file};
ghost use Rattle.bw_folder.specs.PendingNotes.{unwritten_at, noted_with, HoldsPending, NotesEndAt, pushed};

use crate::file_notes::writes_file;
use crate::journal::OpenJournal;
use bw_disk::Volume;
use bw_journal::JournalHeader;
use bw_store::StoreFault;

/// Keeps bytes that are noted at an offset of a journal, after what is pending of it. `content` gets
/// what their first line stands for.
///
/// # Errors
/// `StoreFault` if the offset isn't where the notes end, or lies in the header; also if the disk failed,
/// or memory was refused. The same is noted then.
pub(crate) fn keep_note<D: Volume>(
    disk: &mut D,
    journal: &mut OpenJournal<D::File>,
    offset: u64,
    bytes: &[u8],
    content: &mut Vec<u8>,
) -> Result<(), StoreFault>
    ensures name { journal.new.name ≡ journal.old.name }
    ensures existed { journal.new.existed ≡ journal.old.existed }
    ensures file { journal.new.file ≡ journal.old.file }
    ensures disk { StaysWhole D.Disk disk.old disk.new }
    ensures holds { IsTrue (D.honest disk.old) → HoldsPending true (unwritten_at journal.old)
        (D.contents disk.old (D.path_of journal.old.file)) → HoldsPending true (unwritten_at journal.new)
        (D.contents disk.old (D.path_of journal.old.file)) }
    ensures noted { IsTrue (D.honest disk.old) → HoldsPending true (unwritten_at journal.old)
        (D.contents disk.old (D.path_of journal.old.file)) → OnOk result (Notes offset bytes.now
        (noted_with (unwritten_at journal.old) (D.contents disk.old (D.path_of journal.old.file)))
        (noted_with (unwritten_at journal.new) (D.contents disk.old (D.path_of journal.old.file)))) }
    ensures failed { OnErr result (unwritten_at journal.new ≡ unwritten_at journal.old) }
    ensures writes { IsTrue (writes_file bytes.now) → OnOk result (IsTrue journal.new.writes) }
{
    let writes = writes_file(bytes, content).map_err(|_| StoreFault)?;
    let end = notes_end(disk, journal)?;
    if end != offset || offset < JournalHeader::LEN as u64 {
        return Err(StoreFault);
    }
    journal.push(offset, bytes, writes)
}

/// Where the notes of a journal end: in its file, or after what is pending.
///
/// # Errors
/// `StoreFault` if the disk failed.
fn notes_end<D: Volume>(disk: &mut D, journal: &OpenJournal<D::File>) -> Result<u64, StoreFault>
    ensures disk { StaysWhole D.Disk disk.old disk.new }
    ensures value { IsTrue (D.honest disk.old) → HoldsPending true (unwritten_at journal.now)
        (D.contents disk.old (D.path_of journal.now.file)) → IfOk result (λ end. NotesEndAt end
        (noted_with (unwritten_at journal.now) (D.contents disk.old (D.path_of journal.now.file)))) }
{
    if !journal.is_waiting() {
        return disk.len(&journal.file).map_err(|_| StoreFault);
    }
    match journal.place.checked_add(journal.pending.len() as u64) {
        Some(end) => Ok(end),
        None => Err(StoreFault),
    }
}

impl<F: Drop> OpenJournal<F> {
    /// Appends bytes to what is pending, which begins at this offset if nothing is.
    ///
    /// # Errors
    /// `StoreFault` if memory was refused: nothing changed.
    fn push(&mut self, offset: u64, bytes: &[u8], writes: bool) -> Result<(), StoreFault>
        ensures name { self.new.name ≡ self.old.name }
        ensures existed { self.new.existed ≡ self.old.existed }
        ensures file { self.new.file ≡ self.old.file }
        ensures pending { OnOk result (unwritten_at self.new
            ≡ pushed offset bytes.now writes (unwritten_at self.old)) }
        ensures failed { OnErr result (unwritten_at self.new ≡ unwritten_at self.old) }
    {
        let place = if self.is_waiting() {
            self.place
        } else {
            offset
        };
        self.pending
            .extend_from_slice(bytes)
            .map_err(|_| StoreFault)?;
        self.place = place;
        self.writes = self.writes || writes;
        Ok(())
    }
}
