//! Journals over a disk that dies in each of its calls, and what the next process makes of them.
use crate::noting::{FOLDER, NOTES, PATH, a1, limit, with_header};
use bw_disk::{MemoryDisk, MortalDisk};
use bw_folder::FolderJournal;
use bw_journal::Journal;
use std::alloc::Global;
use std::test::Fail;

/// How many calls a server makes at most here.
const CALLS: u64 = 24;

type Mortal = FolderJournal<MortalDisk<MemoryDisk>>;

/// Begins and notes until a call fails; how many of the three succeeded, each note once it is committed.
fn noted(journal: &mut Mortal) -> Result<usize, Fail> {
    let name = a1()?;
    if journal.begin(&name).is_err() {
        return Ok(0);
    }
    if journal.note(&name, 47, NOTES[0]).is_err() || journal.commit().is_err() {
        return Ok(1);
    }
    if journal.note(&name, 61, NOTES[1]).is_err() || journal.commit().is_err() {
        return Ok(2);
    }
    Ok(3)
}

/// What a journal has after this many successful calls.
fn wanted(alloc: Global, done: usize) -> Result<Vec<u8>, Fail> {
    match done.checked_sub(1) {
        Some(noted) => with_header(alloc, NOTES.get(..noted).ok_or("so many notes")?),
        None => Ok(Vec::new(alloc)),
    }
}

/// Whether a journal has what was reported, and no more than a prefix of what was asked for next.
fn is_left(alloc: Global, disk: &MemoryDisk, done: usize) -> Result<bool, Fail> {
    let found = disk.content(PATH).unwrap_or(&[]);
    let reported = wanted(alloc, done)?;
    let next = wanted(alloc, done.saturating_add(1).min(3))?;
    Ok(found.starts_with(&reported) && next.starts_with(found))
}

/// The next process notes what wasn't; whether the journal is whole then.
fn goes_on(alloc: Global, disk: MemoryDisk, done: usize) -> Result<bool, Fail> {
    let name = a1()?;
    let mut journal = FolderJournal::over(disk, alloc, FOLDER, limit()?, false)?;
    journal.begin(&name)?;
    if done < 2 {
        journal.note(&name, 47, NOTES[0])?;
    }
    if done < 3 {
        journal.note(&name, 61, NOTES[1])?;
    }
    let whole = with_header(alloc, &NOTES)?;
    Ok(journal.disk().content(PATH) == Some(whole.as_slice()))
}

/// Dies in each call, with this many bytes of it written; whether each death was survived.
fn survives_each(alloc: Global, sync: bool, reached: usize) -> Result<bool, Fail> {
    for life in 0..CALLS {
        let disk = MortalDisk::new(MemoryDisk::new(alloc), life, reached);
        let mut journal = FolderJournal::over(disk, alloc, FOLDER, limit()?, sync)?;
        let done = noted(&mut journal)?;
        let died = journal.disk().is_dead();
        if died != (done < 3) {
            return Ok(false);
        }
        let disk = journal.into_disk().into_inner();
        if !is_left(alloc, &disk, done)? || !goes_on(alloc, disk, done)? {
            return Ok(false);
        }
    }
    Ok(true)
}

#[test]
fn what_was_reported_survives_each_death(rt: HostRuntime) -> Result<(), Fail> {
    for sync in [false, true] {
        for reached in [0, 1, 46, 47, 58] {
            assert!(rt; survives_each(rt.alloc(), sync, reached)?);
        }
    }
    Ok(())
}
