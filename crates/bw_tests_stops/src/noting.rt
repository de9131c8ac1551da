//! What journals in a folder note, and that only lack of memory stops them.
use bw_disk::{Disk, MemoryDisk};
use bw_folder::FolderJournal;
use bw_journal::{Journal, JournalHeader};
use bw_layout::Limit;
use bw_model::Name;
use std::alloc::Global;
use std::test::Fail;

/// The folder.
pub(crate) const FOLDER: &str = "takes";

/// Where the journal of `a1` is.
pub(crate) const PATH: &str = "takes/a1.journal";

/// Two notes, which no journal reads here.
pub(crate) const NOTES: [&[u8]; 2] = [b"the first note", b"the second"];

pub(crate) fn limit() -> Result<Limit, Fail> {
    Ok(Limit::new(65_536).ok_or("a limit")?)
}

pub(crate) fn a1() -> Result<Name, Fail> {
    Ok(Name::new(b"a1").ok_or("a name")?)
}

/// The journal's header, then these bytes.
pub(crate) fn with_header(alloc: Global, notes: &[&[u8]]) -> Result<Vec<u8>, Fail> {
    let header = JournalHeader {
        limit: limit()?,
        existed: false,
    };
    let mut bytes = header.to_bytes(&a1()?).to_vec(alloc)?;
    for note in notes {
        bytes.extend_from_slice(note)?;
    }
    Ok(bytes)
}

/// A disk in memory with a file of `b2` and the journal of `a1`, in which these bytes are noted.
pub(crate) fn disk_with(alloc: Global, noted: &[u8]) -> Result<MemoryDisk, Fail> {
    let mut disk = MemoryDisk::new(alloc);
    let _ = disk.create_new("takes/b2.wav")?;
    let mut file = disk.create_new(PATH)?.ok_or("a new file")?;
    disk.write_at(&mut file, 0, noted)?;
    Ok(disk)
}

#[test]
fn notes_follow_the_header(rt: HostRuntime) -> Result<(), Fail> {
    let alloc = rt.alloc();
    for sync in [false, true] {
        let mut journal = FolderJournal::over(
            MemoryDisk::new(alloc),
            alloc,
            FOLDER,
            limit()?,
            sync,
        )?;
        let name = a1()?;
        assert!(rt; journal.note(&name, 0, NOTES[0]).is_err());
        journal.begin(&name)?;
        journal.begin(&name)?;
        journal.note(&name, 47, NOTES[0])?;
        journal.note(&name, 61, NOTES[1])?;
        let begun = with_header(alloc, &[])?;
        assert!(rt; !sync || journal.disk().content(PATH) == Some(begun.as_slice()));
        assert!(rt; journal.commit().is_ok());
        let wanted = with_header(alloc, &NOTES)?;
        assert!(rt; journal.disk().content(PATH) == Some(wanted.as_slice()));
    }
    Ok(())
}

#[test]
fn a_reopened_journal_goes_on(rt: HostRuntime) -> Result<(), Fail> {
    let alloc = rt.alloc();
    let name = a1()?;
    let disk = disk_with(alloc, &with_header(alloc, &NOTES[..1])?)?;
    let mut journal = FolderJournal::over(disk, alloc, FOLDER, limit()?, false)?;
    assert!(rt;
        !journal
            .reopen(&Name::new(b"c3").ok_or("a name")?, false)
            .ok()
            .ok_or("a disk")?
    );
    assert!(rt; journal.reopen(&name, false).ok().ok_or("a disk")?);
    assert!(rt; !journal.reopen(&name, false).ok().ok_or("a disk")?);
    journal.note(&name, 61, NOTES[1])?;
    let wanted = with_header(alloc, &NOTES)?;
    assert!(rt; journal.disk().content(PATH) == Some(wanted.as_slice()));
    Ok(())
}

#[test]
fn a_header_says_whether_a_file_existed(rt: HostRuntime) -> Result<(), Fail> {
    let alloc = rt.alloc();
    let name = Name::new(b"b2").ok_or("a name")?;
    let disk = disk_with(alloc, b"other bytes than a header")?;
    let mut journal = FolderJournal::over(disk, alloc, FOLDER, limit()?, false)?;
    journal.begin(&name)?;
    let header = JournalHeader {
        limit: limit()?,
        existed: true,
    };
    let bytes = header.to_bytes(&name);
    assert!(rt; journal.disk().content("takes/b2.journal") == Some(bytes.as_slice()));
    assert!(rt; journal.begin(&a1()?).is_err());
    assert!(rt; journal.disk().content(PATH) == Some(b"other bytes than a header".as_slice()));
    Ok(())
}
