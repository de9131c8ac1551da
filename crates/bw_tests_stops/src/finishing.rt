//! Stores and journals over a disk that dies in a sync.
use crate::noting::{FOLDER, NOTES, a1, disk_with, limit, with_header};
use bw_disk::{MemoryDisk, MortalDisk};
use bw_folder::{FolderJournal, FolderStore};
use bw_store::TakeStore;
use std::test::Fail;

#[test]
fn a_store_keeps_the_name_whose_sync_failed(rt: HostRuntime) -> Result<(), Fail> {
    let name = a1()?;
    let disk = MortalDisk::new(MemoryDisk::new(rt.alloc()), 1, 0);
    let mut store = FolderStore::over(disk, rt.alloc(), FOLDER)?;
    store.create(&name)?;
    assert!(rt; store.failed_sync().is_none());
    assert!(rt; store.finish(&name).is_err());
    assert!(rt; store.failed_sync() == Some(name));
    Ok(())
}

#[test]
fn a_store_with_retries_closes_a_file(rt: HostRuntime) -> Result<(), Fail> {
    let name = a1()?;
    let disk = MemoryDisk::new(rt.alloc());
    let mut store = FolderStore::over(disk, rt.alloc(), FOLDER)?.with_retries();
    store.create(&name)?;
    store.finish(&name)?;
    assert!(rt; store.failed_sync().is_none());
    Ok(())
}

#[test]
fn a_journal_keeps_the_recovered_name_whose_sync_failed(rt: HostRuntime) -> Result<(), Fail> {
    let alloc = rt.alloc();
    let name = a1()?;
    for (life, syncs) in [(2, false), (3, false), (4, true)] {
        let disk = disk_with(alloc, &with_header(alloc, &NOTES)?)?;
        let disk = MortalDisk::new(disk, life, 0);
        let mut journal = FolderJournal::over(disk, alloc, FOLDER, limit()?, true)?;
        assert!(rt; journal.reopen(&name, false).ok().ok_or("a disk")?);
        assert!(rt; journal.sync_recovered(&name).is_ok() == syncs);
        assert!(rt; journal.failed_sync().is_none() == syncs);
    }
    Ok(())
}
