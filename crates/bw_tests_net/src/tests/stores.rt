//! Stores in memory, with calls that no run of the program makes, and of which no clause says that
//! they succeed.
use crate::tests::recorder::{Call, Recorder};
use bw_disk::MemoryDisk;
use bw_folder::FolderStore;
use bw_model::Name;
use bw_store::{MemoryStore, TakeStore};
use std::test::Fail;

fn a1() -> Result<Name, Fail> {
    Ok(Name::new(b"a1").ok_or("a name")?)
}

#[test]
fn a_gap_is_filled_and_no_file_is_too_long(rt: HostRuntime) -> Result<(), Fail> {
    let name = a1()?;
    let mut store = Recorder::new(rt.alloc(), MemoryStore::new(rt.alloc()));
    store.create(&name)?;
    store.write_at(&name, 2, b"xz")?;
    assert!(rt; store.write_at(&name, u64::MAX, b"z").is_err());
    assert!(rt; store.inner().content(&name) == Some(b"\0\0xz".as_slice()));
    assert!(rt;
        store.got(
            &name,
            &[Call::Create, Call::Write(2, 2), Call::Write(u64::MAX, 1)]
        )
    );
    Ok(())
}

#[test]
fn a_folder_of_a_disk_in_memory_has_the_file(rt: HostRuntime) -> Result<(), Fail> {
    let name = a1()?;
    let mut store = FolderStore::over(MemoryDisk::new(rt.alloc()), rt.alloc(), "takes")?;
    store.create(&name)?;
    store.write_at(&name, 0, b"abcd")?;
    store.finish(&name)?;
    assert!(rt; store.disk().content("takes/a1.wav") == Some(b"abcd".as_slice()));
    Ok(())
}
