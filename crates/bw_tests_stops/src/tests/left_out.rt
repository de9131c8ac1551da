//! A name with a damaged journal is left out alone, and is given once to be reported.
use crate::tests::serving::{replies_to, server_over};
use bw_disk::{Disk, MemoryDisk};
use bw_journal::ReplayFault;
use bw_model::Verdict;
use bw_recovery::NameFault;
use bw_wire::{Notice, Reply};
use std::alloc::Global;
use std::cell::RefCell;
use std::process::Abort;
use std::rc::Rc;
use std::test::Fail;

/// OPEN of `a1`, and of `b2`.
const OPENS: [&[u8]; 2] = [
    b"\x01\x02a1\0\0\0\0\x80\xbb\0\0\x01\0\x18\0\0\0",
    b"\x01\x02b2\0\0\0\0\x80\xbb\0\0\x01\0\x18\0\0\0",
];

/// A disk on which the journal of `a1` is none.
fn damaged(alloc: Global) -> Result<MemoryDisk, Fail> {
    let mut disk = MemoryDisk::new(alloc);
    let mut file = disk.create_new("takes/a1.journal")?.ok_or("a new file")?;
    disk.write_at(&mut file, 0, &[b'x'; 100])?;
    Ok(disk)
}

/// Whether the message was put off: DelayedStore with next 0.
fn is_put_off(replies: &[Reply]) -> bool {
    matches!(
        replies,
        [Reply::Notice {
            name: _,
            number: 0,
            code: Notice::DelayedStore,
            next: 0
        }]
    )
}

/// Whether the message was done at once.
fn is_done(replies: &[Reply]) -> bool {
    matches!(
        replies.first(),
        Some(Reply::Verdict {
            name: _,
            number: 0,
            verdict: Verdict::Stored
        })
    )
}

/// Fails the test unless `a1` is left out, and `b2` is served.
fn leaves_out_one(rt: &impl Abort, alloc: Global) -> Result<(), Fail> {
    let shared = Rc::new(alloc, RefCell::new(damaged(alloc)?))?;
    let mut server = server_over(alloc, &shared, false)?;
    assert!(rt; is_put_off(&replies_to(&mut server, OPENS[0])?));
    assert!(rt; is_done(&replies_to(&mut server, OPENS[1])?));
    assert!(rt; is_put_off(&replies_to(&mut server, OPENS[0])?));
    let (name, fault) = server.take_left_out().ok_or("a name that is left out")?;
    assert!(rt; name.as_bytes() == b"a1".as_slice());
    assert!(rt; fault == NameFault::Journal(ReplayFault::NotAJournal));
    assert!(rt; is_put_off(&replies_to(&mut server, OPENS[0])?));
    assert!(rt; server.take_left_out().is_none());
    Ok(())
}

#[test]
fn a_name_with_a_fault_is_left_out_alone(rt: HostRuntime) -> Result<(), Fail> {
    leaves_out_one(&rt, rt.alloc())
}
