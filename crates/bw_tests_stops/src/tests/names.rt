//! More names than a table has places for: each is served, and none is put off.
use crate::tests::serving::{Kept, done_by, replies_to, server_over};
use bw_disk::MemoryDisk;
use bw_model::{Name, Verdict};
use bw_wire::Reply;
use std::alloc::Global;
use std::cell::RefCell;
use std::process::Abort;
use std::rc::Rc;
use std::test::Fail;

/// How many names there are.
const NAMES: u32 = 270;

/// How many places a table has.
const PLACES: u32 = 256;

/// A message or an ask of a name, whose three digits are those of a number.
fn body_of(alloc: Global, kind: u8, name: u32, rest: &[u8]) -> Result<Vec<u8>, Fail> {
    let mut body = Vec::new(alloc);
    body.push(kind)?;
    body.extend_from_slice(b"\x04t")?;
    for place in [100, 10, 1] {
        body.push(b'0' + (name / place % 10) as u8)?;
    }
    body.extend_from_slice(rest)?;
    Ok(body)
}

/// An OPEN of one channel of 24 bits at 48,000 Hz.
const OPEN: &[u8] = b"\0\0\0\0\x80\xbb\0\0\x01\0\x18\0\0\0";

/// A BLOCK of one frame, with number 1.
const BLOCK: &[u8] = b"\x01\0\0\0\x01\x02\x03";

/// How many of the first names get the verdict Stored at once.
fn count_stored(
    alloc: Global,
    server: &mut Kept<MemoryDisk>,
    names: u32,
    kind: u8,
    rest: &[u8],
) -> Result<u32, Fail> {
    let mut count = 0_u32;
    for name in 0..names {
        let replies = replies_to(server, body_of(alloc, kind, name, rest)?.as_slice())?;
        if is_stored(&replies) {
            count = count.saturating_add(1);
        }
    }
    Ok(count)
}

/// Whether the first of these replies is the verdict Stored.
fn is_stored(replies: &[Reply]) -> bool {
    matches!(
        replies.first(),
        Some(Reply::Verdict {
            name: _,
            number: _,
            verdict: Verdict::Stored
        })
    )
}

/// How many of the names have so many numbers done.
fn count_done(alloc: Global, server: &mut Kept<MemoryDisk>, done: u32) -> Result<u32, Fail> {
    let mut count = 0_u32;
    for name in 0..NAMES {
        let found = done_by(server, body_of(alloc, 6, name, b"\0\0\0\0")?.as_slice())?;
        if found == Some(done) {
            count = count.saturating_add(1);
        }
    }
    Ok(count)
}

/// Fails the test unless each of the names is served.
fn serves_each(rt: &impl Abort, alloc: Global) -> Result<(), Fail> {
    let shared = Rc::new(alloc, RefCell::new(MemoryDisk::new(alloc)))?;
    let mut server = server_over(alloc, &shared, false)?;
    assert!(rt; count_stored(alloc, &mut server, NAMES, 1, OPEN)? == NAMES);
    assert!(rt; count_stored(alloc, &mut server, NAMES, 2, BLOCK)? == NAMES);
    assert!(rt; count_done(alloc, &mut server, 2)? == NAMES);
    let mut next = server_over(alloc, &shared, false)?;
    assert!(rt; count_done(alloc, &mut next, 2)? == NAMES);
    Ok(())
}

/// Whether a name is in the table.
fn is_in_table(server: &Kept<MemoryDisk>, name: &[u8]) -> Result<bool, Fail> {
    let name = Name::new(name).ok_or("a name")?;
    Ok(server.server().is_known(&name))
}

/// Fails the test unless the least recently used name leaves a full table: not the first one, of
/// which there was an ask, but the second.
fn drops_the_oldest(rt: &impl Abort, alloc: Global) -> Result<(), Fail> {
    let shared = Rc::new(alloc, RefCell::new(MemoryDisk::new(alloc)))?;
    let mut server = server_over(alloc, &shared, false)?;
    assert!(rt; count_stored(alloc, &mut server, PLACES, 1, OPEN)? == PLACES);
    let ask = body_of(alloc, 6, 0, b"\0\0\0\0")?;
    assert!(rt; done_by(&mut server, ask.as_slice())? == Some(1));
    let replies = replies_to(&mut server, body_of(alloc, 1, PLACES, OPEN)?.as_slice())?;
    assert!(rt; is_stored(&replies));
    assert!(rt; is_in_table(&server, b"t000")?);
    assert!(rt; !is_in_table(&server, b"t001")?);
    assert!(rt; is_in_table(&server, b"t002")?);
    assert!(rt; is_in_table(&server, b"t256")?);
    Ok(())
}

#[test]
fn the_least_recently_used_leaves(rt: HostRuntime) -> Result<(), Fail> {
    drops_the_oldest(&rt, rt.alloc())
}

#[test]
fn each_of_more_names_than_places_is_served(rt: HostRuntime) -> Result<(), Fail> {
    serves_each(&rt, rt.alloc())
}
