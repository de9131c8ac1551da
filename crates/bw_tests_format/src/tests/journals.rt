//! Servers over journals: each done number is noted, and a fault of the journal is one of the
//! store.
use crate::tests::expecting::Expecting;
use crate::tests::play::Reported::{Judged, Noticed};
use crate::tests::play::{Reported, Turn, a1, has_file, noting_server, send};
use bw_journal::{FuseJournal, MemoryJournal};
use bw_layout::Limit;
use bw_model::Name;
use bw_model::Verdict::{BadBlock, Stored};
use bw_wire::Notice::{Conflict, DelayedStore, Held};
use std::test::Fail;

/// OPEN 0 of `a1`: 48,000 Hz, one channel, 16 bits; BLOCK 1 with two frames.
const OPEN: &[u8] = b"\x01\x02a1\0\0\0\0\x80\xbb\0\0\x01\0\x10\0\0\0";

const BLOCK: &[u8] = b"\x02\x02a1\x01\0\0\0\x01\0\x02\0";

/// The messages of `JOURNAL`, with their verdicts.
static MESSAGES: [(&[u8], Reported); 6] = [
    (
        b"\x01\x02a1\0\0\0\0\x80\xbb\0\0\x01\0\x10\0\x05\0A=PCM",
        Judged(0, Stored),
    ),
    (BLOCK, Judged(1, Stored)),
    (b"\x02\x02a1\x02\0\0\0\x01", Judged(2, BadBlock)),
    (
        b"\x03\x02a1\x03\0\0\0\x07\0\0\0\x02\0\0\0",
        Judged(3, Stored),
    ),
    (b"\x04\x02a1\x04\0\0\0\x02bw", Judged(4, Stored)),
    (b"\x05\x02a1\x05\0\0\0\x02\0\0\0\0\0\0\0", Judged(5, Stored)),
];

#[test]
fn each_done_number_is_noted_byte_for_byte(rt: HostRuntime) -> Result<(), Fail> {
    let mut server = noting_server(rt.alloc(), Expecting::new(0))?;
    for (body, reported) in &MESSAGES {
        send(&rt, "a noted message", &mut server, body, &[*reported])?;
        send(&rt, "its repeat", &mut server, body, &[*reported])?;
    }
    Ok(())
}

const DELAYS_OPEN: Turn = Turn {
    body: OPEN,
    reported: &[Noticed(0, DelayedStore, 0)],
};

/// The journal's calls: its beginning fails, then the note of OPEN after another beginning, then
/// the note of BLOCK, in place of which another comes. After them `b2` comes backwards.
static TURNS: [Turn; 8] = [
    DELAYS_OPEN,
    DELAYS_OPEN,
    Turn {
        body: OPEN,
        reported: &[Judged(0, Stored)],
    },
    Turn {
        body: BLOCK,
        reported: &[Noticed(1, DelayedStore, 1)],
    },
    Turn {
        body: b"\x02\x02a1\x01\0\0\0\x01\0\x03\0",
        reported: &[Judged(1, Stored), Noticed(1, Conflict, 2)],
    },
    Turn {
        body: b"\x05\x02b2\x02\0\0\0\x02\0\0\0\0\0\0\0",
        reported: &[Noticed(2, Held, 0)],
    },
    Turn {
        body: b"\x02\x02b2\x01\0\0\0\x01\0\x02\0",
        reported: &[Noticed(1, Held, 0)],
    },
    Turn {
        body: b"\x01\x02b2\0\0\0\0\x80\xbb\0\0\x01\0\x10\0\0\0",
        reported: &[Judged(0, Stored), Judged(1, Stored), Judged(2, Stored)],
    },
];

#[test]
fn a_fault_of_the_journal_delays_a_number(rt: HostRuntime) -> Result<(), Fail> {
    let inner = MemoryJournal::new(rt.alloc(), Limit::default());
    let journal = FuseJournal::new(inner, [0u64, 2, 5].to_vec(rt.alloc())?);
    let mut server = noting_server(rt.alloc(), journal)?;
    for turn in &TURNS {
        send(&rt, "a turn", &mut server, turn.body, turn.reported)?;
    }
    let b2 = Name::new(b"b2").ok_or("a name")?;
    has_file(&rt, rt.alloc(), server.store(), &a1()?)?;
    has_file(&rt, rt.alloc(), server.store(), &b2)
}
