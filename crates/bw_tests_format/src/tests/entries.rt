//! Worked journals, byte by byte; that their calls succeed; what a damaged journal yields.
ghost use Rattle.std.specs.Prelude.{IsTrue};
ghost use Rattle.bw_model.specs.Wire.{is_request};
ghost use Rattle.bw_model.specs.Requests.{meaning};

use crate::tests::play::a1;
use bw_journal::{
    FuseJournal, Journal, JournalHeader, MemoryJournal, ReplayFault, Replayed, header_limit,
    put_entry, replay,
};
use bw_layout::Limit;
use bw_model::{Name, RequestRef, Verdict};
use sha2::{Digest, Sha256};
use std::alloc::{AllocError, Global};
use std::process::Abort;
use std::test::Fail;

/// A header, and six done numbers, written by another program: OPEN with a history, BLOCK, a BLOCK
/// that doesn't end with a frame, MARK, BEXT, CLOSE.
pub(crate) static JOURNAL: [u8; 391] = [
    0x42, 0x57, 0x4a, 0x32, 0x66, 0x65, 0x66, 0x66, 0x66, 0x66, 0x66, 0x66, 0x30, 0x30, 0x66, 0x35,
    0x35, 0x66, 0x66, 0x31, 0x36, 0x66, 0x36, 0x36, 0x66, 0x34, 0x33, 0x33, 0x36, 0x30, 0x64, 0x62,
    0x38, 0x61, 0x35, 0x30, 0x66, 0x61, 0x39, 0x30, 0x64, 0x66, 0x30, 0x36, 0x66, 0x38, 0x02, 0x01,
    0x03, 0xa3, 0xb2, 0xfa, 0xd4, 0x7f, 0x5a, 0xa6, 0x70, 0xef, 0x56, 0x8e, 0xe1, 0x03, 0x92, 0x11,
    0x9f, 0xe3, 0x67, 0xb0, 0x62, 0x44, 0x79, 0x69, 0xcd, 0x16, 0x88, 0x98, 0x96, 0x6f, 0x5d, 0xf6,
    0x3c, 0x01, 0x04, 0x80, 0xbb, 0x01, 0x03, 0x01, 0x03, 0x01, 0x04, 0x01, 0x03, 0x10, 0x01, 0x03,
    0x05, 0x01, 0x03, 0x41, 0x3d, 0x50, 0x43, 0x4d, 0xe5, 0xdd, 0x9e, 0xeb, 0x1e, 0xf2, 0x33, 0x4d,
    0x02, 0x01, 0x03, 0xcd, 0x35, 0xdd, 0x78, 0x73, 0x29, 0x4f, 0x76, 0xdc, 0xbc, 0x55, 0x73, 0x55,
    0x01, 0x03, 0x69, 0x74, 0xc1, 0x16, 0xa4, 0xe5, 0x6c, 0xde, 0x22, 0x79, 0x5c, 0x5b, 0x23, 0x8f,
    0x4d, 0x3c, 0x9b, 0x75, 0x01, 0x05, 0x04, 0x01, 0x03, 0x01, 0x03, 0x01, 0x03, 0x46, 0xb1, 0x91,
    0x8c, 0xf1, 0x90, 0x66, 0xa3, 0x02, 0x06, 0x92, 0xb8, 0xd5, 0x2d, 0x42, 0x0d, 0x0e, 0x10, 0xe0,
    0x12, 0xe7, 0x86, 0x9e, 0x6c, 0x49, 0x22, 0xbf, 0x55, 0x9e, 0x3b, 0x7c, 0xb3, 0x2e, 0x7c, 0xfd,
    0x8d, 0x04, 0xab, 0x05, 0xc1, 0x0f, 0x6b, 0x01, 0x05, 0x01, 0x04, 0x01, 0x03, 0x01, 0x03, 0x01,
    0x03, 0xcc, 0x92, 0xb3, 0x01, 0x03, 0x1e, 0x9d, 0x0f, 0xb0, 0x02, 0x01, 0x03, 0x76, 0x69, 0x43,
    0x91, 0xd0, 0x90, 0xff, 0x1c, 0xf0, 0x50, 0xea, 0xe8, 0x30, 0xfd, 0x16, 0xfd, 0x36, 0x48, 0x57,
    0x27, 0x8e, 0xc2, 0x0e, 0xa5, 0xb5, 0x11, 0x10, 0x09, 0x7d, 0xe1, 0x01, 0x03, 0x27, 0x03, 0x07,
    0x01, 0x03, 0x01, 0x03, 0x01, 0x03, 0x01, 0x05, 0x01, 0x03, 0x01, 0x03, 0x01, 0x03, 0x9e, 0xcb,
    0xa0, 0x47, 0x01, 0x04, 0x1c, 0x37, 0x81, 0x02, 0x01, 0x03, 0x0f, 0x01, 0x04, 0xb5, 0xb3, 0xbb,
    0x78, 0xe2, 0x92, 0x68, 0x98, 0x42, 0x15, 0xa7, 0xd2, 0x41, 0xf1, 0xad, 0xbb, 0x5f, 0xe1, 0xf7,
    0xbe, 0x7d, 0x24, 0x28, 0xd8, 0xa9, 0x01, 0x04, 0xc1, 0x04, 0x5c, 0xbf, 0x04, 0x01, 0x05, 0x62,
    0x77, 0xb2, 0xfc, 0x68, 0x11, 0x03, 0xbd, 0x42, 0x1d, 0x02, 0x01, 0x03, 0xb9, 0xab, 0x82, 0x31,
    0x09, 0x01, 0x03, 0x7e, 0x19, 0x59, 0xf4, 0xb7, 0xc1, 0x97, 0x10, 0xa0, 0xb8, 0x18, 0x59, 0xb2,
    0xb3, 0xf5, 0xfd, 0x4f, 0x44, 0x6f, 0xac, 0x88, 0x68, 0x69, 0xab, 0xd0, 0x6f, 0x05, 0x01, 0x05,
    0x01, 0x03, 0x01, 0x03, 0x01, 0x03, 0x01, 0x03, 0x01, 0x03, 0x01, 0x03, 0x01, 0x03, 0xae, 0xcc,
    0x0d, 0xd6, 0xe0, 0x95, 0x63, 0x03, 0x02,
];

/// The entry of a BLOCK of one byte that is said to be stored.
static OTHER_VERDICT: [u8; 53] = [
    0x01, 0x03, 0x85, 0x22, 0x66, 0x03, 0x84, 0x09, 0xd2, 0xbf, 0x2e, 0xaf, 0x72, 0x71, 0xe9, 0x4e,
    0x75, 0xc1, 0xe8, 0xfc, 0xb7, 0x0f, 0x76, 0xcc, 0xf0, 0xd5, 0xe0, 0xac, 0x31, 0xbb, 0x07, 0x7d,
    0xce, 0x4b, 0x01, 0x05, 0x01, 0x04, 0x01, 0x03, 0x01, 0x03, 0x01, 0x03, 0x5b, 0xd6, 0x6f, 0x90,
    0xb9, 0x79, 0x19, 0x33, 0x02,
];

/// The entry of a MARK with a verdict that there isn't, under a right check.
static UNKNOWN: [u8; 90] = [
    0x0c, 0x01, 0x03, 0x01, 0x03, 0x01, 0x03, 0x01, 0x03, 0x01, 0x03, 0x01, 0x03, 0x01, 0x03, 0x01,
    0x03, 0x01, 0x03, 0x01, 0x03, 0x01, 0x03, 0x01, 0x03, 0x01, 0x03, 0x01, 0x03, 0x01, 0x03, 0x01,
    0x03, 0x01, 0x03, 0x01, 0x03, 0x01, 0x03, 0x01, 0x03, 0x01, 0x03, 0x01, 0x03, 0x01, 0x03, 0x01,
    0x03, 0x01, 0x03, 0x01, 0x03, 0x01, 0x03, 0x01, 0x03, 0x01, 0x03, 0x01, 0x03, 0x01, 0x03, 0x01,
    0x03, 0x03, 0x07, 0x01, 0x03, 0x01, 0x03, 0x01, 0x03, 0x01, 0x05, 0x01, 0x03, 0x01, 0x03, 0x01,
    0x03, 0xf1, 0x8f, 0x70, 0xd9, 0x25, 0xd2, 0x85, 0xf5, 0x02,
];

/// Where the header and each entry of `JOURNAL` end.
pub(crate) static ENDS: [usize; 7] = [47, 113, 166, 219, 280, 330, 391];

/// What a replay yields in numbers: the bytes used and torn, or the fault's.
fn reported(replayed: Result<Replayed, ReplayFault>) -> Result<(usize, usize, usize), u8> {
    match replayed {
        Ok(r) => Ok((r.used, r.torn, r.table.len())),
        Err(fault) => Err(fault.code()),
    }
}

/// Fails the test if a journal of `a1` isn't refused for this fault.
fn refused(rt: &impl Abort, alloc: Global, bytes: &[u8], fault: ReplayFault) -> Result<(), Fail> {
    assert!(rt; bytes.len() < 1_000_000, "too long");
    let found = reported(replay(alloc, Limit::default(), &a1()?, bytes));
    assert!(rt;
        found == Err(fault.code()),
        "another answer than fault {}",
        fault.code()
    );
    Ok(())
}

/// Fails the test if a journal of `a1` doesn't yield this much.
fn reports(
    rt: &impl Abort,
    alloc: Global,
    bytes: &[u8],
    used: usize,
    entries: usize,
) -> Result<(), Fail> {
    assert!(rt; bytes.len() < 1_000_000, "too long");
    let found = reported(replay(alloc, Limit::default(), &a1()?, bytes));
    let torn = bytes.len().saturating_sub(used);
    let table = entries.saturating_mul(33);
    assert!(rt;
        found == Ok((used, torn, table)),
        "another answer of {} bytes",
        bytes.len()
    );
    Ok(())
}

/// A body of `a1`, with its meaning and outcome.
struct Noted {
    body: &'static [u8],
    verdict: Verdict,
    request: RequestRef<'static>,
}

static BODIES: [Noted; 6] = [
    Noted {
        body: b"\x01\x02a1\0\0\0\0\x80\xbb\0\0\x01\0\x10\0\x05\0A=PCM",
        verdict: Verdict::Stored,
        request: RequestRef::OpenTake {
            rate: 48_000,
            channels: 1,
            bits: 16,
            history: b"A=PCM",
        },
    },
    Noted {
        body: b"\x02\x02a1\x01\0\0\0\x01\0\x02\0",
        verdict: Verdict::Stored,
        request: RequestRef::Block {
            bytes: &[1, 0, 2, 0],
        },
    },
    Noted {
        body: b"\x02\x02a1\x02\0\0\0\x01",
        verdict: Verdict::BadBlock,
        request: RequestRef::Block { bytes: &[1] },
    },
    Noted {
        body: b"\x03\x02a1\x03\0\0\0\x07\0\0\0\x02\0\0\0",
        verdict: Verdict::Stored,
        request: RequestRef::Mark { id: 7, frame: 2 },
    },
    Noted {
        body: b"\x04\x02a1\x04\0\0\0\x02bw",
        verdict: Verdict::Stored,
        request: RequestRef::SetField {
            tag: 2,
            value: b"bw",
        },
    },
    Noted {
        body: b"\x05\x02a1\x05\0\0\0\x02\0\0\0\0\0\0\0",
        verdict: Verdict::Stored,
        request: RequestRef::CloseTake { frames: 2 },
    },
];

/// Appends the entry of a body.
fn note(alloc: Global, out: &mut Vec<u8>, noted: &Noted) -> Result<(), AllocError>
    requires { IsTrue (is_request (meaning noted.now.request)) }
{
    let digest = Sha256::digest(noted.body);
    put_entry(alloc, out, noted.verdict, &digest, &noted.request)
}

#[test]
fn entries_are_written_byte_for_byte(rt: HostRuntime) -> Result<(), Fail> {
    let alloc = rt.alloc();
    let mut out = Vec::new(alloc);
    let header = JournalHeader {
        limit: Limit::default(),
        existed: false,
    };
    out.extend_from_slice(&header.to_bytes(&a1()?))?;
    for noted in &BODIES {
        assert!(&rt; noted.request.fits(), "no request");
        note(alloc, &mut out, noted)?;
    }
    assert!(&rt; out.as_slice() == &JOURNAL[..], "other bytes");
    Ok(())
}

#[test]
fn a_journal_cut_at_each_byte_reports_its_whole_entries(rt: HostRuntime) -> Result<(), Fail> {
    let alloc = rt.alloc();
    for cut in 0..JOURNAL.len() + 1 {
        let bytes = &JOURNAL[..cut];
        let whole = ENDS.iter().filter(|end| **end <= cut).count();
        if whole == 0 {
            refused(&rt, alloc, bytes, ReplayFault::NotBegun)?;
        } else if whole <= 7 {
            reports(&rt, alloc, bytes, ENDS[whole - 1], whole - 1)?;
        }
    }
    Ok(())
}

/// Fails the test if a journal of which this byte was turned is taken: a zero ends it, and so does
/// the last line if it has no end; else it is refused.
fn refuses_turned(rt: &impl Abort, alloc: Global, bytes: &[u8], place: usize) -> Result<(), Fail> {
    assert!(rt; place < bytes.len() && bytes.len() == ENDS[6], "no place");
    let whole = ENDS.iter().filter(|end| **end <= place).count();
    let ends_there = bytes[place] == 0 || place == ENDS[6] - 1;
    if whole == 0 && ends_there {
        refused(rt, alloc, bytes, ReplayFault::NotBegun)
    } else if whole == 0 {
        refused(rt, alloc, bytes, ReplayFault::NotAJournal)
    } else if ends_there && whole <= 7 {
        reports(rt, alloc, bytes, ENDS[whole - 1], whole - 1)
    } else {
        refused(rt, alloc, bytes, ReplayFault::Damaged)
    }
}

#[test]
fn a_journal_with_a_bit_turned_is_refused(rt: HostRuntime) -> Result<(), Fail> {
    let alloc = rt.alloc();
    let mut bytes = Vec::new(alloc);
    bytes.extend_from_slice(&JOURNAL)?;
    for place in 0..JOURNAL.len() {
        for bit in 0..8u32 {
            bytes[place] ^= 1u8 << bit;
            refuses_turned(&rt, alloc, bytes.as_slice(), place)?;
            bytes[place] ^= 1u8 << bit;
        }
    }
    Ok(())
}

/// Fails the test if a journal whose last entry is cut yields neither what comes before that entry
/// nor the fault that it is damaged.
fn reports_or_damaged(rt: &impl Abort, alloc: Global, bytes: &[u8]) -> Result<(), Fail> {
    assert!(rt; bytes.len() < 1_000_000, "too long");
    let found = reported(replay(alloc, Limit::default(), &a1()?, bytes));
    let torn = bytes.len().saturating_sub(ENDS[5]);
    let told = found == Ok((ENDS[5], torn, 165)) || found == Err(ReplayFault::Damaged.code());
    assert!(rt; told, "another answer of {} bytes", bytes.len());
    Ok(())
}

#[test]
fn a_cut_entry_with_a_bit_turned_loses_no_number_before_it(rt: HostRuntime) -> Result<(), Fail> {
    let alloc = rt.alloc();
    for cut in ENDS[5]..ENDS[6] {
        let mut bytes = JOURNAL[..cut].to_vec(alloc)?;
        for place in ENDS[5]..bytes.len() {
            for bit in 0..8u32 {
                bytes[place] ^= 1u8 << bit;
                reports_or_damaged(&rt, alloc, bytes.as_slice())?;
                bytes[place] ^= 1u8 << bit;
            }
        }
    }
    Ok(())
}

/// Lines that neither a stop nor a loss of power leaves: an empty one, one that isn't stuffed, one
/// that ends with a 1, one with a 1 before another byte, and whole bytes under another check.
static DAMAGED: [&[u8]; 5] = [
    b"\x02",
    b"................\x02",
    b"................\x01\x02",
    b"................\x01\x06\x02",
    b"\x01\x03................................\x03\x02",
];

/// And bytes that one leaves: zeros, with or without whole bytes after them, and the beginning of
/// a MARK's entry.
static TORN: [&[u8]; 5] = [
    &[0],
    &[0, 0, 0, 0],
    b"\0................\x02",
    &[7, 7, 7],
    b"\x01\x03................................\x03",
];

#[test]
fn what_a_stop_leaves_is_told_from_damage(rt: HostRuntime) -> Result<(), Fail> {
    let alloc = rt.alloc();
    for tail in &DAMAGED {
        let mut bytes = JOURNAL.to_vec(alloc)?;
        bytes.extend_from_slice(tail)?;
        refused(&rt, alloc, bytes.as_slice(), ReplayFault::Damaged)?;
    }
    for tail in &TORN {
        let mut bytes = JOURNAL.to_vec(alloc)?;
        bytes.extend_from_slice(tail)?;
        reports(&rt, alloc, bytes.as_slice(), ENDS[6], 6)?;
    }
    Ok(())
}

/// A header and an OPEN, then this entry.
fn after_open(alloc: Global, entry: &[u8]) -> Result<Vec<u8>, AllocError> {
    let mut bytes = JOURNAL[..113].to_vec(alloc)?;
    bytes.extend_from_slice(entry)?;
    Ok(bytes)
}

#[test]
fn what_is_no_journal_of_this_server_is_refused(rt: HostRuntime) -> Result<(), Fail> {
    let alloc = rt.alloc();
    refused(&rt, alloc, &[], ReplayFault::NotBegun)?;
    refused(&rt, alloc, b"RIFF", ReplayFault::NotAJournal)?;
    refused(
        &rt,
        alloc,
        b"RIFF\xae\x02\0\0WAVEJUNK\x1c\0\0\0",
        ReplayFault::NotAJournal,
    )?;
    let other_verdict = after_open(alloc, &OTHER_VERDICT)?;
    refused(
        &rt,
        alloc,
        other_verdict.as_slice(),
        ReplayFault::OtherVerdict,
    )?;
    let unknown = after_open(alloc, &UNKNOWN)?;
    refused(&rt, alloc, unknown.as_slice(), ReplayFault::NotAnEntry)?;
    let limit = Limit::new(8192).ok_or("a limit")?;
    let other = JournalHeader {
        limit,
        existed: true,
    };
    let header = other.to_bytes(&a1()?);
    refused(&rt, alloc, &header, ReplayFault::OtherLimit)?;
    assert!(&rt; header_limit(&header) == Some(8192), "another limit");
    let b2 = Name::new(b"b2").ok_or("a name")?;
    let renamed = reported(replay(alloc, Limit::default(), &b2, &JOURNAL));
    assert!(&rt;
        renamed == Err(ReplayFault::OtherName.code()),
        "another name's journal"
    );
    refused(&rt, alloc, &other.to_bytes(&b2), ReplayFault::OtherName)
}

/// A memory in which the journal of `a1` has these bytes.
fn planted(alloc: Global, bytes: &[u8]) -> Result<MemoryJournal, Fail> {
    let mut memory = MemoryJournal::new(alloc, Limit::default());
    memory.plant(&a1()?, bytes)?;
    Ok(memory)
}

/// Fails the test if the journal of `a1` has other bytes.
fn has(rt: &impl Abort, memory: &MemoryJournal, bytes: &[u8]) -> Result<(), Fail> {
    let found = memory.content(&a1()?).ok_or("a content")?;
    assert!(rt; found == bytes, "other bytes");
    Ok(())
}

#[test]
fn a_fault_leaves_the_beginning_of_an_entry_and_the_rest_follows(
    rt: HostRuntime,
) -> Result<(), Fail> {
    let name = a1()?;
    let fuses = [0u64, 2].to_vec(rt.alloc())?;
    let mut journal = FuseJournal::new(planted(rt.alloc(), &JOURNAL[..7])?, fuses);
    assert!(&rt; journal.begin(&name).is_err(), "a fuse is left");
    journal.begin(&name)?;
    let noted = journal.note(&name, 47, &JOURNAL[47..113]);
    assert!(&rt; noted.is_err(), "a fuse is left");
    has(&rt, journal.inner(), &JOURNAL[..80])?;
    journal.note(&name, 47, &JOURNAL[47..113])?;
    journal.note(&name, 113, &JOURNAL[113..])?;
    journal.begin(&name)?;
    assert!(&rt; journal.calls() == 6, "other calls");
    has(&rt, journal.inner(), &JOURNAL)
}

#[test]
fn a_journal_knows_which_files_existed(rt: HostRuntime) -> Result<(), Fail> {
    let name = a1()?;
    let limit = Limit::new(8192).ok_or("a limit")?;
    let mut journal = MemoryJournal::new(rt.alloc(), limit);
    journal.set_existed(&name)?;
    journal.begin(&name)?;
    has(
        &rt,
        &journal,
        b"BWJ20020000001f55ff16f66f4336030c32ba72f25fd7b\x02",
    )
}
