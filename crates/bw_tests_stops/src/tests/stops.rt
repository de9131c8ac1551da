//! What a kill leaves, whichever call it falls in: each verdict that was answered still holds, and
//! the take is finished by whoever sends its messages again.
use crate::tests::lives::{Answers, Death, Verdicts, live};
use crate::tests::script::COUNT;
use bw_disk::MemoryDisk;
use bw_model::Verdict::{self, BadBlock, Stored};
use std::alloc::Global;
use std::process::Abort;
use std::test::Fail;

/// The verdicts of the take: the third message has no whole frame.
const VERDICTS: [Verdict; COUNT] = [
    Stored, Stored, BadBlock, Stored, Stored, Stored, Stored, Stored,
];

/// Where the take's file is.
const WAVE: &str = "takes/a1.wav";

/// The length of the take's file: a header of 694 bytes, as its history of three bytes has a pad
/// byte, 7,512 bytes of samples, and a `cue ` chunk of one point, 36 bytes.
const LENGTH: usize = 8_242;

/// A disk that doesn't die.
const IMMORTAL: Death = Death {
    life: u64::MAX,
    reached: 0,
};

/// More calls than a life makes.
const CALLS: u64 = 160;

/// Whether the verdicts that were answered are those of the take.
fn are_right(verdicts: &Verdicts) -> bool {
    verdicts
        .iter()
        .zip(&VERDICTS)
        .all(|(found, right)| found.is_none_or(|it| it == *right))
}

/// How many verdicts were answered.
fn count(verdicts: &Verdicts) -> usize {
    verdicts.iter().filter(|it| it.is_some()).count()
}

/// Whether a server answered nothing but right verdicts, and began with all that was answered before.
fn goes_on(answers: &Answers, before: usize) -> bool {
    are_right(&answers.verdicts) && answers.found.is_none_or(|done| done as usize >= before)
}

/// Whether this is the take's file: BW64, with its samples in their order.
fn is_whole(file: &[u8]) -> bool {
    file.len() == LENGTH
        && file.starts_with(b"BW64")
        && file.get(694..697) == Some(&[1, 2, 3])
        && file.get(697..700) == Some(&[0, 1, 2])
        && file.get(8_203..8_206) == Some(&[4, 5, 6])
}

/// Whether a take of which so much was answered is finished by whoever sends its messages again.
fn is_finished(alloc: Global, disk: MemoryDisk, before: usize, sync: bool) -> Result<bool, Fail> {
    let last = live(alloc, disk, IMMORTAL, sync)?;
    let is_done = goes_on(&last.answers, before) && count(&last.answers.verdicts) == COUNT;
    Ok(is_done && last.disk.content(WAVE).is_some_and(is_whole))
}

/// Whether a take survives a disk that dies in the first life, and again in each call until the next
/// server has found the take.
fn survives_both(alloc: Global, first: Death, sync: bool) -> Result<bool, Fail> {
    for life in 0..CALLS {
        let one = live(alloc, MemoryDisk::new(alloc), first, sync)?;
        let answered = count(&one.answers.verdicts);
        let reached = first.reached;
        let two = live(alloc, one.disk, Death { life, reached }, sync)?;
        let more = answered.max(count(&two.answers.verdicts));
        if !goes_on(&one.answers, 0) || !goes_on(&two.answers, answered) {
            return Ok(false);
        }
        let is_found = two.answers.found.is_some();
        if !is_finished(alloc, two.disk, more, sync)? {
            return Ok(false);
        }
        if is_found {
            return Ok(true);
        }
    }
    Ok(false)
}

/// Whether a take survives a disk that dies twice, first in each call of the first life, then in
/// each until the next server has found the take.
fn survives_each(alloc: Global, reached: usize, sync: bool) -> Result<bool, Fail> {
    for life in 0..CALLS {
        let first = Death { life, reached };
        if !survives_both(alloc, first, sync)? {
            return Ok(false);
        }
        if !live(alloc, MemoryDisk::new(alloc), first, sync)?.died {
            return Ok(true);
        }
    }
    Ok(false)
}

/// Fails the test unless a take survives a disk that dies twice, with so many bytes written of the
/// call in which it dies.
fn survives(rt: &impl Abort, alloc: Global, reached: usize, sync: bool) -> Result<(), Fail> {
    assert!(rt;
        survives_each(alloc, reached, sync)?,
        "with {reached} bytes written"
    );
    Ok(())
}

#[test]
fn a_take_survives_two_deaths_between_calls(rt: HostRuntime) -> Result<(), Fail> {
    survives(&rt, rt.alloc(), 0, false)
}

#[test]
fn a_take_survives_two_deaths_after_a_byte(rt: HostRuntime) -> Result<(), Fail> {
    survives(&rt, rt.alloc(), 1, false)
}

#[test]
fn a_take_survives_two_deaths_within_writes(rt: HostRuntime) -> Result<(), Fail> {
    survives(&rt, rt.alloc(), 30, false)
}

#[test]
fn with_syncs_a_take_survives_two_deaths_between_calls(rt: HostRuntime) -> Result<(), Fail> {
    survives(&rt, rt.alloc(), 0, true)
}

#[test]
fn with_syncs_a_take_survives_two_deaths_within_writes(rt: HostRuntime) -> Result<(), Fail> {
    survives(&rt, rt.alloc(), 700, true)
}
