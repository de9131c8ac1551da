//! One server's life: a take's messages over what is on a disk, and the call in which the disk dies.
use crate::tests::script::{COUNT, body};
use crate::tests::serving::{Kept, done_by, replies_to, server_over};
use bw_disk::{MemoryDisk, MortalDisk};
use bw_model::Verdict;
use bw_wire::Reply;
use std::alloc::Global;
use std::cell::RefCell;
use std::rc::Rc;
use std::test::Fail;

/// An ask for the take's next number.
const ASK: &[u8] = b"\x06\x02a1\0\0\0\0";

/// The first verdict of each number that was answered.
pub(crate) type Verdicts = [Option<Verdict>; COUNT];

/// When a disk dies, and what it does of that call.
#[derive(Clone, Copy)]
pub(crate) struct Death {
    /// After this many calls.
    pub(crate) life: u64,
    /// With this many bytes of the call written.
    pub(crate) reached: usize,
}

/// What a life leaves.
#[derive(Drop)]
pub(crate) struct Left {
    /// What the next server finds.
    pub(crate) disk: MemoryDisk,
    /// Whether the disk died.
    pub(crate) died: bool,
    /// What was answered.
    pub(crate) answers: Answers,
}

/// What a server answered in its life.
#[derive(Clone, Copy)]
pub(crate) struct Answers {
    /// How many numbers were done at first; none if the ask was put off.
    pub(crate) found: Option<u32>,
    /// Which verdicts were answered.
    pub(crate) verdicts: Verdicts,
}

/// A disk in memory that dies in a chosen call.
type Mortal = MortalDisk<MemoryDisk>;

/// Gives a new server the take's messages once, and returns what is on the disk then.
pub(crate) fn live(
    alloc: Global,
    disk: MemoryDisk,
    death: Death,
    sync: bool,
) -> Result<Left, Fail> {
    let mortal = MortalDisk::new(disk, death.life, death.reached);
    let shared = Rc::new(alloc, RefCell::new(mortal))?;
    let answers = answered(alloc, &shared, sync)?;
    let Ok(cell) = Rc::try_unwrap(shared) else {
        return Err("a server keeps its disk")?;
    };
    let mortal = cell.into_inner();
    Ok(Left {
        died: mortal.is_dead(),
        disk: mortal.into_inner(),
        answers,
    })
}

/// What is answered in a life.
fn answered(alloc: Global, shared: &Rc<RefCell<Mortal>>, sync: bool) -> Result<Answers, Fail> {
    let mut server = server_over(alloc, shared, sync)?;
    let found = done_by(&mut server, ASK)?;
    let mut verdicts = [None; COUNT];
    for number in 0..COUNT {
        give(&mut server, body(alloc, number)?.as_slice(), &mut verdicts)?;
    }
    Ok(Answers { found, verdicts })
}

/// Gives a server a message, and notes the verdicts that it answers. No number has two.
fn give(server: &mut Kept<Mortal>, body: &[u8], verdicts: &mut Verdicts) -> Result<(), Fail> {
    let replies = replies_to(server, body)?;
    for reply in &replies {
        if let Reply::Verdict {
            name: _,
            number,
            verdict,
        } = reply
        {
            note(verdicts, *number as usize, *verdict)?;
        }
    }
    Ok(())
}

/// Notes a verdict.
fn note(verdicts: &mut Verdicts, number: usize, verdict: Verdict) -> Result<(), Fail> {
    let place = verdicts.get_mut(number).ok_or("a number of the take")?;
    if place.is_some_and(|first| first != verdict) {
        return Err("two verdicts of one number")?;
    }
    *place = Some(verdict);
    Ok(())
}
