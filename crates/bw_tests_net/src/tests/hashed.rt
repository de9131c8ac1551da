//! Messages of several recorders, which are hashed at once before they are answered.
ghost use Rattle.std.specs.Prelude.{⊤};

use crate::tests::compare::same;
use crate::tests::play::{ALL, bounds};
use crate::tests::scripted::Give;
use crate::tests::scripted_reactor::{Comes, Plan, ScriptedReactor, Visit};
use arrayvec::ArrayVec;
use bw_console::Exit;
use bw_exchange::{Metered, NotKept, Turns};
use bw_operators::AllowList;
use bw_serve::{Terms, run_event_loop};
use bw_stream::MemorySink;
use bw_wire::{Ask, Message, Notice, Reply};
use std::alloc::{AllocError, Global};
use std::process::Abort;
use std::test::Fail;

/// A server that counts the messages whose digest was known when they came, and replies nothing.
#[derive(Drop)]
struct DigestCounter {
    alloc: Global,
    known: u64,
}

impl Turns for DigestCounter {
    ghost answers = { λ _ _ _ _. ⊤ };

    ghost committed = { λ _. ⊤ };

    ghost commits = { λ _ _ _. ⊤ };

    fn turn(&mut self, message: &Message<'_>, replies: &mut ArrayVec<Reply, 17>) {
        replies.clear();
        if let Ok(true) = knows_digest(self.alloc, message) {
            self.known = self.known.saturating_add(1);
        }
    }

    fn ask(&mut self, ask: &Ask<'_>) -> Reply {
        Reply::Notice {
            name: ask.name(),
            number: ask.number(),
            code: Notice::Next,
            next: 0,
        }
    }

    fn commit(&mut self) -> Result<(), NotKept> {
        Ok(())
    }
}

/// Whether a message was given with its digest: only its text shows it.
fn knows_digest(alloc: Global, message: &Message<'_>) -> Result<bool, AllocError> {
    Ok(format!(in alloc; "{message:?}")?.contains("digest: Some("))
}

/// Sends OPEN 0, and no more.
const OPENS: Visit = Visit(
    1,
    Comes::Peer(
        b"\x12\0\0\0\x01\x02a1\0\0\0\0\x80\xbb\0\0\x01\0\x10\0\0\0",
        &[Give::Bytes(22)],
        ALL,
    ),
);

const THREE: &[Visit] = &[OPENS; 3];

const FOUR: &[Visit] = &[OPENS; 4];

const NINE: &[Visit] = &[OPENS; 9];

/// Compares how many messages of these recorders came with their digests.
fn are_known(
    rt: &impl Abort,
    alloc: Global,
    visits: &'static [Visit],
    known: u64,
) -> Result<(), Fail> {
    let mut server = Metered::new(DigestCounter { alloc, known: 0 });
    let mut scripted_reactor = ScriptedReactor::new(alloc, Plan::over(visits, 10, 100));
    let mut out = MemorySink::new(Vec::new(alloc));
    let mut faults = MemorySink::new(Vec::new(alloc));
    let allow = AllowList::everyone();
    let terms = Terms {
        alloc,
        bounds: bounds(visits.len(), visits.len() as u64, 60_000),
        allow: &allow,
        log: false,
    };
    let exit = run_event_loop(
        &terms,
        &mut server,
        &mut scripted_reactor,
        &mut out,
        &mut faults,
    );
    same(rt, "the exit", &exit, &Exit::Done);
    same(rt, "how many were known", &server.server().known, &known);
    Ok(())
}

#[test]
fn messages_of_four_recorders_are_hashed_at_once(rt: HostRuntime) -> Result<(), Fail> {
    are_known(&rt, rt.alloc(), FOUR, 4)
}

#[test]
fn where_it_is_no_faster_nothing_is_hashed_ahead(rt: HostRuntime) -> Result<(), Fail> {
    are_known(&rt, rt.alloc(), THREE, 0)
}

#[test]
fn eight_are_hashed_at_once_and_the_ninth_alone(rt: HostRuntime) -> Result<(), Fail> {
    are_known(&rt, rt.alloc(), NINE, 8)
}
