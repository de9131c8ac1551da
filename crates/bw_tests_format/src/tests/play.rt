//! The messages of a take and their replies, and the file that they leave.
use crate::tests::compare::same;
use crate::two_frames;
use arrayvec::ArrayVec;
use bw_journal::Journal;
use bw_layout::Limit;
use bw_model::{Name, Verdict};
use bw_session::Server;
use bw_store::MemoryStore;
use bw_wire::{Frame, Notice, Reply, decode};
use std::alloc::Global;
use std::process::Abort;
use std::test::Fail;

/// What a server reports of a number of the name that it was sent.
#[derive(Clone, Copy, Debug, PartialEq, Eq)]
pub(crate) enum Reported {
    /// The number, and its verdict.
    Judged(u32, Verdict),
    /// The number, why it has no verdict, and which number comes next.
    Noticed(u32, Notice, u32),
}

/// The body of a message, and the reply to its sender.
#[derive(Clone, Copy)]
pub(crate) struct Turn {
    pub(crate) body: &'static [u8],
    pub(crate) reported: &'static [Reported],
}

/// The name `a1`.
pub(crate) fn a1() -> Result<Name, Fail> {
    Ok(Name::new(b"a1").ok_or("a name")?)
}

/// A new server over a store in memory and a journal.
pub(crate) fn noting_server<J: Journal>(
    alloc: Global,
    journal: J,
) -> Result<Server<MemoryStore, J>, Fail> {
    let store = MemoryStore::new(alloc);
    match Server::with_journal(alloc, store, journal, Limit::default()) {
        Ok(server) => Ok(server),
        Err(_refused) => Err("memory")?,
    }
}

/// What a reply reports of a number of this name.
fn reported_of(reply: &Reply, of: &Name) -> Option<Reported> {
    match reply {
        Reply::Verdict {
            name,
            number,
            verdict,
        } if name == of => Some(Reported::Judged(*number, *verdict)),
        Reply::Notice {
            name,
            number,
            code,
            next,
        } if name == of => Some(Reported::Noticed(*number, *code, *next)),
        Reply::Verdict { .. } | Reply::Notice { .. } | Reply::BadFrame { .. } => None,
    }
}

/// Gives the server a message, and fails the test if its sender gets any other reply.
pub(crate) fn send<J: Journal>(
    rt: &impl Abort,
    of: &str,
    server: &mut Server<MemoryStore, J>,
    body: &[u8],
    reported: &[Reported],
) -> Result<(), Fail> {
    let Ok(Frame::Message(message)) = decode(body) else {
        return Err("no message")?;
    };
    let mut replies = ArrayVec::new();
    server.turn(&message, &mut replies);
    let name = message.name();
    same(rt, of, &replies.len(), &reported.len());
    for (reply, reported) in replies.iter().zip(reported) {
        same(rt, of, &reported_of(reply, &name), &Some(*reported));
    }
    Ok(())
}

/// Fails the test if a store doesn't hold the file of two frames under a name.
pub(crate) fn has_file(
    rt: &impl Abort,
    alloc: Global,
    store: &MemoryStore,
    name: &Name,
) -> Result<(), Fail> {
    let file = two_frames(alloc)?;
    assert!(rt;
        store.content(name) == Some(file.as_slice()),
        "another file"
    );
    Ok(())
}
