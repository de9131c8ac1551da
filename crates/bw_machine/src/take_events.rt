//! What happens to takes in a server's turns, as its log says it.
//! Not stated: that a line is said for each.
use bw_journal::Journal;
use bw_layout::Fmt;
use bw_model::{Name, RequestRef, Verdict};
use bw_net::NotedFiles;
use bw_operators::{comes_about, take_closed_line, take_opened_line, take_refused_line};
use bw_session::{HasTable, Server};
use bw_store::TakeStore;
use bw_wire::{Message, Reply};

/// What a server's table has of a name.
#[derive(Clone, Copy)]
pub(crate) struct TakeStage {
    is_known: bool,
    /// None before its OPEN is stored.
    format: Option<Fmt>,
    frames: u64,
    is_closed: bool,
}

/// What the table of a server has of a name, if what happens is said.
pub(crate) fn stage_to_note<T: HasTable>(
    files: NotedFiles<'_>,
    server: &T,
    name: &Name,
) -> Option<TakeStage> {
    if files.logs() {
        Some(stage_of(server.table(), name))
    } else {
        None
    }
}

fn stage_of<S: TakeStore, J: Journal>(table: &Server<S, J>, name: &Name) -> TakeStage {
    TakeStage {
        is_known: table.is_known(name),
        format: table.format(name),
        frames: table.frames(name).unwrap_or(0),
        is_closed: table.is_closed(name),
    }
}

/// Says what a turn did for a message whose name was at this stage before it.
pub(crate) fn note_turn<T: HasTable>(
    files: NotedFiles<'_>,
    server: &T,
    message: &Message<'_>,
    before: TakeStage,
    replies: &[Reply],
) {
    let name = message.name();
    let after = stage_of(server.table(), &name);
    let Some(format) = after.format else {
        return note_refused(files, replies);
    };
    let stored = is_stored(replies, message.number());
    let was = before.format.is_some();
    if comes_about(before.is_known, was, true, stored && is_open(message)) {
        files.note_event(take_opened_line(files.alloc(), &name, after.frames));
    }
    note_refused(files, replies);
    let was = before.is_closed;
    if comes_about(
        before.is_known,
        was,
        after.is_closed,
        stored && is_close(message),
    ) {
        note_closed(files, &name, format, after.frames);
    }
}

/// Whether one of these replies is that the message of this number is stored.
fn is_stored(replies: &[Reply], message: u32) -> bool {
    for reply in replies {
        if let Reply::Verdict {
            name: _,
            number,
            verdict,
        } = reply
        {
            if *number == message && *verdict == Verdict::Stored {
                return true;
            }
        }
    }
    false
}

/// Whether a message is an OPEN.
fn is_open(message: &Message<'_>) -> bool {
    matches!(message.request(), RequestRef::OpenTake { .. })
}

/// Whether a message is a CLOSE.
fn is_close(message: &Message<'_>) -> bool {
    matches!(message.request(), RequestRef::CloseTake { .. })
}

/// Says that a take of so many frames was closed.
fn note_closed(files: NotedFiles<'_>, name: &Name, format: Fmt, frames: u64) {
    let bytes = frames.saturating_mul(u64::from(format.block_align()));
    let line = take_closed_line(files.alloc(), name, frames, format.rate(), bytes);
    files.note_event(line);
}

/// Says which verdicts don't store their message.
fn note_refused(files: NotedFiles<'_>, replies: &[Reply]) {
    for reply in replies {
        if let Reply::Verdict {
            name,
            number,
            verdict,
        } = reply
        {
            if *verdict != Verdict::Stored {
                files.note_event(take_refused_line(files.alloc(), name, *number, *verdict));
            }
        }
    }
}
