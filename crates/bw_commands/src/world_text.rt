//! The text of a rehearsal's outcome.
ghost use Rattle.std.specs.Prelude.{◌≡◌, ◌++◌, length, IfOk, OnOk};
ghost use Rattle.bw_commands.specs.Rehearsals.{world_counts_line, world_progress_line, world_lines};
ghost use Rattle.bw_commands.specs.Rehearsals.{HasWorld};
ghost use Rattle.bw_commands.specs.Text.{files_text};
ghost use Rattle.bw_model.specs.Book.{log_of};
ghost use Rattle.bw_model.specs.World.{World as ReportedWorld, settled, stored};
ghost use Rattle.bw_session.specs.SeenServers.{server_store};
ghost use Rattle.bw_store.specs.MemoryNames.{names_of, AreNames, memory_content};

use crate::World;
use crate::text::put_files;
use bw_model::Name;
use std::alloc::{AllocError, Global};

/// The outcome in two lines, and then the store's files in the order of their names.
pub fn text_of_world(alloc: Global, name: &Name, world: &World) -> Result<Vec<u8>, AllocError>
    ensures text { IfOk result (λ text. (w : ReportedWorld) →
        HasWorld w world.now → w.sender.name ≡ name.now →
        text.items ≡ world_lines w ++ files_text (memory_content (server_store world.now.server))
        (names_of (server_store world.now.server))) }
    ensures names { OnOk result (AreNames (names_of (server_store world.now.server))
        (memory_content (server_store world.now.server))) }
{
    let mut text = Vec::new(alloc);
    put_counts(alloc, &mut text, world.offered, world.sent, world.replies)?;
    put_progress(alloc, &mut text, name, world)?;
    put_files(alloc, &mut text, world.server.store())?;
    Ok(text)
}

/// Adds how many requests were offered, messages sent and replies written.
///
/// # Errors
/// `AllocError` if memory was refused: a prefix may have been added.
pub fn put_counts(
    alloc: Global,
    out: &mut Vec<u8>,
    offered: u64,
    sent: usize,
    replies: usize,
) -> Result<(), AllocError>
    ensures { OnOk result (out.new.items ≡ out.old.items ++ world_counts_line offered sent replies) }
{
    let text = format!(in alloc; "offered {offered} sent {sent} replies {replies}\n")?;
    out.extend_from_slice(text.as_bytes())
}

/// Adds how far the server and the sender got.
fn put_progress(
    alloc: Global,
    out: &mut Vec<u8>,
    name: &Name,
    world: &World,
) -> Result<(), AllocError>
    ensures { OnOk result ((w : ReportedWorld) → HasWorld w world.now → w.sender.name ≡ name.now →
        out.new.items ≡ out.old.items ++ world_progress_line (log_of w.book w.sender.name).done
        (settled w.sender) (stored w.sender)) }
{
    let done = world.server.done(name).unwrap_or(0);
    put_progress_of(
        alloc,
        out,
        done,
        world.sender.settled(),
        world.sender.stored(),
    )
}

/// Adds how many numbers are done, settled and stored.
///
/// # Errors
/// `AllocError` if memory was refused: a prefix may have been added.
pub fn put_progress_of(
    alloc: Global,
    out: &mut Vec<u8>,
    done: u32,
    settled: u32,
    stored: u32,
) -> Result<(), AllocError>
    ensures { OnOk result (out.new.items ≡ out.old.items ++ world_progress_line done settled stored) }
{
    let text = format!(in alloc; "done {done} settled {settled} stored {stored}\n")?;
    out.extend_from_slice(text.as_bytes())
}
