//! The text of a rehearsal in which servers stop and start.
ghost use Rattle.std.specs.Prelude.{◌≡◌, ℕ, ◌++◌, List, IfOk, OnOk};
ghost use Rattle.bw_model.specs.World.{World};
ghost use Rattle.bw_sender.specs.Senders.{IsSender};
ghost use Rattle.bw_commands.specs.Text.{file_text_if};
ghost use Rattle.bw_folder.specs.Folders.{take_content};
ghost use Rattle.bw_delivery.specs.Machines.{ShowsNext, takes_at, the_folder};
ghost use Rattle.bw_delivery.specs.Rehearsals.{WasRehearsedWithStops};
ghost use Rattle.bw_delivery.specs.declared.event.StopEvent.{StopEvent as SaidEvent};
ghost use Rattle.bw_delivery.specs.StopTexts.{IsStopsText, progress_text, stopped_line};

use crate::{Machine, Rehearsed};
use bw_commands::{put_counts, put_file, put_progress_of};
use bw_model::Name;
use std::alloc::{AllocError, Global};

/// The outcome in two lines, and then the take's file.
pub(crate) fn text_of_stops(
    alloc: Global,
    name: &Name,
    it: &Rehearsed,
) -> Result<Vec<u8>, AllocError>
    ensures { IfOk result (λ text. (limit : ℕ) (events : List SaidEvent) →
        WasRehearsedWithStops name.now limit events it.now →
        IsStopsText name.now limit events text.items) }
{
    let mut text = Vec::new(alloc);
    put_counts(alloc, &mut text, it.offered, it.sent, it.replies)?;
    put_progress(alloc, &mut text, it)?;
    put_take(alloc, &mut text, name, &it.machine)?;
    Ok(text)
}

/// Adds how far the server and the sender got.
fn put_progress(alloc: Global, out: &mut Vec<u8>, it: &Rehearsed) -> Result<(), AllocError>
    ensures { OnOk result ((limit : ℕ) (w : World) (name : List ℕ) → IsSender w.sender it.now.sender →
        ShowsNext limit w name it.now.done it.now.machine →
        out.new.items ≡ out.old.items ++ progress_text it.now.machine name w) }
{
    let (settled, stored) = (it.sender.settled(), it.sender.stored());
    match &it.machine {
        Machine::Runs(_life) => put_progress_of(alloc, out, it.done, settled, stored),
        Machine::Stopped(_) => put_stopped(alloc, out, settled, stored),
    }
}

/// Adds how many numbers are settled and stored, where no server runs.
fn put_stopped(
    alloc: Global,
    out: &mut Vec<u8>,
    settled: u32,
    stored: u32,
) -> Result<(), AllocError>
    ensures { OnOk result (out.new.items ≡ out.old.items ++ stopped_line settled stored) }
{
    let text = format!(in alloc; "stopped settled {settled} stored {stored}\n")?;
    out.extend_from_slice(text.as_bytes())?;
    Ok(())
}

/// Adds the file of the take, if there is one.
fn put_take(
    alloc: Global,
    out: &mut Vec<u8>,
    name: &Name,
    machine: &Machine,
) -> Result<(), AllocError>
    ensures { OnOk result (out.new.items ≡ out.old.items ++ file_text_if name.now
        (take_content (takes_at machine.now) the_folder name.now)) }
{
    let Some(content) = machine.take(alloc, name)? else {
        return Ok(());
    };
    put_file(alloc, out, name, content)
}
