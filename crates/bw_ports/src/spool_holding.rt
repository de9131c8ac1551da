//! A spool is held before anything is drawn into it, and what still comes is kept in it once nothing
//! more is sent.
ghost use Rattle.std.specs.Prelude.{◌≡◌, IfOk};
ghost use Rattle.bw_console.specs.Prints.{IsPrint, Print};
ghost use Rattle.bw_ports.specs.Keeping.{HoldsSpool, KeepsRest, KeepsUnlessDone};
ghost use Rattle.bw_ports.specs.Keeping.{SaysDrawing, SaysKept, kept_text};
ghost use Rattle.bw_ports.specs.Purposes.{line_of};

use crate::{Purpose, SpoolKeeper, purpose_line};
use bw_console::print::{give_up, print_diagnostic};
use bw_console::{Exit, Fault, report_unopened};
use bw_stream::Sink;
use itoa::Buffer;
use std::alloc::{AllocError, Global};

/// What is said before the rest of the input is drawn.
const DRAWING: &[u8] = b"send: the input is kept in the spool until it ends\n";

/// What is said after the count of the bytes that a spool holds.
const HELD: &[u8] =
    b" bytes; run this with '--file' in the place of '--spool' to send them, with another '--name' if this one was refused\n";

/// Holds the spool at a path for a purpose.
///
/// # Errors
/// How the command ends because it isn't held, which is reported: `Device`, or `Memory` if memory was
/// refused.
///
/// # Not specified
/// When it isn't held.
pub fn hold_spool<K: SpoolKeeper, E: Sink>(
    alloc: Global,
    path: &str,
    purpose: &Purpose<'_>,
    keeper: &mut K,
    faults: &mut E,
) -> Result<(), Exit>
    ensures { HoldsSpool K.SpoolKeeper E.Sink path.now (line_of purpose.now) result
        keeper.old keeper.new faults.old faults.new }
{
    let Ok(line) = purpose_line(alloc, purpose) else {
        return Err(give_up(faults, &Fault::Memory));
    };
    match keeper.hold(path, line.as_slice()) {
        Ok(()) => Ok(()),
        Err(error) => Err(report_unopened(alloc, path, &error, faults)),
    }
}

/// Keeps what still comes in the spool at a path, unless all that was to be sent is stored: so a
/// recorder that writes into the input loses nothing because nothing more is sent. What the spool
/// holds then is said, with what to run.
///
/// # Not specified
/// When memory is refused, in which case that isn't said.
pub fn keep_unless_done<K: SpoolKeeper, E: Sink>(
    alloc: Global,
    path: &str,
    exit: Exit,
    keeper: &mut K,
    faults: &mut E,
)
    ensures { KeepsUnlessDone K.SpoolKeeper E.Sink path.now exit keeper.old keeper.new
        faults.old faults.new }
{
    match exit {
        Exit::Done => {}
        Exit::Refused => keep_rest(alloc, path, keeper, faults),
        Exit::Usage => keep_rest(alloc, path, keeper, faults),
        Exit::Device => keep_rest(alloc, path, keeper, faults),
        Exit::Memory => keep_rest(alloc, path, keeper, faults),
    }
}

/// Keeps what still comes, and says what the spool holds then.
fn keep_rest<K: SpoolKeeper, E: Sink>(alloc: Global, path: &str, keeper: &mut K, faults: &mut E)
    ensures { KeepsRest K.SpoolKeeper E.Sink path.now keeper.old keeper.new faults.old faults.new }
{
    say_drawing(keeper.is_open(), faults);
    let kept = keeper.keep_rest();
    say_kept(alloc, path, kept, faults);
}

/// Says that the rest of the input is drawn, if more may come.
fn say_drawing<E: Sink>(is_open: bool, faults: &mut E)
    ensures { (print : Print) × SaysDrawing is_open print
        × IsPrint E.Sink print faults.old faults.new }
{
    if is_open {
        print_diagnostic(faults, DRAWING);
    }
}

/// Says how many bytes the spool at a path holds, if that is known and it holds any.
fn say_kept<E: Sink>(alloc: Global, path: &str, kept: Option<u64>, faults: &mut E)
    ensures { (print : Print) × SaysKept path.now kept print
        × IsPrint E.Sink print faults.old faults.new }
{
    let Some(bytes) = kept else {
        return;
    };
    if bytes == 0 {
        return;
    }
    let Ok(text) = kept_line(alloc, path, bytes) else {
        return;
    };
    print_diagnostic(faults, text.as_slice());
}

/// The line that says so.
///
/// # Errors
/// `AllocError` if memory was refused.
fn kept_line(alloc: Global, path: &str, bytes: u64) -> Result<Vec<u8>, AllocError>
    ensures { IfOk result (λ line. line.items ≡ kept_text path.now bytes) }
{
    let mut line = Vec::from_slice(alloc, b"send: ")?;
    line.extend_from_slice(path.as_bytes())?;
    line.extend_from_slice(b" holds ")?;
    line.extend_from_slice(Buffer::new().format(bytes).as_bytes())?;
    line.extend_from_slice(HELD)?;
    Ok(line)
}
