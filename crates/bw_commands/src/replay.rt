//! The command `replay`: runs from standard input.
ghost use Rattle.std.specs.Prelude.{◌≡◌, ◌+◌, ◌≤◌, All, length, map, IfOk};
ghost use Rattle.bw_commands.specs.Replays.{IsReplay, IsPrintOf, IsRunText};
ghost use Rattle.bw_console.specs.Faults.{is_read};
ghost use Rattle.bw_console.specs.Input.{longest_input, IsReadAhead};
ghost use Rattle.bw_console.specs.Outcomes.{Outcome, HasWritten};
ghost use Rattle.bw_console.specs.Prints.{IsPrint, Print, failures_if};
ghost use Rattle.bw_stream.specs.Readers.{Of};

use crate::replay_store::ReplayStore;
use crate::text::text_of_run;
use bw_console::print::{give_up, print};
use bw_console::{Exit, Fault, exchanges};
use bw_layout::Limit;
use bw_session::ingest_run;
use bw_stream::{Sink, Source};
use std::alloc::{AllocError, Global};

/// Runs each line of the input as an exchange, over an empty store in memory, and writes replies
/// and files as text. The store's call of the number `fuse`, counted from 0, fails; with None, none
/// does.
///
/// In a run that is printed without a fuse no store call failed, so that no reply reports one, and
/// each file is its take's. With one a store call failed if there were more calls than its number,
/// else none; a reply reports a failed call only if one failed.
///
/// A fault's line goes to `faults`; a failure to write it is ignored. A file whose RIFF form would
/// be longer than `limit` bytes is written as BW64. Of the input at most 16,777,217 bytes are read.
///
/// `Refused` if the input has more than 16,777,216 bytes, or for its first line that isn't hex;
/// `Device` if a read or a write failed; `Memory` if memory was refused, in the store too. Nothing
/// is printed then, or a prefix if the writer failed.
///
/// # Not specified
/// - How many store calls a run makes, between those that its files took and four for each number
///   that was done or tried: and so which reply reports the failed call.
/// - When memory is refused.
/// - Of a reader that doesn't report its bytes: what is refused, and what the text is of.
pub fn replay<R: Source, W: Sink, E: Sink>(
    alloc: Global,
    limit: Limit,
    fuse: Option<u32>,
    input: &mut R,
    out: &mut W,
    faults: &mut E,
) -> Exit
    // The store got at most four calls a done number, and four for the failed one.
    ensures did { (did : Outcome) × (did.exit ≡ result) × IsReplay limit fuse (R.left input.old) did
        × (R.failures input.new ≡ failures_if did.reads_all (R.failures input.old))
        × HasWritten W.Sink E.Sink did out.old out.new faults.old faults.new }
    ensures within { Of (R.left input.old) (λ xs. IsReadAhead xs (R.left input.new)) }
    ensures most { R.moved input.new ≤ R.moved input.old + (longest_input + 1) }
{
    match play(alloc, limit, fuse, input, out) {
        Ok(()) => Exit::Done,
        Err(fault) => give_up(faults, &fault),
    }
}

/// Runs each line of the input over a store whose call of this number fails, if there is one, and
/// writes the run's text.
fn play<R: Source, W: Sink>(
    alloc: Global,
    limit: Limit,
    fuse: Option<u32>,
    input: &mut R,
    out: &mut W,
) -> Result<(), Fault>
    ensures within { Of (R.left input.old) (λ xs. IsReadAhead xs (R.left input.new)) }
    ensures most { R.moved input.new ≤ R.moved input.old + (longest_input + 1) }
    ensures count { R.failures input.new ≡ failures_if (is_read result) (R.failures input.old) }
    ensures prints { (print : Print) × IsPrintOf limit fuse (R.left input.old) result print
        × IsPrint W.Sink print out.old out.new }
{
    let inputs = exchanges(alloc, input)?;
    let text = run_text(alloc, limit, fuse, inputs.as_slice())?;
    match print(out, text.as_slice()) {
        Ok(()) => Ok(()),
        Err(_) => Err(Fault::Unwritable),
    }
}

/// The text of the inputs' run over an empty store whose call of this number fails, if there is
/// one, and no other.
fn run_text(
    alloc: Global,
    limit: Limit,
    fuse: Option<u32>,
    inputs: &[Vec<u8>],
) -> Result<Vec<u8>, AllocError>
    requires { All (λ x. length x.items ≤ longest_input) inputs.now }
    ensures { IfOk result (λ text.
        IsRunText limit fuse (map (λ x. x.items) inputs.now) text.items) }
{
    let store = ReplayStore::new(alloc, fuse)?;
    let Ok(run) = ingest_run(alloc, store, limit, inputs) else {
        return Err(AllocError);
    };
    // No clause of a store's calls says that they keep its fuse, nor that there is memory for them.
    if !run.store.kept_to(fuse) {
        return Err(AllocError);
    }
    let (replies, ends) = (run.replies.as_slice(), run.ends.as_slice());
    text_of_run(alloc, replies, ends, run.store.files())
}
