//! A reader that can't be opened again, such as standard input.
ghost use Rattle.std.specs.Prelude.{◌≡◌, false};
ghost use Rattle.bw_stream.specs.Readers.{Of};
ghost use Rattle.bw_console.specs.Outcomes.{HasWritten, Outcome};
ghost use Rattle.bw_console.specs.Prints.{failures_if};
ghost use Rattle.bw_report.specs.FileFindings.{IsFoundInBytes};
ghost use Rattle.bw_report.specs.Inputs.{IsEntryOf, WasOpened, is_read_by};

use crate::entry::{Style, Wanted, print_entry};
use crate::exits::worse;
use crate::found::Found;
use bw_console::Exit;
use bw_console::print::give_up;
use bw_inspect::inspect;
use bw_stream::{Sink, Source};
use std::alloc::Global;

/// Reports what is in a reader, as of a file of this name that has its bytes, without a line for
/// the name: an entry, also where it has a fault.
///
/// It ends with `Done`, `Refused` for a fault of the bytes, `Device` if a read or a write failed,
/// `Memory` if memory was refused. A failure to write to `faults` is ignored.
///
/// # Not specified
/// - When memory is refused.
/// - How much is read or passed over.
pub fn inspect_input<R: Source, W: Sink, E: Sink>(
    alloc: Global,
    input: &mut R,
    name: &str,
    style: Style,
    out: &mut W,
    faults: &mut E,
) -> Exit
    // The entry has no digest, and nothing of what the chunks say.
    ensures { (did : Outcome) × (did.exit ≡ result)
        × IsEntryOf (R.left input.old) style name.now did
        × (R.failures input.new ≡ failures_if did.reads_all (R.failures input.old))
        × HasWritten W.Sink E.Sink did out.old out.new faults.old faults.new }
{
    let wanted = Wanted {
        style,
        named: false,
        digest: false,
    };
    let found = look_at_input(alloc, input);
    match print_entry(alloc, wanted, name, &found, out) {
        Ok(()) => found.exit(),
        Err(fault) => worse(found.exit(), give_up(faults, &fault)),
    }
}

/// Looks at what a reader has.
fn look_at_input<R: Source>(alloc: Global, input: &mut R) -> Found
    ensures right { Of (R.left input.old) (λ b. IsFoundInBytes b false false result) }
    ensures opened { WasOpened result }
    ensures count { R.failures input.new ≡ failures_if (is_read_by result) (R.failures input.old) }
{
    match inspect(alloc, input) {
        Ok(report) => Found::Read {
            report,
            digest: None,
            contents: None,
        },
        Err(fault) => Found::Faulty(fault),
    }
}
