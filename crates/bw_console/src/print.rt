//! Texts to a writer.
ghost use Rattle.std.specs.Prelude.{◌≡◌, OnOk, OnErr};
ghost use Rattle.bw_console.specs.Faults.{exit_on, input_fault_text};
ghost use Rattle.bw_console.specs.Outcomes.{HasWritten, Outcome, PrintsText};
ghost use Rattle.bw_console.specs.Prints.{HasPrinted, HasStopped, IsOf, IsPrint, Print};
ghost use Rattle.bw_console.specs.Text.{as_line};

use crate::exit::Exit;
use crate::fault::Fault;
use bw_stream::{IoFailed, Sink, write_all};

/// Writes the whole text, and flushes the writer.
///
/// # Errors
/// `IoFailed` if the writer failed: it has a prefix of the text, which may be all of it if the
/// flush failed.
///
/// # Not specified
/// After an error, how many bytes were written, if the writer doesn't report them.
pub fn print<W: Sink>(out: &mut W, text: &[u8]) -> Result<(), IoFailed>
    ensures ok { OnOk result (HasPrinted W.Sink text.now out.old out.new) }
    ensures err { OnErr result (HasStopped W.Sink text.now out.old out.new) }
{
    write_all(out, text)?;
    out.flush()
}

/// Writes the text of a fault. A failure to write it is ignored.
///
/// # Not specified
/// Whether the text was written: only the writer's count of failures shows it.
pub fn print_diagnostic<E: Sink>(faults: &mut E, text: &[u8])
    ensures { (print : Print) × IsOf text.now print × IsPrint E.Sink print faults.old faults.new }
{
    let _ = print(faults, text);
}

/// Writes the line of a fault, and returns how the program ends after it.
///
/// # Not specified
/// From the result, whether the text was written: only the writer's count of failures shows it.
pub fn give_up<E: Sink>(faults: &mut E, fault: &Fault) -> Exit
    ensures exit { result ≡ exit_on fault.now }
    ensures line { (print : Print) × IsOf (as_line (input_fault_text fault.now)) print
        × IsPrint E.Sink print faults.old faults.new }
{
    print_diagnostic(faults, fault.line().as_str().as_bytes());
    fault.exit()
}

/// Prints a text that is all a command prints. Returns how the command ends: `Done`, or `Device` if
/// the writer failed, which is reported.
///
/// # Not specified
/// What `print` and `give_up` leave open.
pub fn print_text<W: Sink, E: Sink>(text: &[u8], out: &mut W, faults: &mut E) -> Exit
    ensures { (did : Outcome) × (did.exit ≡ result) × PrintsText text.now did
        × HasWritten W.Sink E.Sink did out.old out.new faults.old faults.new }
{
    match print(out, text) {
        Ok(()) => Exit::Done,
        Err(_) => give_up(faults, &Fault::Unwritable),
    }
}
