//! The end of an upload is reported.
ghost use Rattle.std.specs.Prelude.{◌≡◌, ◌≤◌, ◌++◌, length, decimal};
ghost use Rattle.bw_console.specs.Outcomes.{HasWritten, Outcome as Did};
ghost use Rattle.bw_console.specs.Prints.{IsOf, IsPrint, Print};
ghost use Rattle.bw_console.specs.Text.{as_line};
ghost use Rattle.bw_model.specs.World.{Sender as Defined};
ghost use Rattle.bw_sender.specs.Senders.{IsSender};
ghost use Rattle.bw_send_file.specs.Endings.{EndsAfter, IsFileReport, IsOutcomeReport};
ghost use Rattle.bw_send_file.specs.Endings.{unread_line as defined_unread_line};

use crate::fault::FeedFault;
use arrayvec::ArrayString;
use bw_console::print::{give_up, print, print_diagnostic};
use bw_console::{Exit, Fault, report_unopened};
use bw_inspect::InspectFault;
use bw_recorder::{OpenFault, report_open_fault};
use bw_stream::Sink;
use bw_upload::{Outcome, Uploaded, text_of_sender};
use itoa::Buffer;
use std::alloc::Global;

/// Prints how many requests are settled and stored, and which are refused, and reports how the
/// upload of the file at a path ended. Returns how the command ends.
pub(crate) fn report_end<W: Sink, E: Sink>(
    alloc: Global,
    path: &str,
    uploaded: &Uploaded<FeedFault>,
    out: &mut W,
    faults: &mut E,
) -> Exit
    ensures { (s : Defined) → IsSender s uploaded.now.sender → (did : Did) × (did.exit ≡ result)
        × EndsAfter path.now s uploaded.now.outcome did
        × HasWritten W.Sink E.Sink did out.old out.new faults.old faults.new }
{
    let Ok(text) = text_of_sender(alloc, &uploaded.sender) else {
        return give_up(faults, &Fault::Memory);
    };
    match print(out, text.as_slice()) {
        Ok(()) => report_outcome(alloc, path, &uploaded.outcome, faults),
        Err(_) => give_up(faults, &Fault::Unwritable),
    }
}

/// Reports an outcome, unless all is stored or a request was refused. Returns how the command ends.
fn report_outcome<E: Sink>(
    alloc: Global,
    path: &str,
    outcome: &Outcome<FeedFault>,
    faults: &mut E,
) -> Exit
    ensures { (print : Print) × IsOutcomeReport path.now outcome.now result print
        × IsPrint E.Sink print faults.old faults.new }
{
    match outcome {
        Outcome::Done => Exit::Done,
        Outcome::Refused(_number, _verdict) => Exit::Refused,
        Outcome::Conflict(number) => {
            let line = numbered(CONFLICT, *number, OTHER_NAME);
            end_by(line.as_str().as_bytes(), Exit::Refused, faults)
        }
        Outcome::TooFar(number) => {
            let line = numbered(TOO_FAR, *number, LOST_TAKE);
            end_by(line.as_str().as_bytes(), Exit::Refused, faults)
        }
        Outcome::NotOffered(_error) => end_by(NOT_OFFERED, Exit::Refused, faults),
        Outcome::Fruitless => end_by(FRUITLESS, Exit::Device, faults),
        Outcome::Feed(fault) => report_file_fault(alloc, path, fault, faults),
        Outcome::Memory => give_up(faults, &Fault::Memory),
        Outcome::Limit => end_by(LIMIT, Exit::Device, faults),
    }
}

const CONFLICT: &str = "Conflict: another request was sent under number ";

const OTHER_NAME: &str =
    "hint: another recording has this name: use another, or give that one up: bwingest takes --folder DIR --give-up NAME\n";

const TOO_FAR: &str = "TooFar: the server lacks requests before number ";

const LOST_TAKE: &str =
    "hint: the server hasn't the take any more: send it again under another name\n";

const NOT_OFFERED: &[u8] = b"NotOffered: the sender takes no more requests\n";

const FRUITLESS: &[u8] = b"Fruitless: as many links in a row as are allowed settled nothing\n";

const LIMIT: &[u8] = b"Limit: no more links are made\n";

const CHANGED: &[u8] = b"Changed: the file isn't any more what it was\n";

const UNSENDABLE: &[u8] = b"Unsendable: no message carries the next request\n";

/// Reports why the file at a path gives no more requests. Returns how the command ends: `Refused` for
/// Changed, Unsendable and a fault of the recording; `Device` if the system failed; `Memory` if memory
/// was refused. A failure to write the line is ignored.
pub fn report_file_fault<E: Sink>(
    alloc: Global,
    path: &str,
    fault: &FeedFault,
    faults: &mut E,
) -> Exit
    ensures { (print : Print) × IsFileReport path.now fault.now result print
        × IsPrint E.Sink print faults.old faults.new }
{
    match fault {
        FeedFault::Unread(fault) => {
            let line = unread_line(fault);
            end_by(line.as_str().as_bytes(), Exit::Device, faults)
        }
        FeedFault::Unstamped(error) => report_unopened(alloc, path, error, faults),
        FeedFault::Refused(fault) => {
            let fault = OpenFault::Refused(*fault);
            report_open_fault(alloc, "send", path, &fault, faults)
        }
        FeedFault::Changed => end_by(CHANGED, Exit::Refused, faults),
        FeedFault::Unsendable => end_by(UNSENDABLE, Exit::Refused, faults),
        FeedFault::Memory => give_up(faults, &Fault::Memory),
    }
}

/// The line of a read that failed. It has no hint: the file was opened, or it is the path that says
/// that a recording has ended which can't be looked for.
fn unread_line(fault: &InspectFault) -> ArrayString<64>
    ensures { result.bytes ≡ defined_unread_line fault.now }
{
    let mut digits = Buffer::new();
    let mut line = ArrayString::new();
    line.push_str("send: ");
    line.push_str(fault.kind.name());
    line.push_str(" at ");
    line.push_str(digits.format(fault.offset));
    line.push_str("\n");
    line
}

/// Reports a line. Returns how the command ends.
fn end_by<E: Sink>(line: &[u8], exit: Exit, faults: &mut E) -> Exit
    ensures exit { result ≡ exit }
    ensures line { (print : Print) × IsOf line.now print × IsPrint E.Sink print faults.old faults.new }
{
    print_diagnostic(faults, line);
    exit
}

/// A line with a number at its end, and the line of a hint below it.
fn numbered(words: &str, number: u32, hint: &str) -> ArrayString<256>
    requires words { length words.now ≤ 64 }
    requires hint { length hint.now ≤ 128 }
    ensures { result.bytes ≡ as_line (words.now ++ decimal number) ++ hint.now }
{
    let mut line = ArrayString::new();
    line.push_str(words);
    line.push_str(Buffer::new().format(number));
    line.push_str("\n");
    line.push_str(hint);
    line
}
