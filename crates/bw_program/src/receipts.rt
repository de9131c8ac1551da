//! The receipt of a recording that was sent, as a command line asks for it.
ghost use Rattle.std.specs.Prelude.{◌≡◌};
ghost use Rattle.std.specs.Net.Text.{socket_text};
ghost use Rattle.bw_program.specs.ReceiptCommands.{IsReceiptOf};
ghost use Rattle.bw_program.specs.Requests.{ByUpload, RecordingWithReceipt};

use crate::behavior::Behavior;
use crate::outside::{Environment, Outside, ProgressObservers};
use crate::sources::send_file_there;
use bw_args::{FileSender, ReceiptTarget};
use bw_console::print::give_up;
use bw_console::{Exit, Fault};
use bw_ports::ReceiptKeeping;
use bw_report::{ReceiptJob, begin_receipts, put_receipt};
use std::alloc::Global;

/// Sends the recording that the command line names, and puts its receipt once all is stored. The file
/// of receipts is opened first, so that nothing is sent where it can't be.
pub(crate) fn send_with_receipt<X: Environment>(
    alloc: Global,
    sender: &FileSender,
    target: &ReceiptTarget,
    outside: &mut Outside<X>,
    observers: &mut ProgressObservers<X>,
) -> Exit
    ensures { ⟦<Outside<X> as Behavior>⟧.does (ByUpload (RecordingWithReceipt target.now sender.now))
        result outside.old outside.new }
{
    let Ok(address) = sender.connect.to_string(alloc) else {
        return give_up(&mut outside.faults, &Fault::Memory);
    };
    let mut receipts = outside.files.receipts();
    let to = target.path.as_str();
    let file = match begin_receipts(alloc, &mut receipts, to, &mut outside.faults) {
        Ok(file) => file,
        Err(exit) => return exit,
    };
    match send_file_there(alloc, sender, outside, observers) {
        Exit::Done => {
            let job = job_of(sender, target, address.as_str());
            let Outside {
                files,
                out,
                faults,
                ..
            } = outside;
            put_receipt(alloc, &job, files, &mut receipts, file, out, faults)
        }
        exit => exit,
    }
}

/// The receipt that the command line asks for, where the server has this address.
fn job_of<'a>(sender: &'a FileSender, target: &'a ReceiptTarget, address: &'a str) -> ReceiptJob<'a>
    ensures { address.now ≡ socket_text sender.now.connect →
        IsReceiptOf sender.now target.now result }
{
    ReceiptJob {
        name: &sender.name,
        source: sender.source.path.as_str(),
        address,
        to: target.path.as_str(),
        json: target.json,
    }
}
