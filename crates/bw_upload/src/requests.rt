//! The lines of an input as requests.
ghost use Rattle.std.specs.Prelude.{◌≡◌, ◌≢◌, ℕ, ◌+◌, ◌≤◌, length, IfOk, IfErr};
ghost use Rattle.bw_stream.specs.Readers.{Of};
ghost use Rattle.bw_console.specs.Faults.{is_read};
ghost use Rattle.bw_console.specs.Input.{longest_input, IsReadAhead};
ghost use Rattle.bw_console.specs.Lines.{lines_of};
ghost use Rattle.bw_console.specs.Prints.{failures_if};
ghost use Rattle.bw_upload.specs.RequestLines.{AreRequestsOf, IsRequestFault, RefusesRequests};
ghost use Rattle.bw_upload.specs.RequestLines.{SayRequests};

use bw_console::{Fault, all_bytes, first_line};
use bw_model::Request;
use bw_stream::Source;
use bw_wire::request_from_hex;
use std::alloc::Global;

/// The requests in the lines of the input, each in hex.
pub(crate) fn read_requests<R: Source>(alloc: Global, input: &mut R) -> Result<Vec<Request>, Fault>
    ensures within { Of (R.left input.old) (λ xs. IsReadAhead xs (R.left input.new)) }
    ensures most { R.moved input.new ≤ R.moved input.old + (longest_input + 1) }
    ensures count { R.failures input.new ≡ failures_if (is_read result) (R.failures input.old) }
    ensures ok { IfOk result (λ found. Of (R.left input.old) (λ xs. AreRequestsOf xs found.items)) }
    ensures err { IfErr result (λ fault. Of (R.left input.old) (λ xs. RefusesRequests fault xs)) }
    ensures own { IfErr result (λ fault. fault ≢ Fault.Unwritable) }
{
    let bytes = all_bytes(alloc, input)?;
    requests(alloc, bytes.as_slice())
}

/// The requests in the lines of an input.
fn requests(alloc: Global, input: &[u8]) -> Result<Vec<Request>, Fault>
    requires { length input.now ≤ longest_input }
    ensures ok { IfOk result (λ found. SayRequests (lines_of input.now) found.items) }
    ensures err { IfErr result (λ fault. IsRequestFault fault (lines_of input.now)) }
{
    let mut found = Vec::new(alloc);
    let mut rest = input;
    let mut number = 1;
    while !rest.is_empty() {
        let (line, others) = first_line(rest);
        let Some(request) = request_from_hex(alloc, line)? else {
            return Err(Fault::NotRequest(number));
        };
        let Ok(()) = found.push(request) else {
            return Err(Fault::Memory);
        };
        rest = others;
        number += 1;
    }
    Ok(found)
}
