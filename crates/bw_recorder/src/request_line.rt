//! Requests as lines of hex.
ghost use Rattle.std.specs.Prelude.{◌≡◌, ◌∷◌, ◌++◌, [], length, IfOk, OnOk, IsTrue};
ghost use Rattle.bw_console.specs.Text.{as_line};
ghost use Rattle.bw_model.specs.Wire.{is_request, kind as kind_of_request, payload};
ghost use Rattle.bw_model.specs.Requests.{meaning};
ghost use Rattle.bw_recorder.specs.RequestLines.{LinesAreRead, request_hex};

use bw_model::RequestRef;
use bw_wire::{kind, put_payload};
use std::alloc::{AllocError, Global};

/// What is printed of a request is read as that request.
pub fn law_request_lines()
    ensures { LinesAreRead }
{}

/// The line of a request that a message may carry: its kind byte and its payload in hex.
///
/// # Errors
/// `AllocError` where memory was refused.
pub(crate) fn line_of_request(
    alloc: Global,
    request: &RequestRef<'_>,
) -> Result<Vec<u8>, AllocError>
    requires { IsTrue (is_request (meaning request.now)) }
    ensures { IfOk result (λ v. v.items ≡ as_line (request_hex (meaning request.now))) }
{
    let bytes = body(alloc, request)?;
    let text = hex::encode(alloc, bytes.as_slice())?;
    let mut line = Vec::new(alloc);
    line.extend_from_slice(text.as_str().as_bytes())?;
    line.extend_from_slice(b"\n")?;
    Ok(line)
}

/// A request's kind byte and its payload.
///
/// # Errors
/// `AllocError` where memory was refused.
fn body(alloc: Global, request: &RequestRef<'_>) -> Result<Vec<u8>, AllocError>
    requires { IsTrue (is_request (meaning request.now)) }
    ensures { IfOk result (λ v. v.items
        ≡ kind_of_request (meaning request.now) ∷ payload (meaning request.now)) }
{
    let mut out = Vec::new(alloc);
    out.push(kind(request))?;
    put_payload(&mut out, request)?;
    Ok(out)
}
