//! A response: its head and its body.
ghost use Rattle.std.specs.Prelude.{◌≡◌, ◌++◌, IfOk, OnOk};
ghost use Rattle.bw_status.specs.Responses.{field_text, fields_text, response_head};
ghost use Rattle.bw_status.specs.Responses.{response_text, sent_body};

use crate::answer::{Answer, ResponsePart};
use crate::body::{put_body, response_status, type_of};
use crate::page_text::PAGE_POLICY;
use crate::snapshot::Snapshot;
use crate::text::{put_number, put_text};
use std::alloc::{AllocError, Global};

/// The response with this answer: its head, and its body unless the head alone is sent. The
/// connection is to be closed after it.
///
/// # Errors
/// `AllocError` if memory was refused.
///
/// # Not specified
/// When memory is refused.
pub fn response(alloc: Global, answer: Answer, snapshot: &Snapshot) -> Result<Vec<u8>, AllocError>
    // Each text in the page that isn't a constant is escaped.
    ensures { IfOk result (λ bytes. bytes.items ≡ response_text answer snapshot.now) }
{
    let mut body = Vec::new(alloc);
    put_body(alloc, &mut body, answer.content, snapshot)?;
    let status = response_status(answer.content, snapshot.health);
    let mut out = Vec::new(alloc);
    put_head(&mut out, status, type_of(answer.content), body.len() as u64)?;
    put_part(&mut out, answer.part, body.as_slice())?;
    Ok(out)
}

/// Appends as much of the body as is sent.
fn put_part(out: &mut Vec<u8>, part: ResponsePart, body: &[u8]) -> Result<(), AllocError>
    ensures { OnOk result (out.new.items ≡ out.old.items ++ sent_body part body.now) }
{
    match part {
        ResponsePart::Whole => out.extend_from_slice(body),
        ResponsePart::Head => out.extend_from_slice(b""),
    }
}

/// Appends the head of a response with a body of so many bytes.
#[tactic(auto, using(std::proofs::lemmas::List::append_assoc))]
fn put_head(out: &mut Vec<u8>, status: &str, kind: &str, length: u64) -> Result<(), AllocError>
    ensures { OnOk result (out.new.items ≡ out.old.items ++ response_head status.now kind.now length) }
{
    put_field(out, "HTTP/1.1 ", status)?;
    put_field(out, "Content-Type: ", kind)?;
    put_text(out, "Content-Length: ")?;
    put_number(out, length)?;
    put_text(out, "\r\n")?;
    put_fields(out)
}

/// Appends a field of the head.
#[tactic(auto, using(std::proofs::lemmas::List::append_assoc), unfolding(crate::specs::Responses::field_text))]
fn put_field(out: &mut Vec<u8>, start: &str, value: &str) -> Result<(), AllocError>
    ensures { OnOk result (out.new.items ≡ out.old.items ++ field_text start.now value.now) }
{
    out.extend_from_slice(start.as_bytes())?;
    out.extend_from_slice(value.as_bytes())?;
    out.extend_from_slice(b"\r\n")
}

/// Appends the fields that every response has, and the empty line after them.
#[tactic(auto, using(std::proofs::lemmas::List::append_assoc))]
fn put_fields(out: &mut Vec<u8>) -> Result<(), AllocError>
    ensures { OnOk result (out.new.items ≡ out.old.items ++ fields_text) }
{
    put_field(out, "Content-Security-Policy: ", PAGE_POLICY)?;
    put_field(out, "X-Content-Type-Options: ", "nosniff")?;
    put_field(out, "X-Frame-Options: ", "DENY")?;
    put_field(out, "Referrer-Policy: ", "no-referrer")?;
    put_field(out, "Cache-Control: ", "no-store")?;
    put_field(out, "Allow: ", "GET, HEAD")?;
    put_field(out, "Connection: ", "close")?;
    put_text(out, "\r\n")
}
