//! From a body to the frame that it spells.
ghost use Rattle.std.specs.Prelude.{◌≡◌, ◌==◌, if◌then◌else◌, IfOk, length};
ghost use Rattle.std.specs.Option.{option_map};
ghost use Rattle.bw_model.specs.Bytes.{first_that_holds};
ghost use Rattle.bw_model.specs.Wire.{Second, decoded, decoded_request, body_faults};
ghost use Rattle.bw_wire.specs.Frames.{frame_read, request_read, Borrows};
ghost use Rattle.bw_wire.specs.Reasons.{reason_meaning};

use crate::address::{has_name, has_number, payload};
use crate::message::{Ask, Frame, Message};
use crate::payload::{ASK, BYE, OPEN, is_payload, request_of};
use crate::reason::Reason;
use bw_model::RequestRef;

/// The frame that a body spells. It borrows its bytes from the body.
///
/// # Errors
/// The first reason that holds of `Kind`, `Name`, `Number` and `Payload`.
pub fn decode(body: &[u8]) -> Result<Frame<'_>, Reason>
    ensures exact { frame_read result ≡ decoded Second body.now }
    ensures borrows { IfOk result (λ f. Borrows f body.now) }
{
    let [kind, rest @ ..] = body else {
        return Err(Reason::Kind);
    };
    if *kind == BYE {
        return bye(rest);
    }
    if let Some(reason) = fault(*kind, rest) {
        return Err(reason);
    }
    if *kind == ASK {
        return Ok(Frame::Ask(Ask { body }));
    }
    Ok(Frame::Message(Message { body, digest: None }))
}

/// The request that a kind byte and a payload spell. It borrows its bytes.
///
/// # Errors
/// `Kind` if no request has this kind, else `Payload` if the rest is no payload of this kind.
pub fn decode_request(bytes: &[u8]) -> Result<RequestRef<'_>, Reason>
    ensures { request_read result ≡ decoded_request bytes.now }
{
    let Some((kind, rest)) = bytes.split_first() else {
        return Err(Reason::Kind);
    };
    if *kind < OPEN || *kind >= ASK {
        return Err(Reason::Kind);
    }
    if !is_payload(*kind, rest) {
        return Err(Reason::Payload);
    }
    Ok(request_of(*kind, rest))
}

/// The first reason why the bytes after a kind byte spell no message or ask of this kind.
fn fault(kind: u8, rest: &[u8]) -> Option<Reason>
    ensures { option_map reason_meaning result ≡ first_that_holds (body_faults Second kind rest.now) }
{
    if kind < OPEN || kind > ASK {
        return Some(Reason::Kind);
    }
    if !has_name(rest) {
        return Some(Reason::Name);
    }
    if !has_number(rest) {
        return Some(Reason::Number);
    }
    if !is_payload(kind, payload(rest)) {
        return Some(Reason::Payload);
    }
    None
}

/// The end of the exchange, whose body is its kind byte alone.
fn bye(rest: &[u8]) -> Result<Frame<'_>, Reason>
    ensures { result ≡ (if length rest.now == 0 then Ok Frame.Bye else Err Reason.Payload) }
{
    if rest.is_empty() {
        Ok(Frame::Bye)
    } else {
        Err(Reason::Payload)
    }
}
