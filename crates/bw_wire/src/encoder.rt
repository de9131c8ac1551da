//! From a message or an ask to its frame.
ghost use Rattle.std.specs.Prelude.{◌≡◌, ◌≤◌, ◌+◌, ◌++◌, IsTrue, IfOk, IsOk, OnOk, OnErr, length};
ghost use Rattle.std.specs.Prelude.{vec_len, vec_capacity};
ghost use Rattle.bw_model.specs.Bytes.{le32};
ghost use Rattle.bw_model.specs.Limits.{longest_block};
ghost use Rattle.bw_model.specs.Wire.{Second, last_number, Asks, kind as kind_in};
ghost use Rattle.bw_model.specs.Wire.{payload as payload_in, addressed, is_name, is_request};
ghost use Rattle.bw_model.specs.Requests.{meaning};
ghost use Rattle.bw_wire.specs.EncodedFrames.{IsFrameOf, said};

use crate::payload::{ASK, BLOCK, CLOSE, MARK, OPEN, SET_FIELD};
use bw_model::{Name, RequestRef};
use std::alloc::{AllocError, Global};

/// The frame of a message, with a number of at most 16,777,215 and a request that fits.
///
/// # Errors
/// `AllocError` if memory was refused.
///
/// # Not specified
/// - When memory is refused.
/// - How much room the frame's block has beyond its bytes.
pub fn encode(
    alloc: Global,
    name: &Name,
    number: u32,
    request: &RequestRef<'_>,
) -> Result<Vec<u8>, AllocError>
    requires number { number ≤ last_number Second }
    requires fits { IsTrue (is_request (meaning request.now)) }
    ensures { IfOk result (λ v. IsFrameOf (said name.now number (meaning request.now)) v.items) }
{
    let mut out = begin(alloc, kind(request), name, number, payload_len(request))?;
    put_payload(&mut out, request)?;
    Ok(out)
}

/// The frame of an ask, with a number of at most 16,777,215. The reply repeats the number.
///
/// # Errors
/// `AllocError` if memory was refused.
///
/// # Not specified
/// - When memory is refused.
/// - How much room the frame's block has beyond its bytes.
pub fn encode_ask(alloc: Global, name: &Name, number: u32) -> Result<Vec<u8>, AllocError>
    requires { number ≤ last_number Second }
    ensures { IfOk result (λ v. IsFrameOf (Asks name.now number) v.items) }
{
    begin(alloc, ASK, name, number, 0)
}

/// A frame up to its payload, which will have this many bytes, with room for all of it.
fn begin(
    alloc: Global,
    kind: u8,
    name: &Name,
    number: u32,
    payload_len: usize,
) -> Result<Vec<u8>, AllocError>
    requires { payload_len ≤ longest_block }
    ensures items { IfOk result (λ v. v.items ≡
        le32 (6 + length name.now + payload_len) ++ addressed kind name.now number) }
    ensures named { OnOk result (IsTrue (is_name name.now)) }
{
    let bytes = name.as_bytes();
    let len = 6 + bytes.len() + payload_len;
    let mut out = Vec::with_capacity(alloc, 4 + len)?;
    out.extend_from_slice(&(len as u32).to_le_bytes())?;
    out.extend_from_slice(&[kind, bytes.len() as u8])?;
    out.extend_from_slice(bytes)?;
    out.extend_from_slice(&number.to_le_bytes())?;
    Ok(out)
}

/// The byte that a message of this request has for its kind.
pub fn kind(request: &RequestRef<'_>) -> u8
    ensures { result ≡ kind_in (meaning request.now) }
{
    match request {
        RequestRef::OpenTake { .. } => OPEN,
        RequestRef::Block { .. } => BLOCK,
        RequestRef::Mark { .. } => MARK,
        RequestRef::SetField { .. } => SET_FIELD,
        RequestRef::CloseTake { .. } => CLOSE,
    }
}

fn payload_len(request: &RequestRef<'_>) -> usize
    requires { IsTrue (is_request (meaning request.now)) }
    ensures value { result ≡ length (payload_in (meaning request.now)) }
    ensures range { result ≤ longest_block }
{
    match request {
        RequestRef::OpenTake { history, .. } => 10 + history.len(),
        RequestRef::Block { bytes } => bytes.len(),
        RequestRef::Mark { .. } | RequestRef::CloseTake { .. } => 8,
        RequestRef::SetField { value, .. } => 1 + value.len(),
    }
}

/// Appends a request's payload: what follows the number in its frame.
///
/// # Errors
/// `AllocError` if memory was refused, never if there is room: the bytes are as they were.
///
/// # Not specified
/// When memory is refused, and how much room is made beyond what is needed.
pub fn put_payload(out: &mut Vec<u8>, request: &RequestRef<'_>) -> Result<(), AllocError>
    requires { IsTrue (is_request (meaning request.now)) }
    ensures ok { OnOk result (out.new.items ≡ out.old.items ++ payload_in (meaning request.now)) }
    ensures len { OnOk result (vec_len out.new
        ≡ vec_len out.old + length (payload_in (meaning request.now))) }
    ensures err { OnErr result (out.new.items ≡ out.old.items) }
    ensures capacity { vec_capacity out.old ≤ vec_capacity out.new }
    ensures enough { vec_len out.old + length (payload_in (meaning request.now))
        ≤ vec_capacity out.old → IsOk result }
{
    out.reserve(payload_len(request))?;
    push_payload(out, request);
    Ok(())
}

/// Appends a request's payload; there is room for it.
fn push_payload(out: &mut Vec<u8>, request: &RequestRef<'_>)
    requires fits { IsTrue (is_request (meaning request.now)) }
    requires room { vec_len out.old + length (payload_in (meaning request.now))
        ≤ vec_capacity out.old }
    ensures items { out.new.items ≡ out.old.items ++ payload_in (meaning request.now) }
    ensures len { vec_len out.new ≡ vec_len out.old + length (payload_in (meaning request.now)) }
    ensures capacity { vec_capacity out.old ≤ vec_capacity out.new }
{
    match *request {
        RequestRef::OpenTake {
            rate,
            channels,
            bits,
            history,
        } => {
            push(out, &rate.to_le_bytes());
            push(out, &channels.to_le_bytes());
            push(out, &bits.to_le_bytes());
            push(out, &(history.len() as u16).to_le_bytes());
            push(out, history);
        }
        RequestRef::Block { bytes } => push(out, bytes),
        RequestRef::Mark { id, frame } => {
            push(out, &id.to_le_bytes());
            push(out, &frame.to_le_bytes());
        }
        RequestRef::SetField { tag, value } => {
            push(out, &[tag]);
            push(out, value);
        }
        RequestRef::CloseTake { frames } => push(out, &frames.to_le_bytes()),
    }
}

/// Appends bytes; there is room for them.
fn push(out: &mut Vec<u8>, bytes: &[u8])
    requires { vec_len out.old + length bytes.now ≤ vec_capacity out.old }
    ensures items { out.new.items ≡ out.old.items ++ bytes.now }
    ensures len { vec_len out.new ≡ vec_len out.old + length bytes.now }
    ensures capacity { vec_capacity out.old ≤ vec_capacity out.new }
{
    out.extend_from_slice(bytes).unwrap();
}
