//! Frames of a sender, up to the bytes that a request carries.
ghost use Rattle.std.specs.Prelude.{◌≡◌, ◌≤◌, ◌<◌, ◌+◌, ◌++◌, length, IsTrue};
ghost use Rattle.bw_model.specs.Limits.{longest_block};
ghost use Rattle.bw_model.specs.Wire.{Second, last_number, Asks, Bye, payload, is_request, is_name};
ghost use Rattle.bw_model.specs.Wire.{addressed};
ghost use Rattle.bw_model.specs.Bytes.{le32};
ghost use Rattle.bw_model.specs.Requests.{meaning, carried_bytes};
ghost use Rattle.bw_wire.specs.EncodedFrames.{IsFrameOf, said};

use arrayvec::ArrayVec;
use bw_model::{Name, RequestRef};
use bw_wire::kind;

/// The byte of an ask.
const ASK: u8 = 6;

/// The head of a message's frame.
pub(crate) fn head_of(name: &Name, number: u32, request: &RequestRef<'_>) -> ArrayVec<u8, 52>
    requires number { number ≤ last_number Second }
    requires fits { IsTrue (is_request (meaning request.now)) }
    ensures frame { IsFrameOf (said name.now number (meaning request.now))
        (result.items ++ carried_bytes (meaning request.now)) }
    ensures some { 0 < length result.items }
{
    let mut head = address(kind(request), name, number, payload_len(request));
    push_numbers(&mut head, request);
    head
}

/// The frame of an ask, whose reply repeats the number 0.
pub(crate) fn ask_of(name: &Name) -> ArrayVec<u8, 52>
    ensures frame { IsFrameOf (Asks name.now 0) result.items }
    ensures some { 0 < length result.items }
{
    address(ASK, name, 0, 0)
}

/// The frame that ends an exchange.
pub(crate) fn bye_of() -> ArrayVec<u8, 52>
    ensures frame { IsFrameOf Bye result.items }
    ensures some { 0 < length result.items }
{
    let mut frame = ArrayVec::new();
    frame.try_extend_from_slice(&[1, 0, 0, 0, 9]).unwrap();
    frame
}

/// A frame up to its payload, which will have this many bytes.
fn address(kind: u8, name: &Name, number: u32, payload_len: usize) -> ArrayVec<u8, 52>
    requires { payload_len ≤ longest_block }
    ensures items { result.items ≡
        le32 (6 + length name.now + payload_len) ++ addressed kind name.now number }
    ensures named { IsTrue (is_name name.now) }
    ensures len { length result.items ≡ 10 + length name.now }
    ensures short { length name.now ≤ 32 }
{
    let bytes = name.as_bytes();
    let len = 6 + bytes.len() + payload_len;
    let mut head = ArrayVec::new();
    head.try_extend_from_slice(&(len as u32).to_le_bytes())
        .unwrap();
    head.try_extend_from_slice(&[kind, bytes.len() as u8])
        .unwrap();
    head.try_extend_from_slice(bytes).unwrap();
    head.try_extend_from_slice(&number.to_le_bytes()).unwrap();
    head
}

fn payload_len(request: &RequestRef<'_>) -> usize
    requires { IsTrue (is_request (meaning request.now)) }
    ensures value { result ≡ length (payload (meaning request.now)) }
    ensures range { result ≤ longest_block }
{
    match request {
        RequestRef::OpenTake { history, .. } => 10 + history.len(),
        RequestRef::Block { bytes } => bytes.len(),
        RequestRef::Mark { .. } | RequestRef::CloseTake { .. } => 8,
        RequestRef::SetField { value, .. } => 1 + value.len(),
    }
}

/// Appends the numbers of a payload, which come before the bytes that it carries.
fn push_numbers(head: &mut ArrayVec<u8, 52>, request: &RequestRef<'_>)
    requires fits { IsTrue (is_request (meaning request.now)) }
    requires room { length head.old.items ≤ 42 }
    ensures payload { head.new.items ++ carried_bytes (meaning request.now)
        ≡ head.old.items ++ payload (meaning request.now) }
    ensures longer { length head.old.items ≤ length head.new.items }
{
    match *request {
        RequestRef::OpenTake {
            rate,
            channels,
            bits,
            history,
        } => {
            head.try_extend_from_slice(&rate.to_le_bytes()).unwrap();
            head.try_extend_from_slice(&channels.to_le_bytes()).unwrap();
            head.try_extend_from_slice(&bits.to_le_bytes()).unwrap();
            head.try_extend_from_slice(&(history.len() as u16).to_le_bytes())
                .unwrap();
        }
        RequestRef::Block { bytes: _bytes } => {}
        RequestRef::Mark { id, frame } => {
            head.try_extend_from_slice(&id.to_le_bytes()).unwrap();
            head.try_extend_from_slice(&frame.to_le_bytes()).unwrap();
        }
        RequestRef::SetField { tag, value: _value } => {
            head.try_extend_from_slice(&[tag]).unwrap();
        }
        RequestRef::CloseTake { frames } => {
            head.try_extend_from_slice(&frames.to_le_bytes()).unwrap();
        }
    }
}
