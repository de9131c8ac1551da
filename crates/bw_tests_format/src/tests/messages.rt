//! Frames for which memory is refused, a long piece, and the texts of faults: what no run of the
//! program shows.

use crate::tests::compare::same;
use bw_take::{Name, RequestRef};
use bw_wire::*;
use std::process::Abort;
use std::test::Fail;

/// OPEN `a1` with number 0: 48,000 Hz, one channel, 16 bits, no history.
const OPEN: &[u8; 22] = b"\x12\0\0\0\x01\x02a1\0\0\0\0\x80\xbb\0\0\x01\0\x10\0\0\0";

/// CLOSE 2 with the total 2.
const CLOSE: &[u8; 20] = b"\x10\0\0\0\x05\x02a1\x02\0\0\0\x02\0\0\0\0\0\0\0";

fn feed(rt: &impl Abort, framer: &mut Framer, piece: &[u8]) -> Result<(), Fail> {
    assert!(rt; framer.fed() <= 1_000_000);
    assert!(rt; piece.len() <= 1_000_000);
    framer.feed(piece)?;
    Ok(())
}

/// Longer than any block that is kept for a further piece.
#[test]
fn a_long_piece_is_fed_where_memory_is_ample(rt: HostRuntime) -> Result<(), Fail> {
    let piece = vec![in rt.alloc(); 0; 300_000]?;
    let mut framer = Framer::new(rt.alloc());
    feed(&rt, &mut framer, &piece)?;
    same(&rt, "all of it", &framer.fed(), &300_000);
    Ok(())
}

/// Run once more with each growth refused, by `tests/test_refused_calls.py --tests`.
#[test]
fn a_refused_piece_may_be_fed_again(rt: HostRuntime) -> Result<(), Fail> {
    let mut framer = Framer::new(rt.alloc());
    let mut found = None;
    for piece in OPEN.chunks(5) {
        let before = framer.fed();
        assert!(rt; before <= 22 && piece.len() <= 22);
        if framer.feed(piece).is_err() {
            same(&rt, "a refused piece", &framer.fed(), &before);
            feed(&rt, &mut framer, piece)?;
        }
        if let Ok(Some(Frame::Message(message))) = framer.next_frame() {
            found = Some(message.number());
        }
    }
    same(&rt, "the number", &found, &Some(0));
    Ok(())
}

/// Run once more with each growth refused, by `tests/test_refused_calls.py --tests`.
#[test]
fn a_frame_that_memory_is_refused_for_may_be_made_again(rt: HostRuntime) -> Result<(), Fail> {
    let a1 = Name::new(b"a1").ok_or("a name")?;
    let close = RequestRef::CloseTake { frames: 2 };
    let frame = match encode(rt.alloc(), &a1, 2, &close) {
        Ok(frame) => frame,
        Err(_) => encode(rt.alloc(), &a1, 2, &close)?,
    };
    same(&rt, "the frame", &frame.as_slice(), &CLOSE.as_slice());
    Ok(())
}

static REASONS: [(Reason, &str); 6] = [
    (Reason::Length, "at 22: a length that no frame has"),
    (Reason::Kind, "at 22: a kind that no frame has"),
    (Reason::Name, "at 22: no name"),
    (Reason::Number, "at 22: no number"),
    (Reason::Payload, "at 22: a payload of another kind"),
    (Reason::Cut, "at 22: cut off"),
];

#[test]
fn a_fault_reports_its_place_and_its_reason(rt: HostRuntime) -> Result<(), Fail> {
    for (reason, text) in &REASONS {
        let reason = *reason;
        let reported = format!(in rt.alloc(); "{}", WireFault { reason, offset: 22 })?;
        same(&rt, reason, &reported.as_str(), text);
    }
    let reported = format!(in rt.alloc(); "{}", UnknownCode(7))?;
    same(&rt, 7, &reported.as_str(), &"7 is no code");
    Ok(())
}
