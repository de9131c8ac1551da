//! Bodies that are no reply, and the first reason: the program reports none.

use crate::tests::compare::same;
use bw_wire::*;

/// Bodies that are no reply, and the first reason.
static NO_REPLIES: [(&[u8], Reason); 16] = [
    (b"", Reason::Kind),
    (b"\x80", Reason::Kind),
    (b"\x84", Reason::Kind),
    (b"\x81", Reason::Name),
    (b"\x81\x02A1\0\0\0\0\0", Reason::Name),
    (b"\x81\x02a1\0\0\0", Reason::Number),
    (b"\x81\x02a1\0\0\0\x01\0", Reason::Number),
    (b"\x81\x02a1\0\0\0\0", Reason::Payload),
    (b"\x81\x02a1\0\0\0\0\x0c", Reason::Payload),
    (b"\x81\x02a1\0\0\0\0\0\0", Reason::Payload),
    (b"\x82\x02a1\0\0\0\0\x26\0\0\0\0", Reason::Payload),
    (b"\x82\x02a1\0\0\0\0\x20\x01\0\0\x01", Reason::Payload),
    (b"\x82\x02a1\0\0\0\0\x20\0\0\0", Reason::Payload),
    (b"\x83\0\0\0\0\0\0\0\0\0", Reason::Payload),
    (b"\x83\x07\0\0\0\0\0\0\0\0", Reason::Payload),
    (b"\x83\x01\0\0\0\0\0\0\0", Reason::Payload),
];

#[test]
fn the_first_reason_is_reported(rt: HostRuntime) {
    for (body, reason) in &NO_REPLIES {
        same(&rt, *reason, &decode_reply(body).err(), &Some(*reason));
    }
}
