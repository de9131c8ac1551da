//! From a body to the reply that it spells.
ghost use Rattle.std.specs.Prelude.{◌≡◌};
ghost use Rattle.std.specs.Option.{ok_or};
ghost use Rattle.bw_model.specs.Wire.{Payload};
ghost use Rattle.bw_model.specs.Replies.{decoded_reply, addressed_reply, judged_by, noticed_by};
ghost use Rattle.bw_model.specs.Replies.{refused_by};
ghost use Rattle.bw_wire.specs.Replies.{reply_read};

use crate::address::{LAST_NUMBER, has_name, has_number, name, number, payload};
use crate::reason::Reason;
use crate::reply::{Notice, Reply};
use bw_model::{Verdict, read_u32, read_u64};

pub(crate) const VERDICT: u8 = 0x81;

pub(crate) const NOTICE: u8 = 0x82;

pub(crate) const BAD_FRAME: u8 = 0x83;

/// The reply that a body spells.
///
/// # Errors
/// The first reason why the body spells none.
pub fn decode_reply(body: &[u8]) -> Result<Reply, Reason>
    ensures { reply_read result ≡ decoded_reply body.now }
{
    let [kind, rest @ ..] = body else {
        return Err(Reason::Kind);
    };
    match *kind {
        VERDICT => verdict(rest),
        NOTICE => notice(rest),
        BAD_FRAME => bad_frame(rest),
        _ => Err(Reason::Kind),
    }
}

fn verdict(rest: &[u8]) -> Result<Reply, Reason>
    ensures { reply_read result ≡ addressed_reply rest.now judged_by }
{
    if !has_name(rest) {
        return Err(Reason::Name);
    }
    if !has_number(rest) {
        return Err(Reason::Number);
    }
    let [code] = payload(rest) else {
        return Err(Reason::Payload);
    };
    let Ok(verdict) = Verdict::try_from(*code) else {
        return Err(Reason::Payload);
    };
    Ok(Reply::Verdict {
        name: name(rest),
        number: number(rest),
        verdict,
    })
}

fn notice(rest: &[u8]) -> Result<Reply, Reason>
    ensures { reply_read result ≡ addressed_reply rest.now noticed_by }
{
    if !has_name(rest) {
        return Err(Reason::Name);
    }
    if !has_number(rest) {
        return Err(Reason::Number);
    }
    let [code, next @ ..] = payload(rest) else {
        return Err(Reason::Payload);
    };
    if next.len() != 4 {
        return Err(Reason::Payload);
    }
    let next = read_u32(next, 0);
    if next > LAST_NUMBER + 1 {
        return Err(Reason::Payload);
    }
    let Ok(code) = Notice::try_from(*code) else {
        return Err(Reason::Payload);
    };
    Ok(Reply::Notice {
        name: name(rest),
        number: number(rest),
        code,
        next,
    })
}

fn bad_frame(rest: &[u8]) -> Result<Reply, Reason>
    ensures { reply_read result ≡ ok_or (refused_by rest.now) Payload }
{
    let [code, offset @ ..] = rest else {
        return Err(Reason::Payload);
    };
    if offset.len() != 8 {
        return Err(Reason::Payload);
    }
    let Ok(reason) = Reason::try_from(*code) else {
        return Err(Reason::Payload);
    };
    Ok(Reply::BadFrame {
        reason,
        offset: read_u64(offset, 0),
    })
}
