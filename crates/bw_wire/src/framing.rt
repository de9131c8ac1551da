//! A body after its length, at the start of a stream's bytes.
ghost use Rattle.std.specs.Prelude.{◌<◌, ◌^◌};
ghost use Rattle.bw_wire.specs.Framings.{IsFraming};

use bw_model::read_u32;

/// A body after its length: not whole yet, of a length that no body has, or of this length.
#[derive(Clone, Copy)]
pub(crate) enum Framing {
    Partial,
    Bad,
    Body(usize),
}

/// The body at the start, if bodies have at most this many bytes.
pub(crate) fn framing_of(bytes: &[u8], longest: u32) -> Framing
    ensures { IsFraming longest bytes.now result }
{
    if bytes.len() < 4 {
        return Framing::Partial;
    }
    let len = read_u32(bytes, 0);
    if len == 0 {
        return Framing::Bad;
    }
    if len > longest {
        return Framing::Bad;
    }
    let len = len as usize;
    if bytes.len() < 4 + len {
        return Framing::Partial;
    }
    Framing::Body(len)
}
