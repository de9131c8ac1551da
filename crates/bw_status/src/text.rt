//! Numbers, times and escaped texts.
ghost use Rattle.std.specs.Prelude.{◌≡◌, ◌++◌, ◌<◌, decimal, flat_map, OnOk};
ghost use Rattle.bw_status.specs.Texts.{duration_text, html_escaped, escaped_byte, digit_pair};

use itoa::Buffer;
use std::alloc::AllocError;

/// Appends a number.
pub(crate) fn put_number(out: &mut Vec<u8>, number: u64) -> Result<(), AllocError>
    ensures { OnOk result (out.new.items ≡ out.old.items ++ decimal number) }
{
    let mut digits = Buffer::new();
    out.extend_from_slice(digits.format(number).as_bytes())
}

/// Appends a text.
pub(crate) fn put_text(out: &mut Vec<u8>, text: &str) -> Result<(), AllocError>
    ensures { OnOk result (out.new.items ≡ out.old.items ++ text.now) }
{
    out.extend_from_slice(text.as_bytes())
}

/// Appends two texts.
#[tactic(auto, using(std::proofs::lemmas::List::append_assoc))]
pub(crate) fn put_part(out: &mut Vec<u8>, first: &str, second: &str) -> Result<(), AllocError>
    ensures { OnOk result (out.new.items ≡ out.old.items ++ (first.now ++ second.now)) }
{
    out.extend_from_slice(first.as_bytes())?;
    out.extend_from_slice(second.as_bytes())
}

/// Appends the two digits of a number below 100.
#[tactic(auto, using(std::proofs::lemmas::List::append_assoc))]
fn put_two_digits(out: &mut Vec<u8>, number: u64) -> Result<(), AllocError>
    ensures { OnOk result (out.new.items ≡ out.old.items ++ digit_pair number) }
{
    put_number(out, number / 10)?;
    put_number(out, number % 10)
}

/// Appends milliseconds as hours, minutes and whole seconds: `1:02:03`.
#[tactic(auto, using(std::proofs::lemmas::List::append_assoc))]
pub(crate) fn put_clock(out: &mut Vec<u8>, ms: u64) -> Result<(), AllocError>
    ensures { OnOk result (out.new.items ≡ out.old.items ++ duration_text ms) }
{
    put_number(out, ms / 3_600_000)?;
    out.extend_from_slice(b":")?;
    put_two_digits(out, ms / 60_000 % 60)?;
    out.extend_from_slice(b":")?;
    put_two_digits(out, ms / 1_000 % 60)
}

/// Appends a text as HTML: no byte of it begins a tag, a reference or the end of a value.
pub(crate) fn put_escaped(out: &mut Vec<u8>, text: &str) -> Result<(), AllocError>
    ensures { OnOk result (out.new.items ≡ out.old.items ++ html_escaped text.now) }
{
    for byte in text.as_bytes() {
        put_escaped_byte(out, *byte)?;
    }
    Ok(())
}

fn put_escaped_byte(out: &mut Vec<u8>, byte: u8) -> Result<(), AllocError>
    ensures { OnOk result (out.new.items ≡ out.old.items ++ escaped_byte byte) }
{
    if byte == b'&' {
        return out.extend_from_slice(b"&amp;");
    }
    if byte == b'<' {
        return out.extend_from_slice(b"&lt;");
    }
    if byte == b'>' {
        return out.extend_from_slice(b"&gt;");
    }
    if byte == b'"' {
        return out.extend_from_slice(b"&quot;");
    }
    if byte == b'\'' {
        return out.extend_from_slice(b"&#39;");
    }
    out.extend_from_slice(&[byte])
}
