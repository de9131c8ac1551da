//! Numbers in lines.
ghost use Rattle.std.specs.Prelude.{◌≡◌, ◌<◌, ◌^◌, IfSome};
ghost use Rattle.bw_live.specs.MarkNumbers.{number_spelled, with_next_digit};

/// The number that these digits spell; None if there are none, if a byte is no digit, or if the number
/// is above 4,294,967,295.
pub(crate) fn number_in(digits: &[u8]) -> Option<u32>
    ensures { result ≡ number_spelled digits.now }
{
    if digits.is_empty() {
        return None;
    }
    let mut number = Some(0);
    for c in digits {
        number = with_digit(number, *c);
    }
    number
}

fn with_digit(number: Option<u32>, c: u8) -> Option<u32>
    ensures { result ≡ with_next_digit number c }
{
    let number = number?;
    if !c.is_ascii_digit() {
        return None;
    }
    let more = 10 * u64::from(number) + u64::from(c - b'0');
    if more <= 4_294_967_295 {
        Some(more as u32)
    } else {
        None
    }
}
