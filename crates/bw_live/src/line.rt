//! Lines are cut off, and read.
ghost use Rattle.std.specs.Prelude.{◌≡◌, ◌∷◌, ◌<◌, ◌≤◌, ◌==◌, [], IfSome, MatchOption, length, not};
ghost use Rattle.std.specs.List.{prefix_len};
ghost use Rattle.bw_ports.specs.StateReadings.{lines_after};
ghost use Rattle.bw_live.specs.MarkLines.{wish_said};

use crate::answer::MarkWish;
use crate::number::number_in;

/// What a line of the marks' file asks for.
pub fn wish_of(line: &[u8]) -> MarkWish
    ensures { result ≡ wish_said line.now }
{
    if line == b"mark".as_slice() {
        return MarkWish::Next;
    }
    if !line.starts_with(b"mark ") {
        return MarkWish::Unknown;
    }
    match number_in(&line[5..]) {
        Some(id) => MarkWish::Labelled(id),
        None => MarkWish::Unknown,
    }
}

/// The first line, without the line feed that ends it, and what follows; None if nothing ends it.
pub(crate) fn first_line(bytes: &[u8]) -> Option<(&[u8], &[u8])>
    ensures line { MatchOption result (lines_after [] bytes.now ≡ [])
        (λ cut. lines_after [] bytes.now ≡ cut.0.now ∷ lines_after [] cut.1.now) }
    ensures shorter { IfSome result (λ cut. length cut.1.now < length bytes.now) }
{
    let len = line_len(bytes);
    if len == bytes.len() {
        return None;
    }
    Some((&bytes[..len], &bytes[len + 1..]))
}

/// How many bytes come before the first line feed.
fn line_len(bytes: &[u8]) -> usize
    ensures value { result ≡ prefix_len (λ c. not (c == 10)) bytes.now }
    ensures within { result ≤ length bytes.now }
{
    bytes.iter().take_while(|c| **c != b'\n').count()
}
