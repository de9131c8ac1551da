//! A state is read.
ghost use Rattle.std.specs.Prelude.{◌≡◌, ◌∷◌, ◌<◌, ◌≤◌, ◌==◌, [], IfSome, MatchOption, length, not};
ghost use Rattle.std.specs.List.{prefix_len};
ghost use Rattle.bw_ports.specs.Counts.{count_in as count_said, count_with_digit, digits_count, most_settled};
ghost use Rattle.bw_ports.specs.StateReadings.{greatest_count as greatest_said, lines_after, settled_in as settled_by};

/// The most requests that a take has.
const MOST_SETTLED: u32 = 16_777_216;

/// How many requests are settled by a state's bytes, if its header is this one: the greatest count
/// of its whole lines, at most 16,777,216.
pub fn settled_in(header: &[u8], bytes: &[u8]) -> Option<u32>
    ensures value { result ≡ settled_by header.now bytes.now }
    ensures range { IfSome result (λ n. n ≤ most_settled) }
{
    let (first, rest) = first_line(bytes)?;
    if first == header {
        Some(greatest_count(rest))
    } else {
        None
    }
}

/// The greatest count of the whole lines; 0 if there is none.
fn greatest_count(bytes: &[u8]) -> u32
    ensures value { result ≡ greatest_said (lines_after [] bytes.now) }
    ensures range { result ≤ most_settled }
{
    let mut rest = bytes;
    let mut most = 0;
    while let Some((line, more)) = first_line(rest) {
        most = most.max(count_in(line).unwrap_or(0));
        rest = more;
    }
    most
}

/// The first line, without the line feed that ends it, and what follows; None if nothing ends it.
fn first_line(bytes: &[u8]) -> Option<(&[u8], &[u8])>
    ensures line { MatchOption result (lines_after [] bytes.now ≡ [])
        (λ cut. lines_after [] bytes.now ≡ cut.0.now ∷ lines_after [] cut.1.now) }
    ensures shorter { IfSome result (λ cut. length cut.1.now < length bytes.now) }
{
    let len = line_len(bytes);
    if len == bytes.len() {
        return None;
    }
    Some((&bytes[..len], &bytes[len + 1..]))
}

/// How many bytes come before the first line feed.
fn line_len(bytes: &[u8]) -> usize
    ensures value { result ≡ prefix_len (λ c. not (c == 10)) bytes.now }
    ensures within { result ≤ length bytes.now }
{
    bytes.iter().take_while(|c| **c != b'\n').count()
}

/// How many a line says are settled, if it says that.
fn count_in(line: &[u8]) -> Option<u32>
    ensures value { result ≡ count_said line.now }
    ensures range { IfSome result (λ n. n ≤ most_settled) }
{
    if line.starts_with(b"settled ") {
        number_of(&line[8..])
    } else {
        None
    }
}

/// The number that these digits spell, 0 where there are none; None if one of them is no digit, or
/// the number is above 16,777,216.
fn number_of(digits: &[u8]) -> Option<u32>
    ensures value { result ≡ digits_count digits.now }
    ensures range { IfSome result (λ n. n ≤ most_settled) }
{
    let mut number = Some(0);
    for c in digits {
        number = with_digit(number, *c);
    }
    number
}

fn with_digit(number: Option<u32>, c: u8) -> Option<u32>
    requires { IfSome number (λ n. n ≤ most_settled) }
    ensures value { result ≡ count_with_digit number c }
    ensures range { IfSome result (λ n. n ≤ most_settled) }
{
    let number = number?;
    if !c.is_ascii_digit() {
        return None;
    }
    let more = 10 * number + u32::from(c - b'0');
    if more <= MOST_SETTLED {
        Some(more)
    } else {
        None
    }
}
