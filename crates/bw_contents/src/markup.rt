//! The names, white space and characters of XML.
ghost use Rattle.std.specs.Prelude.{◌≡◌, ◌<◌, ◌≤◌, [], ◌∷◌, length, option_map, IsTrue};
ghost use Rattle.std.specs.List.{prefix_len};
ghost use Rattle.bw_contents.specs.Markup.{after_white_space, after_word, begins_name, begins_with};
ghost use Rattle.bw_contents.specs.Markup.{char_named, char_written};
ghost use Rattle.bw_contents.specs.Markup.{cut_at_mark, is_white_space, is_in_name, is_xml_char, name_at};
ghost use Rattle.bw_contents.specs.Markup.{number_after};
ghost use Rattle.bw_contents.specs.Markup.{number_of_digits};

/// Whether a byte is white space.
pub(crate) fn is_white_space(c: u8) -> bool
    ensures { result ≡ is_white_space c }
{
    c == b' ' || (c == b'\t' || (c == b'\n' || c == b'\r'))
}

fn begins_name(c: u8) -> bool
    ensures { result ≡ begins_name c }
{
    c.is_ascii_alphabetic() || (c == b'_' || (c == b':' || c > 127))
}

fn is_in_name(c: u8) -> bool
    ensures { result ≡ is_in_name c }
{
    begins_name(c) || (c.is_ascii_digit() || (c == b'-' || c == b'.'))
}

/// What follows a word in bytes that begin with it.
pub(crate) fn after_word<'a>(word: &[u8], bytes: &'a [u8]) -> Option<&'a [u8]>
    ensures { option_map (λ rest. rest.now) result ≡ after_word word.now bytes.now }
{
    bytes.strip_prefix(word)
}

/// What is before the first of these marks, and after it.
pub(crate) fn cut_at_mark<'a>(mark: &[u8], bytes: &'a [u8]) -> Option<(&'a [u8], &'a [u8])>
    ensures { option_map (λ p. (p.0.now, p.1.now)) result ≡ cut_at_mark mark.now bytes.now }
{
    for place in 0..bytes.len() {
        let rest = &bytes[place..];
        if begins_with(rest, mark) {
            return Some((&bytes[..place], &rest[mark.len()..]));
        }
    }
    None
}

/// How many bytes at the front are white space.
fn blank_len(bytes: &[u8]) -> usize
    ensures value { result ≡ prefix_len is_white_space bytes.now }
    ensures within { result ≤ length bytes.now }
{
    bytes.iter().take_while(|c| is_white_space(**c)).count()
}

/// What follows the white space at the front.
pub(crate) fn after_white_space(bytes: &[u8]) -> &[u8]
    ensures { result.now ≡ after_white_space bytes.now }
{
    &bytes[blank_len(bytes)..]
}

/// How many bytes at the front may be in a name.
fn name_len(bytes: &[u8]) -> usize
    ensures value { result ≡ prefix_len is_in_name bytes.now }
    ensures within { result ≤ length bytes.now }
{
    bytes.iter().take_while(|c| is_in_name(**c)).count()
}

/// The name at the front, and what follows it.
#[tactic(auto, unfolding(crate::specs::Markup::name_at))]
pub(crate) fn name_at(bytes: &[u8]) -> Option<(&[u8], &[u8])>
    ensures { option_map (λ p. (p.0.now, p.1.now)) result ≡ name_at bytes.now }
{
    if bytes.is_empty() || !begins_name(bytes[0]) {
        return None;
    }
    Some(bytes.split_at(name_len(bytes)))
}

/// The number that digits of this base write, if it is at most `most`.
pub(crate) fn number_of_digits(base: u32, most: u32, digits: &[u8]) -> Option<u32>
    requires { (2 ≤ base) × (base ≤ 36) }
    ensures { result ≡ number_of_digits base most digits.now }
{
    if digits.is_empty() {
        return None;
    }
    let mut number = 0;
    for digit in digits {
        number = with_digit(base, most, number, *digit)?;
    }
    Some(number)
}

/// A number with a digit more, if it is at most `most`.
fn with_digit(base: u32, most: u32, number: u32, digit: u8) -> Option<u32>
    requires { (2 ≤ base) × (base ≤ 36) }
    ensures { result ≡ number_after base most number (digit ∷ []) }
{
    let digit = char::from(digit).to_digit(base)?;
    let value = u64::from(base) * u64::from(number) + u64::from(digit);
    if value > most.into() {
        return None;
    }
    Some(value as u32)
}

/// Whether these bytes begin with a word.
pub(crate) fn begins_with(bytes: &[u8], word: &[u8]) -> bool
    ensures value { result ≡ begins_with bytes.now word.now }
    ensures within { IsTrue result → length word.now ≤ length bytes.now }
{
    bytes.starts_with(word)
}

/// Whether a document may have a character.
fn is_xml_char(code: u32) -> bool
    ensures { result ≡ is_xml_char code }
{
    (code == 9 || (code == 10 || code == 13))
        || ((32 <= code && code < 0xd800)
            || ((0xdfff < code && code < 0xfffe) || (0xffff < code && code < 0x11_0000)))
}

/// The character that a reference names, between `&` and `;`.
#[tactic(auto, unfolding(crate::specs::Markup::char_named))]
pub(crate) fn char_named(name: &[u8]) -> Option<char>
    ensures { result ≡ char_named name.now }
{
    if name == b"lt".as_slice() {
        Some('<')
    } else if name == b"gt".as_slice() {
        Some('>')
    } else if name == b"amp".as_slice() {
        Some('&')
    } else if name == b"quot".as_slice() {
        Some('"')
    } else if name == b"apos".as_slice() {
        Some('\'')
    } else if begins_with(name, b"#x") {
        char_written(16, &name[2..])
    } else if begins_with(name, b"#") {
        char_written(10, &name[1..])
    } else {
        None
    }
}

/// The character whose number these digits write.
#[tactic(auto, unfolding(crate::specs::Markup::char_written))]
fn char_written(base: u32, digits: &[u8]) -> Option<char>
    requires { (2 ≤ base) × (base ≤ 36) }
    ensures { result ≡ char_written base digits.now }
{
    let code = number_of_digits(base, 0x10_ffff, digits)?;
    if is_xml_char(code) {
        char::from_u32(code)
    } else {
        None
    }
}
