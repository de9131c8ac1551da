//! What a message carries of a text of a file: one line of ASCII.
ghost use Rattle.std.specs.Prelude.{◌≡◌, ◌++◌, ℕ, [], ◌∷◌, map, encode_utf8_all, IfOk, OnOk, if◌then◌else◌};
ghost use Rattle.bw_plan.specs.CleanedTexts.{base_letter as letter_of, byte_of as byte_for};
ghost use Rattle.bw_plan.specs.CleanedTexts.{characters_of, cleaned_after, cleaned_text};
ghost use Rattle.bw_plan.specs.CleanedTexts.{is_end_of_line as ends_line, is_without_byte as has_no_byte};
ghost use Rattle.bw_plan.specs.CleanedTexts.{letter_byte as byte_of_letter};
ghost use Rattle.bw_model.specs.Take.{is_printable as is_character_of_text};

use std::alloc::{AllocError, Global};
use unicode_normalization::Form;
use unicode_normalization::char::decomposition;

/// The bytes of a text: its letters without accents, a space for each end of a line, and a question
/// mark for any other character that isn't printable ASCII.
///
/// # Errors
/// `AllocError` where memory was refused.
pub(crate) fn line_of_text(alloc: Global, text: &[u8]) -> Result<Vec<u8>, AllocError>
    ensures { IfOk result (λ v. v.items ≡ cleaned_text text.now) }
{
    let characters = characters(alloc, text)?;
    line_of(alloc, characters.as_slice())
}

/// The characters of a text, which is UTF-8 or else ISO 8859-1.
///
/// # Errors
/// `AllocError` where memory was refused.
fn characters(alloc: Global, text: &[u8]) -> Result<Vec<char>, AllocError>
    ensures { IfOk result (λ v. v.items ≡ characters_of text.now) }
{
    match str::from_utf8(text) {
        Ok(text) => characters_of_utf8(alloc, text),
        Err(_) => characters_of_latin(alloc, text),
    }
}

/// The characters of a text.
///
/// # Errors
/// `AllocError` where memory was refused.
fn characters_of_utf8(alloc: Global, text: &str) -> Result<Vec<char>, AllocError>
    ensures { IfOk result (λ v. encode_utf8_all v.items ≡ text.now) }
{
    text.chars().collect(alloc)
}

/// The characters of bytes of ISO 8859-1, one a byte.
///
/// # Errors
/// `AllocError` where memory was refused.
fn characters_of_latin(alloc: Global, text: &[u8]) -> Result<Vec<char>, AllocError>
    ensures { IfOk result (λ v. v.items ≡ map (λ (c : ℕ). c) text.now) }
{
    text.iter().map(|byte| char::from(*byte)).collect(alloc)
}

/// The bytes of characters.
///
/// # Errors
/// `AllocError` where memory was refused.
fn line_of(alloc: Global, characters: &[char]) -> Result<Vec<u8>, AllocError>
    ensures { IfOk result (λ v. v.items ≡ cleaned_after 0 characters.now) }
{
    let mut line = Vec::new(alloc);
    let mut previous = '\0';
    for (_i, c) in characters.iter().enumerate() {
        put_character(&mut line, previous, *c)?;
        previous = *c;
    }
    Ok(line)
}

/// Appends the byte of a character after this one, if it has one.
///
/// # Errors
/// `AllocError` where memory was refused.
fn put_character(line: &mut Vec<u8>, previous: char, c: char) -> Result<(), AllocError>
    ensures { OnOk result (line.new.items ≡ (if has_no_byte previous c then line.old.items
        else line.old.items ++ byte_for c ∷ [])) }
{
    if is_without_byte(previous, c) {
        return Ok(());
    }
    line.push(byte_of(c))?;
    Ok(())
}

/// Whether a character has no byte after this one: an accent of its own, or a line feed after a
/// carriage return.
fn is_without_byte(previous: char, c: char) -> bool
    ensures { result ≡ has_no_byte previous c }
{
    ('\u{300}'..='\u{36f}').contains(&c) || (previous == '\r' && c == '\n')
}

fn byte_of(c: char) -> u8
    ensures { result ≡ byte_for c }
{
    if is_end_of_line(c) {
        b' '
    } else if is_printable(c) {
        c as u8
    } else {
        letter_byte(base_letter(c))
    }
}

fn is_end_of_line(c: char) -> bool
    ensures { result ≡ ends_line c }
{
    c == '\r' || c == '\n'
}

fn is_printable(c: char) -> bool
    ensures { result ≡ is_character_of_text c }
{
    (' '..='~').contains(&c)
}

fn letter_byte(c: char) -> u8
    ensures { result ≡ byte_of_letter c }
{
    if c.is_ascii_alphabetic() {
        c as u8
    } else {
        b'?'
    }
}

/// A letter without its accents, by its canonical decomposition.
fn base_letter(c: char) -> char
    ensures { result ≡ letter_of c }
{
    let mut room = [c; 3];
    decomposition(c, Form::Nfd, &mut room)[0]
}
