//! What a message carries of a field's bytes, and of a coding history.
ghost use Rattle.std.specs.Prelude.{◌≡◌, ◌≤◌, ◌==◌, not, length, IsTrue, IfOk};
ghost use Rattle.std.specs.List.{prefix_len};
ghost use Rattle.bw_model.specs.Bytes.{le16};
ghost use Rattle.bw_model.specs.Take.{Digits, Maybe, Level};
ghost use Rattle.bw_plan.specs.CleanedContents.{text_cleaned_of, history_of, value_of, are_zero as are_bytes_zero};
ghost use Rattle.bw_plan.specs.CleanedContents.{history_byte as history_byte_of};
ghost use Rattle.bw_plan.specs.CleanedTexts.{cleaned_text};
ghost use Rattle.bw_plan.specs.CleanedContents.{is_like as is_text_like, with_separators as separated};
ghost use Rattle.bw_plan.specs.CleanedContents.{is_separator as is_separator_byte, is_like_at, placed};

use crate::kept::is_history_byte;
use crate::line_of_text::line_of_text;
use bw_model::LONGEST_HISTORY;
use std::alloc::{AllocError, Global};

/// The bytes before the first zero byte.
pub(crate) fn text_before_zero(bytes: &[u8]) -> &[u8]
    ensures { result.now ≡ text_cleaned_of bytes.now }
{
    &bytes[..text_len(bytes)]
}

fn text_len(bytes: &[u8]) -> usize
    ensures value { result ≡ prefix_len (λ c. not (c == 0)) bytes.now }
    ensures within { result ≤ length bytes.now }
{
    bytes.iter().take_while(|c| **c != 0).count()
}

/// The text of a field, as one line of ASCII.
///
/// # Errors
/// `AllocError` where memory was refused.
pub(crate) fn clean_text(alloc: Global, bytes: &[u8]) -> Result<Vec<u8>, AllocError>
    ensures { IfOk result (λ v. v.items ≡ cleaned_text (text_cleaned_of bytes.now)) }
{
    line_of_text(alloc, text_before_zero(bytes))
}

/// A coding history of at most 4,096 bytes, with a question mark for each byte that it may not
/// have.
///
/// # Errors
/// `AllocError` where memory was refused.
pub(crate) fn clean_history(alloc: Global, bytes: &[u8]) -> Result<Vec<u8>, AllocError>
    ensures { IfOk result (λ v. v.items ≡ history_of bytes.now) }
{
    let text = text_before_zero(bytes);
    text.iter()
        .take(LONGEST_HISTORY)
        .map(|c| history_byte(*c))
        .collect(alloc)
}

fn history_byte(c: u8) -> u8
    ensures { result ≡ history_byte_of c }
{
    if is_history_byte(c) { c } else { b'?' }
}

/// The text of a date or a time with the separators of this form, where `d` is a digit;
/// nothing where it has another form.
///
/// # Errors
/// `AllocError` where memory was refused.
pub(crate) fn clean_digits(alloc: Global, form: &[u8], bytes: &[u8]) -> Result<Vec<u8>, AllocError>
    ensures { IfOk result (λ v. v.items ≡ value_of (Digits form.now) bytes.now) }
{
    let text = text_before_zero(bytes);
    if !is_like(form, text) {
        return Ok(Vec::new(alloc));
    }
    with_separators(alloc, form, text)
}

/// Whether a text has digits where the form has `d`, and separators elsewhere.
#[tactic(auto, using(crate::proofs::Dates::like_length))]
pub(crate) fn is_like(form: &[u8], text: &[u8]) -> bool
    ensures long { IsTrue result → length form.now ≡ length text.now }
    ensures value { result ≡ is_text_like form.now text.now }
{
    form.len() == text.len() && has_like(form, text)
}

/// Whether a text of the form's length has digits where the form has `d`, and separators elsewhere.
#[tactic(auto, using(crate::proofs::Dates::like_from, crate::proofs::Dates::like_end))]
fn has_like(form: &[u8], text: &[u8]) -> bool
    requires { length form.now ≡ length text.now }
    ensures { result ≡ is_text_like form.now text.now }
{
    for (i, c) in text.iter().enumerate() {
        if !is_like_byte(form[i], *c) {
            return false;
        }
    }
    true
}

fn is_like_byte(form: u8, c: u8) -> bool
    ensures { result ≡ is_like_at form c }
{
    if form == b'd' {
        c.is_ascii_digit()
    } else {
        is_separator(c)
    }
}

/// EBU Tech 3285 names these for dates and times.
fn is_separator(c: u8) -> bool
    ensures { result ≡ is_separator_byte c }
{
    c == b'-' || c == b'_' || c == b':' || c == b' ' || c == b'.'
}

/// The text's digits between the form's own separators.
///
/// # Errors
/// `AllocError` where memory was refused.
#[tactic(auto, using(crate::proofs::Dates::separated_from, crate::proofs::Dates::separated_end))]
fn with_separators(alloc: Global, form: &[u8], text: &[u8]) -> Result<Vec<u8>, AllocError>
    requires { length form.now ≡ length text.now }
    ensures { IfOk result (λ v. v.items ≡ separated form.now text.now) }
{
    let mut out = Vec::new(alloc);
    for (i, c) in text.iter().enumerate() {
        out.push(place(form[i], *c))?;
    }
    Ok(out)
}

fn place(form: u8, c: u8) -> u8
    ensures { result ≡ placed form c }
{
    if form == b'd' { c } else { form }
}

/// A number's or an identifier's bytes; nothing where all are zero.
///
/// # Errors
/// `AllocError` where memory was refused.
pub(crate) fn clean_bytes(alloc: Global, bytes: &[u8]) -> Result<Vec<u8>, AllocError>
    ensures { IfOk result (λ v. v.items ≡ value_of (Maybe (length bytes.now)) bytes.now) }
{
    if are_zero(bytes) {
        return Ok(Vec::new(alloc));
    }
    to_vec(alloc, bytes)
}

fn are_zero(bytes: &[u8]) -> bool
    ensures { result ≡ are_bytes_zero bytes.now }
{
    bytes.iter().all(|c| *c == 0)
}

/// A loudness in two bytes; nothing where it isn't given.
///
/// # Errors
/// `AllocError` where memory was refused.
pub(crate) fn clean_level(alloc: Global, level: u16) -> Result<Vec<u8>, AllocError>
    ensures { IfOk result (λ v. v.items ≡ value_of Level (le16 level)) }
{
    if level == 0x7fff {
        return Ok(Vec::new(alloc));
    }
    to_vec(alloc, &level.to_le_bytes())
}

/// A copy of these bytes.
///
/// # Errors
/// `AllocError` where memory was refused.
pub(crate) fn to_vec(alloc: Global, bytes: &[u8]) -> Result<Vec<u8>, AllocError>
    ensures { IfOk result (λ v. v.items ≡ bytes.now) }
{
    let mut items = Vec::new(alloc);
    items.extend_from_slice(bytes)?;
    Ok(items)
}
