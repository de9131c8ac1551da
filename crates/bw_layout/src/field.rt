//! One field of `bext` (EBU Tech 3285, Broadcast Audio Extension): which values it takes, and how
//! they are stored in it.
ghost use Rattle.std.specs.Prelude.{◌≡◌, ℕ, ◌-◌, ◌≤◌, ◌++◌, Some, length};
ghost use Rattle.bw_model.specs.Bytes.{zeros};
ghost use Rattle.bw_model.specs.Take.{Text, Digits, Whole, Maybe, Level, matches, is_printable};
ghost use Rattle.std.specs.List.{list_all};
ghost use Rattle.bw_layout.specs.Fields.{SetsField, error_code, error_text, fits_place};

use std::error::Error;
use std::fmt;

/// Why a field can't be set.
#[derive(Clone, Copy, Debug, PartialEq, Eq, Hash)]
pub enum FieldError {
    /// No field has this tag.
    Tag = 1,
    /// The field takes no value of this length.
    Length = 2,
    /// A byte isn't allowed at its place.
    Text = 3,
}

impl FieldError {
    /// Its number.
    pub fn code(self) -> u8
        ensures value { result ≡ error_code self }
        ensures range { result ≤ 3 }
    {
        self as u8
    }
}

impl fmt::Display for FieldError {
    ghost output = { λ error. Some (error_text error) };

    /// Writes the reason in a few words, such as `no field has this tag`.
    fn fmt<W: fmt::Write>(&self, f: &mut fmt::Formatter<W>) -> fmt::Result {
        f.write_str(match self {
            FieldError::Tag => "no field has this tag",
            FieldError::Length => "the field takes no value of this length",
            FieldError::Text => "a byte of the value isn't allowed at its place",
        })
    }
}

impl Error for FieldError {}

/// A loudness that isn't given: 7FFFh.
pub(crate) const NOT_GIVEN: [u8; 2] = [0xff, 0x7f];

/// Sets a text of at most the field's length; zero bytes follow a shorter one.
pub(crate) fn set_text(field: &mut [u8], value: &[u8]) -> Result<(), FieldError>
    ensures { SetsField (Text (length field.old)) value.now result field.old field.new }
{
    if value.len() > field.len() {
        return Err(FieldError::Length);
    }
    if !is_text(value) {
        return Err(FieldError::Text);
    }
    put_value(field, value);
    Ok(())
}

/// Sets nothing, or a text of this form, in which `d` is any digit.
pub(crate) fn set_digits(field: &mut [u8], form: &[u8], value: &[u8]) -> Result<(), FieldError>
    requires { length field.old ≡ length form.now }
    ensures { SetsField (Digits form.now) value.now result field.old field.new }
{
    if !value.is_empty() {
        if value.len() != form.len() {
            return Err(FieldError::Length);
        }
        if !has_form(form, value) {
            return Err(FieldError::Text);
        }
    }
    put_value(field, value);
    Ok(())
}

/// Sets exactly the field's bytes.
pub(crate) fn set_whole(field: &mut [u8], value: &[u8]) -> Result<(), FieldError>
    ensures { SetsField (Whole (length field.old)) value.now result field.old field.new }
{
    if value.len() != field.len() {
        return Err(FieldError::Length);
    }
    put_value(field, value);
    Ok(())
}

/// Sets nothing, or exactly the field's bytes.
pub(crate) fn set_maybe(field: &mut [u8], value: &[u8]) -> Result<(), FieldError>
    ensures { SetsField (Maybe (length field.old)) value.now result field.old field.new }
{
    if !value.is_empty() && value.len() != field.len() {
        return Err(FieldError::Length);
    }
    put_value(field, value);
    Ok(())
}

/// Sets a loudness, or that it isn't given.
pub(crate) fn set_level(field: &mut [u8; 2], value: &[u8]) -> Result<(), FieldError>
    ensures { SetsField Level value.now result field.old field.new }
{
    *field = match value {
        [] => NOT_GIVEN,
        [low, high] => [*low, *high],
        _ => return Err(FieldError::Length),
    };
    Ok(())
}

/// Writes a value and zero bytes up to the field's end.
fn put_value(field: &mut [u8], value: &[u8])
    requires { length value.now ≤ length field.old }
    ensures { field.new ≡ value.now ++ zeros (length field.old - length value.now) }
{
    let (prefix, rest) = field.split_at_mut(value.len());
    prefix.copy_from_slice(value);
    rest.fill(0);
}

/// Whether each byte is printable.
fn is_text(value: &[u8]) -> bool
    ensures { result ≡ list_all is_printable value.now }
{
    value.iter().all(|c| (32..=126).contains(c))
}

/// Whether a text has a form, byte for byte.
#[tactic(auto, using(crate::proofs::Forms::matches_from, crate::proofs::Forms::matches_end))]
fn has_form(form: &[u8], value: &[u8]) -> bool
    requires { length form.now ≡ length value.now }
    ensures { result ≡ matches form.now value.now }
{
    for (i, c) in value.iter().enumerate() {
        if !fits(form[i], *c) {
            return false;
        }
    }
    true
}

/// Whether a byte may be at a place where a form has this byte.
fn fits(form: u8, c: u8) -> bool
    ensures { result ≡ fits_place form c }
{
    if form == b'd' {
        c.is_ascii_digit()
    } else {
        form == c
    }
}
