//! Settings read from texts.
ghost use Rattle.std.specs.Prelude.{◌≡◌, ◌==◌, ◌≤◌, not, length, Some, option_map, IfOk, IfSome, IsTrue};
ghost use Rattle.std.specs.List.{prefix_len};
ghost use Rattle.hex.specs.Hex.{decode_of};
ghost use Rattle.bw_plan.specs.AllowedSettings.{is_setting};
ghost use Rattle.bw_plan.specs.Recordings.{Field, History};
ghost use Rattle.bw_model.specs.Bytes.{le16, le64};
ghost use Rattle.bw_plan.specs.SettingTexts.{setting_of, spelled_value, spelled_field};
ghost use Rattle.bw_plan.specs.SettingTexts.{tag_of as tag_named, number_of, with_digit, level_by};
ghost use Rattle.bw_plan.specs.SettingTexts.{unsigned_level as level_without_sign, signed16 as as_signed16};
ghost use Rattle.bw_plan.specs.SettingTexts.{level_of, decoded_value, allowed};

use crate::cleaning::to_vec;
use crate::kept::{can_set, has_history_bytes};
use crate::setting::Setting;
use bw_model::LONGEST_HISTORY;
use hex::FromHexError;
use std::alloc::{AllocError, Global};

/// The setting that `KEY=VALUE` spells; None where there is none, or where it isn't allowed.
///
/// The keys are `description originator reference date clock time umid history value range peak
/// momentary short`. A field with an empty value is left out. `time` is a number of samples, `umid`
/// 128 hex digits; the five levels have two decimals, as `-23.00`.
///
/// # Errors
/// `AllocError` where memory was refused.
pub fn read_setting(alloc: Global, text: &[u8]) -> Result<Option<Setting>, AllocError>
    ensures value { IfOk result (λ s. s ≡ setting_of text.now) }
    ensures allowed { IfOk result (λ s. IfSome s (λ x. IsTrue (is_setting x))) }
{
    let len = key_len(text);
    if len == text.len() {
        return Ok(None);
    }
    let key = &text[..len];
    let value = &text[len + 1..];
    if key == b"history".as_slice() {
        return history_setting(alloc, value);
    }
    match tag_of(key) {
        Some(tag) => field_setting(alloc, tag, value),
        None => Ok(None),
    }
}

fn key_len(text: &[u8]) -> usize
    ensures value { result ≡ prefix_len (λ c. not (c == 61)) text.now }
    ensures within { result ≤ length text.now }
{
    text.iter().take_while(|c| **c != b'=').count()
}

/// The coding history with these bytes, if a message may carry it.
///
/// # Errors
/// `AllocError` where memory was refused.
fn history_setting(alloc: Global, bytes: &[u8]) -> Result<Option<Setting>, AllocError>
    ensures value { IfOk result (λ s. s ≡ allowed (History bytes.now)) }
    ensures allowed { IfOk result (λ s. IfSome s (λ x. IsTrue (is_setting x))) }
{
    if bytes.len() <= LONGEST_HISTORY && has_history_bytes(bytes) {
        Ok(Some(Setting::history(to_vec(alloc, bytes)?)))
    } else {
        Ok(None)
    }
}

/// The field with a tag at the value that a text spells, if it takes that.
///
/// # Errors
/// `AllocError` where memory was refused.
fn field_setting(alloc: Global, tag: u8, text: &[u8]) -> Result<Option<Setting>, AllocError>
    ensures value { IfOk result (λ s. s ≡ spelled_field (Some tag) text.now) }
    ensures allowed { IfOk result (λ s. IfSome s (λ x. IsTrue (is_setting x))) }
{
    let Some(value) = read_value(alloc, tag, text)? else {
        return Ok(None);
    };
    if value.is_empty() || can_set(tag, &value) {
        Ok(Some(Setting::field(tag, value)))
    } else {
        Ok(None)
    }
}

/// The value that a text spells for the field with a tag.
///
/// # Errors
/// `AllocError` where memory was refused.
fn read_value(alloc: Global, tag: u8, text: &[u8]) -> Result<Option<Vec<u8>>, AllocError>
    ensures { IfOk result (λ v. option_map (λ x. x.items) v ≡ spelled_value tag text.now) }
{
    if text.is_empty() {
        return Ok(Some(Vec::new(alloc)));
    }
    if tag == 6 {
        return number_value(alloc, read_number(text));
    }
    if tag == 7 {
        return read_hex(alloc, text);
    }
    if tag >= 8 {
        return level_value(alloc, read_level(text));
    }
    Ok(Some(to_vec(alloc, text)?))
}

fn number_value(alloc: Global, number: Option<u64>) -> Result<Option<Vec<u8>>, AllocError>
    ensures { IfOk result (λ v. option_map (λ x. x.items) v ≡ option_map le64 number) }
{
    match number {
        Some(number) => Ok(Some(to_vec(alloc, &number.to_le_bytes())?)),
        None => Ok(None),
    }
}

fn level_value(alloc: Global, level: Option<u16>) -> Result<Option<Vec<u8>>, AllocError>
    ensures { IfOk result (λ v. option_map (λ x. x.items) v ≡ option_map le16 level) }
{
    match level {
        Some(level) => Ok(Some(to_vec(alloc, &level.to_le_bytes())?)),
        None => Ok(None),
    }
}

/// The bytes that hex digits spell.
///
/// # Errors
/// `AllocError` where memory was refused.
fn read_hex(alloc: Global, text: &[u8]) -> Result<Option<Vec<u8>>, AllocError>
    ensures { IfOk result (λ v. option_map (λ x. x.items) v ≡ decoded_value (decode_of text.now)) }
{
    match hex::decode(alloc, text) {
        Ok(bytes) => Ok(Some(bytes)),
        Err(FromHexError::OutOfMemory) => Err(AllocError),
        Err(FromHexError::InvalidHexCharacter { .. }) => Ok(None),
        Err(FromHexError::OddLength) => Ok(None),
        Err(FromHexError::InvalidStringLength) => Ok(None),
    }
}

/// The number that these digits spell, 0 where there are none; None where it has more than 64 bits
/// or one of them is no digit.
fn read_number(digits: &[u8]) -> Option<u64>
    ensures { result ≡ number_of digits.now }
{
    let mut number = Some(0);
    for c in digits {
        number = next_digit(number, *c);
    }
    number
}

fn next_digit(number: Option<u64>, c: u8) -> Option<u64>
    ensures { result ≡ with_digit number c }
{
    let number = number?;
    if !c.is_ascii_digit() {
        return None;
    }
    number.checked_mul(10)?.checked_add(u64::from(c - b'0'))
}

/// The level that a text spells, in hundredths: digits, a point and two digits, maybe after a minus
/// sign.
fn read_level(text: &[u8]) -> Option<u16>
    ensures { result ≡ level_of text.now }
{
    match text {
        [] => None,
        [b'-', rest @ ..] => unsigned_level(true, rest),
        [_, ..] => unsigned_level(false, text),
    }
}

fn unsigned_level(is_negative: bool, text: &[u8]) -> Option<u16>
    ensures { result ≡ level_without_sign is_negative text.now }
{
    let len = text.len();
    if len < 4 || text[len - 3] != b'.' {
        return None;
    }
    let units = read_number(&text[..len - 3]);
    let hundredths = read_number(&text[len - 2..]);
    level(is_negative, units, hundredths)
}

fn level(is_negative: bool, units: Option<u64>, hundredths: Option<u64>) -> Option<u16>
    ensures { result ≡ level_by is_negative units hundredths }
{
    let (Some(units), Some(hundredths)) = (units, hundredths) else {
        return None;
    };
    let number = units.checked_mul(100)?.checked_add(hundredths)?;
    signed16(is_negative, number)
}

/// A signed number in the two bytes of a level.
fn signed16(is_negative: bool, number: u64) -> Option<u16>
    ensures { result ≡ as_signed16 is_negative number }
{
    if is_negative {
        if number <= 32_768 {
            Some(((65_536 - number) % 65_536) as u16)
        } else {
            None
        }
    } else if number <= 32_766 {
        Some(number as u16)
    } else {
        None
    }
}

/// The tag of the field that a key names.
fn tag_of(key: &[u8]) -> Option<u8>
    ensures { result ≡ tag_named key.now }
{
    if key == b"description".as_slice() {
        Some(1)
    } else if key == b"originator".as_slice() {
        Some(2)
    } else if key == b"reference".as_slice() {
        Some(3)
    } else if key == b"date".as_slice() {
        Some(4)
    } else if key == b"clock".as_slice() {
        Some(5)
    } else if key == b"time".as_slice() {
        Some(6)
    } else if key == b"umid".as_slice() {
        Some(7)
    } else if key == b"value".as_slice() {
        Some(8)
    } else if key == b"range".as_slice() {
        Some(9)
    } else if key == b"peak".as_slice() {
        Some(10)
    } else if key == b"momentary".as_slice() {
        Some(11)
    } else if key == b"short".as_slice() {
        Some(12)
    } else {
        None
    }
}
