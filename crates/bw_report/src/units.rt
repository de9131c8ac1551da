//! Numbers with their units, by whole numbers alone.
ghost use Rattle.std.specs.Prelude.{◌≡◌, ◌+◌, ◌*◌, ◌/◌, ◌%◌, ◌^◌, ◌<◌, ◌≤◌, ◌++◌, OnOk, decimal};
ghost use Rattle.bw_report.specs.UnitTexts.{clock_text, hundredths_text, level_text, size_text};
ghost use Rattle.bw_report.specs.UnitTexts.{three_digits, time_text, two_digits, with_part};

use itoa::Buffer;
use std::alloc::AllocError;

/// Appends the decimal digits of a number.
///
/// # Errors
/// `AllocError` if memory was refused: a prefix may have been appended.
pub fn put_number(text: &mut Vec<u8>, number: u64) -> Result<(), AllocError>
    ensures { OnOk result (text.new.items ≡ text.old.items ++ decimal number) }
{
    let mut digits = Buffer::new();
    text.extend_from_slice(digits.format(number).as_bytes())
}

/// Appends a number and what follows it, as its unit.
pub(crate) fn put_count(text: &mut Vec<u8>, number: u64, unit: &str) -> Result<(), AllocError>
    ensures { OnOk result (text.new.items ≡ text.old.items ++ decimal number ++ unit.now) }
{
    put_number(text, number)?;
    text.extend_from_slice(unit.as_bytes())
}

/// Appends a duration or a time of day in milliseconds as hours, minutes and seconds: `1:02:03.456`,
/// or `unknown`.
///
/// # Errors
/// `AllocError` if memory was refused: a prefix may have been appended.
pub fn put_time(text: &mut Vec<u8>, ms: Option<u64>) -> Result<(), AllocError>
    ensures { OnOk result (text.new.items ≡ text.old.items ++ time_text ms) }
{
    match ms {
        Some(ms) => put_clock(text, ms),
        None => text.extend_from_slice(b"unknown"),
    }
}

fn put_clock(text: &mut Vec<u8>, ms: u64) -> Result<(), AllocError>
    ensures { OnOk result (text.new.items ≡ text.old.items ++ clock_text ms) }
{
    put_number(text, ms / 3_600_000)?;
    text.extend_from_slice(b":")?;
    put_two_digits(text, ms / 60_000 % 60)?;
    text.extend_from_slice(b":")?;
    put_two_digits(text, ms / 1000 % 60)?;
    text.extend_from_slice(b".")?;
    put_three_digits(text, ms % 1000)
}

/// Appends a level of `bext`, 100 times its value, with its unit: a signed 16-bit number by its
/// bits, as `-23.00 LUFS`, or `unset` for 7FFFh, which means not given.
pub(crate) fn put_level(text: &mut Vec<u8>, level: u16, unit: &str) -> Result<(), AllocError>
    ensures { OnOk result (text.new.items ≡ text.old.items ++ level_text unit.now level) }
{
    if level == 0x7fff {
        return text.extend_from_slice(b"unset");
    }
    if level < 0x8000 {
        return put_hundredths(text, level.into(), unit);
    }
    text.extend_from_slice(b"-")?;
    put_hundredths(text, 0x1_0000 - u64::from(level), unit)
}

fn put_hundredths(text: &mut Vec<u8>, number: u64, unit: &str) -> Result<(), AllocError>
    ensures { OnOk result (text.new.items ≡ text.old.items ++ hundredths_text unit.now number) }
{
    put_with_part(text, number / 100, number % 100)?;
    text.extend_from_slice(b" ")?;
    text.extend_from_slice(unit.as_bytes())
}

/// Appends a number of bytes in the largest unit of which there is one, with two decimals that are
/// rounded down: `3.91 KiB`.
pub(crate) fn put_size(text: &mut Vec<u8>, size: u64) -> Result<(), AllocError>
    ensures { OnOk result (text.new.items ≡ text.old.items ++ size_text size) }
{
    if size < 0x400 {
        put_count(text, size, " B")
    } else if size < 0x10_0000 {
        put_in_unit(text, size, 0x400, " KiB")
    } else if size < 0x4000_0000 {
        put_in_unit(text, size, 0x10_0000, " MiB")
    } else {
        put_in_unit(text, size, 0x4000_0000, " GiB")
    }
}

/// Appends a number of bytes in a unit of so many bytes, rounded down to hundredths.
fn put_in_unit(text: &mut Vec<u8>, size: u64, unit: u64, name: &str) -> Result<(), AllocError>
    requires some { 0 < unit }
    requires small { unit ≤ 2 ^ 30 }
    ensures { OnOk result (text.new.items
        ≡ text.old.items ++ with_part (size / unit) (size % unit * 100 / unit) ++ name.now) }
{
    put_with_part(text, size / unit, size % unit * 100 / unit)?;
    text.extend_from_slice(name.as_bytes())
}

/// Appends a number and its hundredths.
fn put_with_part(text: &mut Vec<u8>, whole: u64, part: u64) -> Result<(), AllocError>
    requires { part < 100 }
    ensures { OnOk result (text.new.items ≡ text.old.items ++ with_part whole part) }
{
    put_number(text, whole)?;
    text.extend_from_slice(b".")?;
    put_two_digits(text, part)
}

fn put_two_digits(text: &mut Vec<u8>, number: u64) -> Result<(), AllocError>
    requires { number < 100 }
    ensures { OnOk result (text.new.items ≡ text.old.items ++ two_digits number) }
{
    text.extend_from_slice(&[digit(number / 10), digit(number % 10)])
}

fn put_three_digits(text: &mut Vec<u8>, number: u64) -> Result<(), AllocError>
    requires { number < 1000 }
    ensures { OnOk result (text.new.items ≡ text.old.items ++ three_digits number) }
{
    let digits = [
        digit(number / 100),
        digit(number / 10 % 10),
        digit(number % 10),
    ];
    text.extend_from_slice(&digits)
}

fn digit(number: u64) -> u8
    requires { number < 10 }
    ensures { result ≡ 48 + number }
{
    b'0' + number as u8
}
