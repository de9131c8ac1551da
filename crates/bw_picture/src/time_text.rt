//! Numbers and times as text.
ghost use Rattle.std.specs.Prelude.{◌≡◌, ◌+◌, ◌^◌, ◌<◌, ◌++◌, OnOk, decimal};
ghost use Rattle.bw_picture.specs.TimeTexts.{axis_clock, three_places, frame_time, two_places};

use itoa::Buffer;
use std::alloc::AllocError;

/// Appends the decimal digits of a number.
pub(crate) fn put_number(text: &mut Vec<u8>, number: u64) -> Result<(), AllocError>
    ensures { OnOk result (text.new.items ≡ text.old.items ++ decimal number) }
{
    let mut digits = Buffer::new();
    text.extend_from_slice(digits.format(number).as_bytes())?;
    Ok(())
}

/// Appends the time of a frame at this rate, rounded down to milliseconds, as hours, minutes and
/// seconds: `1:02:03.456`; `unknown` for a rate of 0.
pub(crate) fn put_time(text: &mut Vec<u8>, frame: u64, rate: u32) -> Result<(), AllocError>
    requires { frame < 2 ^ 54 }
    ensures { OnOk result (text.new.items ≡ text.old.items ++ frame_time frame rate) }
{
    if rate == 0 {
        text.extend_from_slice(b"unknown")?;
        return Ok(());
    }
    put_clock(text, frame * 1000 / rate as u64)
}

fn put_clock(text: &mut Vec<u8>, ms: u64) -> Result<(), AllocError>
    ensures { OnOk result (text.new.items ≡ text.old.items ++ axis_clock ms) }
{
    put_number(text, ms / 3_600_000)?;
    text.extend_from_slice(b":")?;
    put_two_digits(text, ms / 60_000 % 60)?;
    text.extend_from_slice(b":")?;
    put_two_digits(text, ms / 1000 % 60)?;
    text.extend_from_slice(b".")?;
    put_three_digits(text, ms % 1000)
}

fn put_two_digits(text: &mut Vec<u8>, number: u64) -> Result<(), AllocError>
    requires { number < 100 }
    ensures { OnOk result (text.new.items ≡ text.old.items ++ two_places number) }
{
    text.extend_from_slice(&[digit(number / 10), digit(number % 10)])?;
    Ok(())
}

fn put_three_digits(text: &mut Vec<u8>, number: u64) -> Result<(), AllocError>
    requires { number < 1000 }
    ensures { OnOk result (text.new.items ≡ text.old.items ++ three_places number) }
{
    let digits = [
        digit(number / 100),
        digit(number / 10 % 10),
        digit(number % 10),
    ];
    text.extend_from_slice(&digits)?;
    Ok(())
}

fn digit(number: u64) -> u8
    requires { number < 10 }
    ensures { result ≡ 48 + number }
{
    b'0' + number as u8
}
