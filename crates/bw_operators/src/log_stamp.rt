//! A time as a text in UTC.
ghost use Rattle.std.specs.Prelude.{◌≡◌, ◌+◌, ◌%◌, ◌<◌, ◌≤◌};
ghost use Rattle.bw_operators.specs.Dates.{IsDateOf, IsDayOfMonth, IsDayOfYear, february_length, is_leap};
ghost use Rattle.bw_operators.specs.Dates.{month_length, year_length};
ghost use Rattle.bw_operators.specs.Times.{IsTimeText};

/// The milliseconds of a day.
const DAY: u64 = 86_400_000;

/// The last day of the year 9999, counted from 1970-01-01.
const LAST_DAY: u64 = 2_932_896;

/// A day of the calendar.
#[derive(Clone, Copy)]
struct Date {
    year: u32,
    /// 1 to 12.
    month: u32,
    /// 1 to 31.
    day: u32,
}

/// The text of the time so many milliseconds after the start of 1970, as RFC 3339 has it:
/// `2026-11-29T08:31:27.123Z`. Of a day after the year 9999 it is the same time of that year's last day.
pub fn time_text(milliseconds: u64) -> [u8; 24]
    ensures { IsTimeText milliseconds result }
{
    let date = date_of((milliseconds / DAY).min(LAST_DAY) as u32);
    let ms = (milliseconds % DAY) as u32;
    [
        digit(date.year / 1000),
        digit(date.year / 100),
        digit(date.year / 10),
        digit(date.year),
        b'-',
        digit(date.month / 10),
        digit(date.month),
        b'-',
        digit(date.day / 10),
        digit(date.day),
        b'T',
        digit(ms / 3_600_000 / 10),
        digit(ms / 3_600_000),
        b':',
        digit(ms / 60_000 % 60 / 10),
        digit(ms / 60_000 % 60),
        b':',
        digit(ms / 1000 % 60 / 10),
        digit(ms / 1000 % 60),
        b'.',
        digit(ms % 1000 / 100),
        digit(ms % 1000 / 10),
        digit(ms % 1000),
        b'Z',
    ]
}

/// The last digit of a number.
fn digit(number: u32) -> u8
    ensures { result ≡ 48 + number % 10 }
{
    b'0' + (number % 10) as u8
}

/// The date so many days after 1970-01-01.
fn date_of(days: u32) -> Date
    requires { days ≤ 2_932_896 }
    ensures { IsDateOf days result.year result.month result.day }
{
    let (year, left) = year_of(days);
    let (month, left) = month_of(year, left);
    Date {
        year,
        month,
        day: left + 1,
    }
}

/// The year so many days after 1970-01-01, and the day of it, counted from 0.
fn year_of(days: u32) -> (u32, u32)
    requires { days ≤ 2_932_896 }
    ensures { IsDayOfYear days result.0 result.1 }
{
    let mut year = 1970;
    let mut left = days;
    while left >= year_length(year) {
        left -= year_length(year);
        year += 1;
    }
    (year, left)
}

/// The month of a day of a year, 1 to 12, and the day of it; both days are counted from 0.
fn month_of(year: u32, days: u32) -> (u32, u32)
    requires { days < year_length year }
    ensures { IsDayOfMonth year days result.0 result.1 }
{
    let mut month = 1;
    let mut left = days;
    while left >= month_length(year, month) {
        left -= month_length(year, month);
        month += 1;
    }
    (month, left)
}

/// How many days a year has.
fn year_length(year: u32) -> u32
    ensures { result ≡ year_length year }
{
    if is_leap(year) { 366 } else { 365 }
}

/// How many days a month of a year has.
fn month_length(year: u32, month: u32) -> u32
    ensures { result ≡ month_length year month }
{
    match month {
        2 => february_length(year),
        4 | 6 | 9 | 11 => 30,
        _ => 31,
    }
}

fn february_length(year: u32) -> u32
    ensures { result ≡ february_length year }
{
    if is_leap(year) { 29 } else { 28 }
}

/// Whether a year has a 29th of February.
fn is_leap(year: u32) -> bool
    ensures { result ≡ is_leap year }
{
    year % 4 == 0 && (year % 100 != 0 || year % 400 == 0)
}
