//! The settings that fill fields, as texts.
ghost use Rattle.std.specs.Prelude.{◌≡◌, ◌++◌, ◌∷◌, ◌*◌, ◌/◌, ◌%◌, ℕ, List, IfOk, OnOk, length, map};
ghost use Rattle.std.specs.Prelude.{string_bytes, codes, decimal};
ghost use Rattle.bw_operators.specs.Times.{IsTimeText};
ghost use Rattle.bw_live.specs.Defaults.{begun_fields, coding_history, mode_of, origin_reference};
ghost use Rattle.bw_live.specs.Defaults.{samples_since_midnight};
ghost use Rattle.bw_live.specs.Defaults.{steady_fields};

use bw_operators::time_text;
use bw_ports::Purpose;
use itoa::Buffer;
use std::alloc::{AllocError, Global};

/// The milliseconds of a day.
const DAY: u64 = 86_400_000;

/// How many of the last bytes of a take's name a reference has.
const NAME_PART: usize = 17;

/// The settings that are the same in each run: originator and coding history.
///
/// # Errors
/// `AllocError` if memory was refused.
pub(crate) fn steady_texts(alloc: Global, take: &Purpose<'_>) -> Result<Vec<String>, AllocError>
    ensures { IfOk result (λ v. map string_bytes v.items
        ≡ steady_fields take.now.rate take.now.channels take.now.bits) }
{
    let mut texts = Vec::new(alloc);
    texts.push(String::from_str(alloc, "originator=bwingest")?)?;
    texts.push(history_text(alloc, take)?)?;
    Ok(texts)
}

/// These, and the settings of a recording that was begun so many milliseconds after the start of 1970 (UTC).
///
/// # Errors
/// `AllocError` if memory was refused.
pub(crate) fn begun_texts(
    alloc: Global,
    moment: u64,
    take: &Purpose<'_>,
) -> Result<Vec<String>, AllocError>
    ensures { IfOk result (λ v. (time : List ℕ) × IsTimeText moment time × (map string_bytes v.items
        ≡ steady_fields take.now.rate take.now.channels take.now.bits
        ++ begun_fields time moment take.now.name.now take.now.rate)) }
{
    let time = time_text(moment);
    let mut texts = steady_texts(alloc, take)?;
    texts.push(reference_text(alloc, &time, take.name)?)?;
    texts.push(text_of(alloc, b"date=", &time[..10])?)?;
    texts.push(text_of(alloc, b"clock=", &time[11..19])?)?;
    texts.push(samples_text(alloc, moment, take.rate)?)?;
    Ok(texts)
}

/// The setting of the coding history.
///
/// # Errors
/// `AllocError` if memory was refused.
fn history_text(alloc: Global, take: &Purpose<'_>) -> Result<String, AllocError>
    ensures { IfOk result (λ text. string_bytes text
        ≡ codes "history=" ++ coding_history take.now.rate take.now.channels take.now.bits) }
{
    let mut text = String::from_str(alloc, "history=A=PCM,F=")?;
    text.push_str(Buffer::new().format(take.rate))?;
    text.push_str(",W=")?;
    text.push_str(Buffer::new().format(take.bits))?;
    text.push_str(",M=")?;
    text.push_str(mode_of(take.channels))?;
    text.push_str(",T=bwingest\r\n")?;
    Ok(text)
}

/// The mode of so many channels.
fn mode_of(channels: u32) -> &'static str
    ensures { result.now ≡ mode_of channels }
{
    match channels {
        1 => "mono",
        2 => "stereo",
        _ => "multichannel",
    }
}

/// The setting of the reference of a take with this name, begun at this time.
///
/// # Errors
/// `AllocError` if memory was refused.
fn reference_text(alloc: Global, time: &[u8; 24], name: &[u8]) -> Result<String, AllocError>
    ensures { IfOk result (λ text. string_bytes text
        ≡ codes "reference=" ++ origin_reference time.now name.now) }
{
    let mut bytes = Vec::from_slice(alloc, &time[..4])?;
    bytes.extend_from_slice(&time[5..7])?;
    bytes.extend_from_slice(&time[8..10])?;
    bytes.extend_from_slice(&time[11..13])?;
    bytes.extend_from_slice(&time[14..16])?;
    bytes.extend_from_slice(&time[17..19])?;
    bytes.extend_from_slice(b"-")?;
    bytes.extend_from_slice(&name[name.len().saturating_sub(NAME_PART)..])?;
    text_of(alloc, b"reference=", bytes.as_slice())
}

/// The setting of the samples since midnight, at so many a second.
///
/// # Errors
/// `AllocError` if memory was refused.
fn samples_text(alloc: Global, moment: u64, rate: u32) -> Result<String, AllocError>
    ensures { IfOk result (λ text. string_bytes text
        ≡ codes "time=" ++ decimal (samples_since_midnight moment rate)) }
{
    let samples = moment % DAY * u64::from(rate) / 1000;
    let mut text = String::from_str(alloc, "time=")?;
    text.push_str(Buffer::new().format(samples))?;
    Ok(text)
}

/// The setting with this key, which ends with `=`, and value.
///
/// # Errors
/// `AllocError` if memory was refused. Bytes that aren't UTF-8 are an `AllocError` too: times and names have
/// none.
fn text_of(alloc: Global, key: &[u8], value: &[u8]) -> Result<String, AllocError>
    ensures { IfOk result (λ text. string_bytes text ≡ key.now ++ value.now) }
{
    let mut bytes = Vec::from_slice(alloc, key)?;
    bytes.extend_from_slice(value)?;
    match String::from_utf8(bytes) {
        Ok(text) => Ok(text),
        Err(_) => Err(AllocError),
    }
}
