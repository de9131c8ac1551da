//! What the numbers of a `fmt ` chunk mean.
ghost use Rattle.std.specs.Prelude.{◌≡◌, ◌<◌, ◌≤◌, ◌++◌, length, slice_index_or, slice_range, []};
ghost use Rattle.std.specs.Prelude.{OnOk, codes, ◌==◌};
ghost use Rattle.hex.specs.Hex.{encode_lower};
ghost use Rattle.bw_contents.specs.Formats.{extension_says, format_says, guid_name, guid_text, speakers_says};
ghost use Rattle.bw_contents.specs.Formats.{mask_text, prefixed, speaker_names, speaker_text, speakers_in};
ghost use Rattle.bw_contents.specs.Formats.{subformat_says, tag_name, tag_says};
ghost use Rattle.bw_contents.specs.Texts.{one_said};

use crate::content::{ChunkText, Kind, put_text};
use bw_model::{read_u16, read_u32};
use std::alloc::{AllocError, Global};

/// The format tag of WAVE_FORMAT_EXTENSIBLE.
const EXTENSIBLE: u16 = 0xfffe;

/// What follows the tag in a GUID that stands for one.
const TAG_GUID: [u8; 14] = [0, 0, 0, 0, 16, 0, 128, 0, 0, 170, 0, 56, 155, 113];

/// Appends what a `fmt ` chunk with this content says.
pub(crate) fn put_format(
    alloc: Global,
    contents: &mut Vec<ChunkText>,
    bytes: &[u8],
) -> Result<(), AllocError>
    ensures { OnOk result (contents.new.items ≡ contents.old.items ++ format_says bytes.now) }
{
    if bytes.len() < 16 {
        Ok(())
    } else {
        put_numbers(alloc, contents, bytes)
    }
}

/// Appends what the numbers of a `fmt ` chunk with this content say.
fn put_numbers(alloc: Global, contents: &mut Vec<ChunkText>, bytes: &[u8]) -> Result<(), AllocError>
    requires { 16 ≤ length bytes.now }
    ensures { OnOk result (contents.new.items
        ≡ contents.old.items ++ (tag_says bytes.now ++ extension_says bytes.now)) }
{
    put_tag(alloc, contents, read_u16(bytes, 0))?;
    put_extension(alloc, contents, bytes)?;
    Ok(())
}

/// Appends the name of a tag.
fn put_tag(alloc: Global, contents: &mut Vec<ChunkText>, tag: u16) -> Result<(), AllocError>
    ensures { OnOk result (contents.new.items ≡ contents.old.items
        ++ one_said Kind.Tag (prefixed (codes "WAVE_FORMAT_") (tag_name tag))) }
{
    let mut text = Vec::new(alloc);
    put_named(&mut text, "WAVE_FORMAT_", tag_name(tag))?;
    put_text(alloc, contents, Kind::Tag, text.as_slice())
}

/// Appends what the extension of a `fmt ` chunk says, if it has one.
fn put_extension(
    alloc: Global,
    contents: &mut Vec<ChunkText>,
    bytes: &[u8],
) -> Result<(), AllocError>
    requires { 16 ≤ length bytes.now }
    ensures { OnOk result (contents.new.items ≡ contents.old.items ++ extension_says bytes.now) }
{
    if read_u16(bytes, 0) == EXTENSIBLE && bytes.len() >= 40 {
        put_fields(alloc, contents, bytes)
    } else {
        Ok(())
    }
}

/// Appends the speakers and the subformat.
fn put_fields(alloc: Global, contents: &mut Vec<ChunkText>, bytes: &[u8]) -> Result<(), AllocError>
    requires { 40 ≤ length bytes.now }
    ensures { OnOk result (contents.new.items
        ≡ contents.old.items ++ (speakers_says bytes.now ++ subformat_says bytes.now)) }
{
    put_channels(alloc, contents, bytes)?;
    put_subformat(alloc, contents, &bytes[24..40])?;
    Ok(())
}

/// Appends the speakers, by the channel mask.
fn put_channels(
    alloc: Global,
    contents: &mut Vec<ChunkText>,
    bytes: &[u8],
) -> Result<(), AllocError>
    requires { 40 ≤ length bytes.now }
    ensures { OnOk result (contents.new.items ≡ contents.old.items ++ speakers_says bytes.now) }
{
    let mut text = Vec::new(alloc);
    put_mask(alloc, &mut text, bytes)?;
    put_text(alloc, contents, Kind::Speakers, text.as_slice())
}

/// Appends a subformat, by its GUID.
fn put_subformat(
    alloc: Global,
    contents: &mut Vec<ChunkText>,
    guid: &[u8],
) -> Result<(), AllocError>
    requires { length guid.now ≡ 16 }
    ensures { OnOk result (contents.new.items ≡ contents.old.items
        ++ one_said Kind.Subformat (guid_text guid.now ++ guid_name guid.now)) }
{
    let mut text = Vec::new(alloc);
    put_guid(alloc, &mut text, guid)?;
    put_guid_name(&mut text, guid)?;
    put_text(alloc, contents, Kind::Subformat, text.as_slice())
}

/// What follows WAVE_FORMAT_ in the name of a tag, or nothing.
fn tag_name(tag: u16) -> &'static str
    ensures { result.now ≡ tag_name tag }
{
    if tag == 1 {
        "PCM"
    } else if tag == 3 {
        "IEEE_FLOAT"
    } else if tag == 6 {
        "ALAW"
    } else if tag == 7 {
        "MULAW"
    } else if tag == EXTENSIBLE {
        "EXTENSIBLE"
    } else {
        ""
    }
}

/// Appends a name, if there is one, after what it begins with.
fn put_named(text: &mut Vec<u8>, prefix: &str, name: &str) -> Result<(), AllocError>
    ensures { OnOk result (text.new.items ≡ text.old.items ++ prefixed prefix.now name.now) }
{
    if name.is_empty() {
        return Ok(());
    }
    text.extend_from_slice(prefix.as_bytes())?;
    text.extend_from_slice(name.as_bytes())
}

/// Appends bytes as hex digits.
fn put_digits(alloc: Global, text: &mut Vec<u8>, bytes: &[u8]) -> Result<(), AllocError>
    ensures { OnOk result (text.new.items ≡ text.old.items ++ encode_lower bytes.now) }
{
    let digits = hex::encode(alloc, bytes)?;
    text.extend_from_slice(digits.as_bytes())
}

/// Appends a hyphen and bytes as hex digits.
fn put_group(alloc: Global, text: &mut Vec<u8>, bytes: &[u8]) -> Result<(), AllocError>
    ensures { OnOk result (text.new.items
        ≡ text.old.items ++ (codes "-" ++ encode_lower bytes.now)) }
{
    text.extend_from_slice(b"-")?;
    put_digits(alloc, text, bytes)
}

/// Appends a GUID: three little-endian numbers and eight bytes.
fn put_guid(alloc: Global, text: &mut Vec<u8>, guid: &[u8]) -> Result<(), AllocError>
    requires { length guid.now ≡ 16 }
    ensures { OnOk result (text.new.items ≡ text.old.items ++ guid_text guid.now) }
{
    put_digits(alloc, text, &[guid[3], guid[2], guid[1], guid[0]])?;
    put_group(alloc, text, &[guid[5], guid[4]])?;
    put_group(alloc, text, &[guid[7], guid[6]])?;
    put_group(alloc, text, &[guid[8], guid[9]])?;
    let last = [guid[10], guid[11], guid[12], guid[13], guid[14], guid[15]];
    put_group(alloc, text, &last)?;
    Ok(())
}

/// Appends the name of the tag that a GUID stands for, if it does.
fn put_guid_name(text: &mut Vec<u8>, guid: &[u8]) -> Result<(), AllocError>
    requires { length guid.now ≡ 16 }
    ensures { OnOk result (text.new.items ≡ text.old.items ++ guid_name guid.now) }
{
    if guid[2..16] != TAG_GUID[..] {
        return Ok(());
    }
    put_named(text, " KSDATAFORMAT_SUBTYPE_", tag_name(read_u16(guid, 0)))
}

/// Appends a channel mask, as hex digits and by its speakers.
fn put_mask(alloc: Global, text: &mut Vec<u8>, bytes: &[u8]) -> Result<(), AllocError>
    requires { 40 ≤ length bytes.now }
    ensures { OnOk result (text.new.items ≡ text.old.items ++ mask_text bytes.now) }
{
    put_digits(alloc, text, &[bytes[23], bytes[22], bytes[21], bytes[20]])?;
    put_speakers(text, read_u32(bytes, 20))?;
    Ok(())
}

/// Appends the names of the speakers in a mask, each after a space.
fn put_speakers(text: &mut Vec<u8>, mask: u32) -> Result<(), AllocError>
    ensures { OnOk result (text.new.items
        ≡ text.old.items ++ speakers_in speaker_names mask) }
{
    let mut rest = mask;
    for bit in 0..18 {
        put_speaker(text, speaker_name(bit), rest % 2)?;
        rest /= 2;
    }
    Ok(())
}

/// Appends a space and the name of a speaker whose bit is set.
fn put_speaker(text: &mut Vec<u8>, name: &str, bit: u32) -> Result<(), AllocError>
    ensures { OnOk result (text.new.items ≡ text.old.items ++ speaker_text name.now bit) }
{
    if bit != 1 {
        return Ok(());
    }
    text.extend_from_slice(b" ")?;
    text.extend_from_slice(name.as_bytes())
}

/// The name of the speaker of a bit.
fn speaker_name(bit: u32) -> &'static str
    requires { bit < 18 }
    ensures { result.now ≡ slice_index_or speaker_names bit [] }
{
    match bit {
        0 => "FL",
        1 => "FR",
        2 => "FC",
        3 => "LFE",
        4 => "BL",
        5 => "BR",
        6 => "FLC",
        7 => "FRC",
        8 => "BC",
        9 => "SL",
        10 => "SR",
        11 => "TC",
        12 => "TFL",
        13 => "TFC",
        14 => "TFR",
        15 => "TBL",
        16 => "TBC",
        _ => "TBR",
    }
}
