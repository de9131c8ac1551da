//! Worked rows of the published layouts, and each call once.
ghost use Rattle.std.specs.Prelude.{◌^◌, ◌≤◌};

use crate::tests::compare::same;
use bw_layout::*;
use std::alloc::{AllocError, Global};
use std::test::Fail;

/// These bytes, one piece after another.
fn joined(alloc: Global, pieces: &[&[u8]]) -> Result<Vec<u8>, AllocError> {
    let mut bytes = Vec::new(alloc);
    for piece in pieces {
        bytes.extend_from_slice(piece)?;
    }
    Ok(bytes)
}

/// The header of a take at 48,000 Hz with one channel of 16 bits and an empty history.
fn header_of(alloc: Global, bext: &Bext, data_len: u64, limit: Limit) -> Result<Vec<u8>, Fail>
    requires { data_len ≤ 2 ^ 62 }
{
    let fmt = Fmt::new(48_000, 1, 16).ok_or("a format")?;
    let mut out = Vec::new(alloc);
    header(alloc, &mut out, &fmt, bext, b"", data_len, 0, limit)?;
    Ok(out)
}

static ZEROS: [u8; 346] = [0; 346];

static FMT_CHUNK: [u8; 24] = *b"fmt \x10\0\0\0\x01\0\x01\0\x80\xbb\0\0\0\x77\x01\0\x02\0\x10\0";

const JUNK_CHUNK: [u8; 36] =
    *b"JUNK\x1c\0\0\0\0\0\0\0\0\0\0\0\0\0\0\0\0\0\0\0\0\0\0\0\0\0\0\0\0\0\0\0";

const DS64_CHUNK: [u8; 36] =
    *b"ds64\x1c\0\0\0\0\0\0\0\x01\0\0\0\x55\xfd\xff\xff\0\0\0\0\0\0\0\0\0\0\0\0\0\0\0\0";

/// A length of data, with the outer header, the chunk after it, and the head of the data.
static HEADERS: [(u64, [u8; 12], [u8; 36], [u8; 8]); 4] = [
    (4, *b"RIFF\xae\x02\0\0WAVE", JUNK_CHUNK, *b"data\x04\0\0\0"),
    (
        4_294_966_612,
        *b"RIFF\xfe\xff\xff\xffWAVE",
        JUNK_CHUNK,
        *b"data\x54\xfd\xff\xff",
    ),
    (
        4_294_966_611,
        *b"RIFF\xfe\xff\xff\xffWAVE",
        JUNK_CHUNK,
        *b"data\x53\xfd\xff\xff",
    ),
    (
        4_294_966_613,
        *b"BW64\xff\xff\xff\xffWAVE",
        DS64_CHUNK,
        *b"data\xff\xff\xff\xff",
    ),
];

#[test]
fn a_header_is_riff_up_to_the_limit_and_then_bw64(rt: HostRuntime) -> Result<(), Fail> {
    for (data_len, outer, first, data_head) in &HEADERS {
        assert!(rt; *data_len <= 1 << 62);
        let out = header_of(rt.alloc(), &Bext::new(), *data_len, Limit::default())?;
        let pieces = [
            outer.as_slice(),
            first.as_slice(),
            FMT_CHUNK.as_slice(),
            b"bext\x5a\x02\0\0".as_slice(),
            ZEROS.as_slice(),
            &[1, 0],
            &ZEROS[..254],
            data_head.as_slice(),
        ];
        let want = joined(rt.alloc(), pieces.as_slice())?;
        same(&rt, *data_len, &out, &want);
    }
    Ok(())
}

#[test]
fn an_odd_history_has_a_pad_byte(rt: HostRuntime) -> Result<(), Fail> {
    let fmt = Fmt::new(48_000, 1, 16).ok_or("a format")?;
    let mut out = Vec::new(rt.alloc());
    header(
        rt.alloc(),
        &mut out,
        &fmt,
        &Bext::new(),
        b"A=P",
        0,
        0,
        Limit::default(),
    )?;
    let pieces = [
        b"RIFF\xae\x02\0\0WAVE".as_slice(),
        JUNK_CHUNK.as_slice(),
        FMT_CHUNK.as_slice(),
        b"bext\x5d\x02\0\0".as_slice(),
        ZEROS.as_slice(),
        &[1, 0],
        &ZEROS[..254],
        b"A=P\0data\0\0\0\0",
    ];
    let want = joined(rt.alloc(), pieces.as_slice())?;
    same(&rt, "the header", &out, &want);
    Ok(())
}

/// Two bytes, at the second attempt if the first is refused memory.
fn two_bytes(alloc: Global) -> Result<Vec<u8>, AllocError> {
    match [7, 8].to_vec(alloc) {
        Ok(bytes) => Ok(bytes),
        Err(_) => [7, 8].to_vec(alloc),
    }
}

/// Run once more with each growth refused, by `tests/test_refused_calls.py --tests`.
#[test]
fn a_header_that_has_no_room_leaves_what_was_there(rt: HostRuntime) -> Result<(), Fail> {
    let fmt = Fmt::new(48_000, 1, 16).ok_or("a format")?;
    let mut out = two_bytes(rt.alloc())?;
    let answer = header(
        rt.alloc(),
        &mut out,
        &fmt,
        &Bext::new(),
        b"",
        0,
        0,
        Limit::default(),
    );
    let want = if answer.is_ok() { 692 } else { 2 };
    same(&rt, "the length", &out.len(), &want);
    out.truncate(2);
    same(&rt, "the front", &out.as_slice(), &[7, 8].as_slice());
    Ok(())
}

#[test]
fn a_given_loudness_makes_version_2(rt: HostRuntime) -> Result<(), Fail> {
    let mut bext = Bext::new();
    bext.set(8, b"\x04\xf7")?;
    let given = header_of(rt.alloc(), &bext, 4, Limit::default())?;
    let pieces = [
        b"RIFF\xae\x02\0\0WAVE".as_slice(),
        JUNK_CHUNK.as_slice(),
        FMT_CHUNK.as_slice(),
        b"bext\x5a\x02\0\0".as_slice(),
        ZEROS.as_slice(),
        &[2, 0],
        &ZEROS[..64],
        b"\x04\xf7\xff\x7f\xff\x7f\xff\x7f\xff\x7f",
        &ZEROS[..180],
        b"data\x04\0\0\0",
    ];
    let want = joined(rt.alloc(), pieces.as_slice())?;
    same(&rt, "the header", &given, &want);
    Ok(())
}

#[test]
fn a_loudness_that_is_taken_back_leaves_no_trace(rt: HostRuntime) -> Result<(), Fail> {
    let mut bext = Bext::new();
    bext.set(8, b"\x04\xf7")?;
    bext.set(8, b"")?;
    let taken_back = header_of(rt.alloc(), &bext, 4, Limit::default())?;
    let never = header_of(rt.alloc(), &Bext::new(), 4, Limit::default())?;
    same(&rt, "a loudness taken back", &taken_back, &never);
    Ok(())
}

/// The tag of a field, a value, and why it is invalid.
static VALUES: [(u8, &[u8], Option<FieldError>); 14] = [
    (1, b"Rain", None),
    (2, b"", None),
    (4, b"2024-05-01", None),
    (5, b"09:30:00", None),
    (6, &[1, 0, 0, 0, 0, 0, 0, 0], None),
    (0, b"", Some(FieldError::Tag)),
    (13, b"", Some(FieldError::Tag)),
    (3, &[b'a'; 33], Some(FieldError::Length)),
    (4, b"2024-5-1", Some(FieldError::Length)),
    (4, b"2024-05-1x", Some(FieldError::Text)),
    (6, b"", Some(FieldError::Length)),
    (7, b"\0", Some(FieldError::Length)),
    (12, b"\0", Some(FieldError::Length)),
    (1, b"\x7f", Some(FieldError::Text)),
];

#[test]
fn a_field_is_set_or_reported_why_not(rt: HostRuntime) -> Result<(), Fail> {
    let mut bext = Bext::new();
    for (tag, value, error) in &VALUES {
        same(&rt, *tag, &bext.set(*tag, value).err(), error);
    }
    let mut out = Vec::new(rt.alloc());
    put_bext(rt.alloc(), &mut out, &bext, b"")?;
    let pieces = [
        b"Rain".as_slice(),
        &ZEROS[..252],
        &ZEROS[..64],
        b"2024-05-0109:30:00",
        &[1, 0, 0, 0, 0, 0, 0, 0],
        &[1, 0],
        &ZEROS[..254],
    ];
    let want = joined(rt.alloc(), pieces.as_slice())?;
    same(&rt, "the fields", &out, &want);
    Ok(())
}

#[test]
fn the_fields_of_bext_are_read(rt: HostRuntime) -> Result<(), Fail> {
    let pieces = [
        b"Rain".as_slice(),
        &ZEROS[..316],
        b"2024-05-0109:30:00",
        &[1, 0, 0, 0, 0, 0, 0, 0],
        &[2, 0],
        &ZEROS[..64],
        b"\x04\xf7\xff\x7f\xff\x7f\xff\x7f\xff\x7f",
        &ZEROS[..180],
    ];
    let bytes = joined(rt.alloc(), pieces.as_slice())?;
    let raw = read_bext(&bytes)?;
    same(&rt, "the date", &raw.origination_date, b"2024-05-01");
    same(&rt, "the time", &raw.origination_time, b"09:30:00");
    same(&rt, "the time reference", &raw.time_reference, &1);
    same(&rt, "the version", &raw.version, &2);
    let unset = 0x7fff;
    let loudness = Loudness {
        value: 0xf704,
        range: unset,
        max_true_peak: unset,
        max_momentary: unset,
        max_short_term: unset,
    };
    same(&rt, "the loudness", &raw.loudness, &Some(loudness));
    same(
        &rt,
        "one byte less",
        &read_bext(&[0; 601]).err(),
        &Some(Short),
    );
    Ok(())
}

/// A `cue ` chunk with one cue point.
static CUE_CHUNK: [u8; 36] =
    *b"cue \x1c\0\0\0\x01\0\0\0\x07\0\0\0\x02\0\0\0data\0\0\0\0\0\0\0\0\x02\0\0\0";

#[test]
fn heads_and_cue_points_are_put_and_read(rt: HostRuntime) -> Result<(), Fail> {
    let head = ChunkHead {
        id: ChunkId(*b"cue "),
        size32: 28,
    };
    let mut out = Vec::new(rt.alloc());
    put_head(rt.alloc(), &mut out, head)?;
    put_cues(rt.alloc(), &mut out, &[CuePoint { id: 7, frame: 2 }])?;
    same(&rt, "the chunk", &out.as_slice(), &CUE_CHUNK.as_slice());
    let read = read_head(&CUE_CHUNK)?;
    same(&rt, "the id", &read.id, &head.id);
    same(&rt, "the size", &read.size32, &28);
    let cue = RawCue {
        id: 7,
        position: 2,
        offset: 2,
    };
    same(&rt, "the point", &read_cue(&CUE_CHUNK[12..]), &Ok(cue));
    same(
        &rt,
        "one byte less",
        &read_cue(&CUE_CHUNK[13..]),
        &Err(Short),
    );
    Ok(())
}

#[test]
fn a_format_is_put_and_read(rt: HostRuntime) -> Result<(), Fail> {
    let mut out = Vec::new(rt.alloc());
    let fmt = Fmt::new(48_000, 1, 16).ok_or("a format")?;
    put_fmt(rt.alloc(), &mut out, &fmt)?;
    same(&rt, "the format", &out.as_slice(), &&FMT_CHUNK[8..]);
    let raw = RawFmt {
        tag: 1,
        channels: 1,
        rate: 48_000,
        bytes_per_second: 96_000,
        align: 2,
        bits: 16,
    };
    same(&rt, "its numbers", &read_fmt(&FMT_CHUNK[8..]), &Ok(raw));
    Ok(())
}

/// The content of a `ds64` chunk with one entry.
static DS64: [u8; 40] =
    *b"\x5a\0\0\0\0\0\0\0\x04\0\0\0\0\0\0\0\0\0\0\0\0\0\0\0\x01\0\0\0LIST\x05\0\0\0\0\0\0\0";

#[test]
fn a_table_of_sizes_is_put_and_read(rt: HostRuntime) -> Result<(), Fail> {
    let entry = (ChunkId(*b"LIST"), 5);
    let sizes = Ds64 {
        form: 90,
        data_size: 4,
        table: SizeTable::new(vec![in rt.alloc(); entry]?),
    };
    let mut out = Vec::new(rt.alloc());
    put_ds64(rt.alloc(), &mut out, &sizes)?;
    same(&rt, "the sizes", &out.as_slice(), &DS64.as_slice());
    let fixed = Ds64Fixed {
        form: 90,
        data_size: 4,
        table_len: 1,
    };
    same(&rt, "the front", &read_ds64_fixed(&DS64), &Ok(fixed));
    same(&rt, "the entry", &read_entry(&DS64[28..]), &Ok(entry));
    same(
        &rt,
        "the table",
        &sizes.table.as_slice(),
        &[entry].as_slice(),
    );
    same(&rt, "its length", &sizes.table.into_entries().len(), &1);
    Ok(())
}

#[test]
fn sizes_are_patched_where_the_header_has_them(rt: HostRuntime) -> Result<(), Fail> {
    same(&rt, "the form without cues", &form_size(0, 7510, 0), &8192);
    same(&rt, "the form with one", &form_size(0, 7510, 1), &8228);
    let fmt = Fmt::new(48_000, 1, 16).ok_or("a format")?;
    let limit = Limit::new(8192).ok_or("a limit")?;
    let bext = Bext::new();
    let mut out = Vec::new(rt.alloc());
    header(rt.alloc(), &mut out, &fmt, &bext, b"", 7510, 1, limit)?;
    let patch = patch_sizes(8228, 7510);
    let want = b"\x24\x20\0\0\0\0\0\0\x56\x1d\0\0\0\0\0\0";
    same(&rt, "the sizes", &patch, want);
    out.truncate(36);
    let pieces = [
        b"BW64\xff\xff\xff\xffWAVEds64\x1c\0\0\0".as_slice(),
        patch.as_slice(),
    ];
    let want = joined(rt.alloc(), pieces.as_slice())?;
    same(&rt, "the header", &out, &want);
    Ok(())
}

/// A rate, channels and bits, and whether they are a format.
static FORMATS: [(u32, u16, u16, bool); 8] = [
    (1, 1, 16, true),
    (768_000, 64, 32, true),
    (44_100, 2, 24, true),
    (0, 1, 16, false),
    (768_001, 1, 16, false),
    (48_000, 0, 16, false),
    (48_000, 65, 16, false),
    (48_000, 1, 8, false),
];

#[test]
fn a_format_is_within_its_ranges(rt: HostRuntime) -> Result<(), Fail> {
    for (rate, channels, bits, allowed) in &FORMATS {
        let is_format = Fmt::new(*rate, *channels, *bits).is_some();
        same(&rt, *rate, &is_format, allowed);
    }
    let widest = Fmt::new(768_000, 64, 32).ok_or("a format")?;
    same(&rt, "the block align", &widest.block_align(), &256);
    same(&rt, "the byte rate", &widest.byte_rate(), &196_608_000);
    Ok(())
}

static LIMITS: [(u64, bool); 5] = [
    (8190, false),
    (8192, true),
    (8193, false),
    (4_294_967_294, true),
    (4_294_967_296, false),
];

#[test]
fn a_limit_is_even_and_within_its_range(rt: HostRuntime) {
    for (bytes, allowed) in &LIMITS {
        same(&rt, *bytes, &Limit::new(*bytes).is_some(), allowed);
    }
    let largest = Limit::default().bytes();
    same(&rt, "the largest", &largest, &4_294_967_294);
}

/// The tag of a field, and its place in the file.
static PLACES: [(u8, Option<(u64, u64)>); 10] = [
    (1, Some((80, 256))),
    (2, Some((336, 32))),
    (3, Some((368, 32))),
    (4, Some((400, 10))),
    (5, Some((410, 8))),
    (6, Some((418, 8))),
    (7, Some((428, 64))),
    (8, Some((426, 76))),
    (12, Some((426, 76))),
    (13, None),
];

#[test]
fn each_field_has_its_place(rt: HostRuntime) {
    for (tag, place) in &PLACES {
        same(&rt, *tag, &field_place(*tag), place);
    }
}
