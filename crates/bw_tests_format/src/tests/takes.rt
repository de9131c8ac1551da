//! What no clause says: values from the rules themselves, and calls that succeed.
ghost use Rattle.std.specs.Prelude.{◌≤◌, IsTrue};
ghost use Rattle.bw_model.specs.Wire.{is_request};
ghost use Rattle.bw_model.specs.Requests.{meaning};

use crate::tests::compare::same;
use bw_take::{Name, Request, RequestRef, TakeState, UnknownVerdict, Verdict, judge};
use std::alloc::{AllocError, Global};
use std::process::Abort;
use std::test::Fail;

/// 48,000 Hz, one channel, 16 bits: a frame has two bytes.
const MONO: RequestRef<'static> = RequestRef::OpenTake {
    rate: 48_000,
    channels: 1,
    bits: 16,
    history: b"",
};

/// Judges a request, and stores it if that is its verdict.
fn apply(state: &mut TakeState, request: RequestRef<'_>) -> Result<Verdict, AllocError> {
    state.reserve_for(1)?;
    let verdict = judge(state, &request);
    if verdict.is_stored() && request.fits() && state.data_len() < 1 << 32 {
        state.commit(&request);
    }
    Ok(verdict)
}

/// An open take after these requests.
fn mono_with(alloc: Global, requests: &[RequestRef<'_>]) -> Result<TakeState, AllocError> {
    let mut state = TakeState::new(alloc);
    apply(&mut state, MONO)?;
    for request in requests {
        apply(&mut state, *request)?;
    }
    Ok(state)
}

/// A rate, channels, bits and a history, and whether a take may be opened with them.
static OPENINGS: [(u32, u16, u16, &[u8], bool); 13] = [
    (0, 1, 16, b"", false),
    (1, 1, 16, b"", true),
    (768_000, 64, 32, b"", true),
    (768_001, 1, 16, b"", false),
    (48_000, 0, 16, b"", false),
    (48_000, 65, 16, b"", false),
    (48_000, 2, 8, b"", false),
    (48_000, 2, 20, b"", false),
    (48_000, 2, 24, b"A=PCM\r\n", true),
    (48_000, 2, 24, b"A=PCM\t", false),
    (48_000, 2, 24, &[31], false),
    (48_000, 2, 24, &[32, 126], true),
    (48_000, 2, 24, &[127], false),
];

#[test]
fn a_take_is_opened_with_an_allowed_format(rt: HostRuntime) {
    for (rate, channels, bits, history, allowed) in &OPENINGS {
        let request = RequestRef::OpenTake {
            rate: *rate,
            channels: *channels,
            bits: *bits,
            history,
        };
        let (first, taken) = if *allowed {
            (Verdict::Stored, Verdict::NameTaken)
        } else {
            (Verdict::BadFormat, Verdict::BadFormat)
        };
        let mut state = TakeState::new(rt.alloc());
        same(&rt, *rate, &judge(&state, &request), &first);
        state.set_taken();
        same(&rt, *rate, &judge(&state, &request), &taken);
    }
}

/// Requests on one take, in their order, and the verdict of each.
static VERDICTS: [(RequestRef<'static>, Verdict); 22] = [
    (RequestRef::Block { bytes: &[1] }, Verdict::NotOpen),
    (RequestRef::Mark { id: 7, frame: 9 }, Verdict::NotOpen),
    (
        RequestRef::SetField { tag: 0, value: b"" },
        Verdict::NotOpen,
    ),
    (RequestRef::CloseTake { frames: 0 }, Verdict::NotOpen),
    (MONO, Verdict::Stored),
    (
        RequestRef::OpenTake {
            rate: 0,
            channels: 0,
            bits: 0,
            history: b"\x7f",
        },
        Verdict::AlreadyOpen,
    ),
    (RequestRef::Block { bytes: &[1, 0, 2] }, Verdict::BadBlock),
    (
        RequestRef::Block {
            bytes: &[1, 0, 2, 0],
        },
        Verdict::Stored,
    ),
    (RequestRef::Mark { id: 7, frame: 3 }, Verdict::BadMarker),
    (RequestRef::Mark { id: 7, frame: 2 }, Verdict::Stored),
    (
        RequestRef::Mark { id: 7, frame: 1 },
        Verdict::DuplicateMarker,
    ),
    (RequestRef::Mark { id: 7, frame: 3 }, Verdict::BadMarker),
    (
        RequestRef::SetField {
            tag: 1,
            value: b"Rain",
        },
        Verdict::Stored,
    ),
    (
        RequestRef::SetField {
            tag: 4,
            value: b"2024-5-1",
        },
        Verdict::BadField,
    ),
    (
        RequestRef::SetField {
            tag: 13,
            value: b"",
        },
        Verdict::BadField,
    ),
    (RequestRef::CloseTake { frames: 3 }, Verdict::WrongTotal),
    (RequestRef::CloseTake { frames: 2 }, Verdict::Stored),
    (MONO, Verdict::Closed),
    (RequestRef::Block { bytes: &[1] }, Verdict::Closed),
    (RequestRef::Mark { id: 7, frame: 9 }, Verdict::Closed),
    (RequestRef::SetField { tag: 0, value: b"" }, Verdict::Closed),
    (RequestRef::CloseTake { frames: 2 }, Verdict::Closed),
];

#[test]
fn the_first_case_is_the_verdict(rt: HostRuntime) -> Result<(), Fail> {
    let mut state = TakeState::new(rt.alloc());
    for (index, (request, want)) in VERDICTS.iter().enumerate() {
        same(&rt, index, &apply(&mut state, *request)?, want);
    }
    same(&rt, "the data", &state.data_len(), &4);
    same(&rt, "the frames", &state.frames(), &2);
    same(&rt, "the markers", &state.markers().len(), &1);
    same(&rt, "whether it is closed", &state.is_closed(), &true);
    same(&rt, "whether it is taken", &state.is_taken(), &false);
    Ok(())
}

#[test]
fn a_take_has_1024_markers(rt: HostRuntime) -> Result<(), Fail> {
    let mut state = mono_with(rt.alloc(), &[])?;
    for id in 0..1024 {
        let verdict = apply(&mut state, RequestRef::Mark { id, frame: 0 })?;
        same(&rt, id, &verdict, &Verdict::Stored);
    }
    for (id, frame, want) in [
        (1024, 0, Verdict::TooManyMarkers),
        (1023, 0, Verdict::DuplicateMarker),
        (1023, 1, Verdict::BadMarker),
    ] {
        let verdict = apply(&mut state, RequestRef::Mark { id, frame })?;
        same(&rt, id, &verdict, &want);
    }
    Ok(())
}

static BLANKS: [u8; 32_769] = [b' '; 32_769];

/// A copy of a request, at the second attempt if the first is refused memory.
fn copied(alloc: Global, request: &RequestRef<'_>) -> Result<Request, AllocError>
    requires { IsTrue (is_request (meaning request.now)) }
{
    match request.to_request(alloc) {
        Ok(copy) => Ok(copy),
        Err(_) => request.to_request(alloc),
    }
}

/// Fails the test if a request fits otherwise, or its copy is another.
fn fits(
    rt: &impl Abort,
    alloc: Global,
    request: RequestRef<'_>,
    want: bool,
) -> Result<(), AllocError> {
    same(rt, "whether it fits", &request.fits(), &want);
    if request.fits() {
        let copy = copied(alloc, &request)?;
        same(rt, "the copy", &copy.as_ref(), &request);
    }
    Ok(())
}

#[test]
fn a_history_fits_up_to_its_limit(rt: HostRuntime) -> Result<(), Fail> {
    for (len, want) in [(0, true), (4096, true), (4097, false)] {
        let history = BLANKS.get(..len).ok_or("blanks")?;
        let request = RequestRef::OpenTake {
            rate: u32::MAX,
            channels: u16::MAX,
            bits: u16::MAX,
            history,
        };
        fits(&rt, rt.alloc(), request, want)?;
    }
    Ok(())
}

#[test]
fn a_block_fits_up_to_its_limit(rt: HostRuntime) -> Result<(), Fail> {
    for (len, want) in [(0, false), (1, true), (32_768, true), (32_769, false)] {
        let bytes = BLANKS.get(..len).ok_or("blanks")?;
        fits(&rt, rt.alloc(), RequestRef::Block { bytes }, want)?;
    }
    Ok(())
}

#[test]
fn a_value_fits_up_to_its_limit(rt: HostRuntime) -> Result<(), Fail> {
    for (len, want) in [(0, true), (256, true), (257, false)] {
        let value = BLANKS.get(..len).ok_or("blanks")?;
        let request = RequestRef::SetField { tag: 255, value };
        fits(&rt, rt.alloc(), request, want)?;
    }
    Ok(())
}

#[test]
fn the_largest_numbers_fit(rt: HostRuntime) -> Result<(), Fail> {
    let id = u32::MAX;
    let mark = RequestRef::Mark { id, frame: id };
    fits(&rt, rt.alloc(), mark, true)?;
    let close = RequestRef::CloseTake { frames: u64::MAX };
    fits(&rt, rt.alloc(), close, true)?;
    Ok(())
}

/// Makes room, at the second attempt if the first is refused a growth.
fn reserve(rt: &impl Abort, state: &mut TakeState, requests: usize) -> Result<(), AllocError>
    requires { requests ≤ 16 }
{
    let room = state.room();
    if state.reserve_for(requests).is_err() {
        same(rt, "the room", &state.room(), &room);
        state.reserve_for(requests)?;
    }
    assert!(rt; state.room() >= requests);
    Ok(())
}

/// Run once more with each growth refused, by `tests/test_refused_calls.py --tests`.
#[test]
fn a_refused_growth_leaves_the_take(rt: HostRuntime) -> Result<(), Fail> {
    let mut state = TakeState::new(rt.alloc());
    reserve(&rt, &mut state, 1)?;
    let history = BLANKS.get(..4096).ok_or("blanks")?;
    let request = RequestRef::OpenTake {
        rate: 48_000,
        channels: 1,
        bits: 16,
        history,
    };
    same(
        &rt,
        "the verdict",
        &apply(&mut state, request)?,
        &Verdict::Stored,
    );
    same(&rt, "the room", &state.room(), &0);
    reserve(&rt, &mut state, 16)?;
    same(&rt, "the history", &state.history(), &history);
    Ok(())
}

static NAMES: [(&str, bool); 11] = [
    ("", false),
    ("a", true),
    ("az-09_", true),
    ("a.b", false),
    ("A1", false),
    ("a1{", false),
    ("a1`", false),
    ("a/1", false),
    ("a:1", false),
    ("abcdefghijklmnopqrstuvwxyz012345", true),
    ("abcdefghijklmnopqrstuvwxyz0123456", false),
];

#[test]
fn names_have_1_to_32_bytes_of_their_alphabet(rt: HostRuntime) {
    for (text, want) in &NAMES {
        let is_name = Name::new(text.as_bytes()).is_some();
        same(&rt, *text, &is_name, want);
    }
}

static IN_ORDER: [&str; 11] = ["-", "-a", "0", "9", "_", "a", "a-", "a1", "a_", "aa", "z"];

#[test]
fn names_are_ordered_by_their_bytes(rt: HostRuntime) -> Result<(), Fail> {
    let mut last = None;
    for text in &IN_ORDER {
        let name = Name::new(text.as_bytes()).ok_or("a name")?;
        same(&rt, *text, &name.copy().as_bytes(), &text.as_bytes());
        let name = Some(name);
        same(&rt, *text, &(last < name && last != name), &true);
        last = name;
    }
    Ok(())
}

static CODES: [(Verdict, u8); 12] = [
    (Verdict::Stored, 0),
    (Verdict::NameTaken, 1),
    (Verdict::AlreadyOpen, 2),
    (Verdict::NotOpen, 3),
    (Verdict::Closed, 4),
    (Verdict::BadFormat, 5),
    (Verdict::BadBlock, 6),
    (Verdict::BadMarker, 7),
    (Verdict::DuplicateMarker, 8),
    (Verdict::TooManyMarkers, 9),
    (Verdict::BadField, 10),
    (Verdict::WrongTotal, 11),
];

#[test]
fn verdicts_have_the_codes_of_replies(rt: HostRuntime) {
    for (verdict, code) in &CODES {
        same(&rt, *code, &u8::from(*verdict), code);
        same(&rt, *code, &Verdict::try_from(*code), &Ok(*verdict));
    }
    same(&rt, 12, &Verdict::try_from(12), &Err(UnknownVerdict(12)));
}
