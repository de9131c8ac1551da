//! What no clause says of lines that keep chunks of a recording, or join them to a take: that they are
//! accepted or refused, by examples.
use crate::outcomes::{Line, Outcome, lines_come_to};
use std::alloc::AllocError;

const KEPT: Outcome = Outcome::KeepsLeftOut {
    is_strict_in_texts: false,
};

const KEPT_WITH_TEXTS: Outcome = Outcome::KeepsLeftOut {
    is_strict_in_texts: true,
};

static SENDERS: [Line; 14] = [
    (&["--file=-f", "--keep-left-out=-l"], KEPT),
    (&["--keep-left-out=-l", "--state=-s", "--file=-f"], KEPT),
    (
        &[
            "--file=-f",
            "--receipt=-",
            "--keep-left-out=-l",
            "--set=umid=",
        ],
        KEPT,
    ),
    (
        &["--strict-texts", "--keep-left-out=-l", "--file=-f"],
        KEPT_WITH_TEXTS,
    ),
    (
        &["--strict", "--keep-left-out=-l", "--file=-f"],
        Outcome::Refuses,
    ),
    (&["--keep-left-out=-l"], Outcome::Refuses),
    (&["--file=-f", "--keep-left-out"], Outcome::Refuses),
    (&["--file=-f", "--keep-left-out", "-l"], Outcome::Refuses),
    (
        &["--file=-f", "--keep-left-out=-l", "--keep-left-out=-l"],
        Outcome::Refuses,
    ),
    (
        &["--file=-f", "--pcm=48000,2,24", "--keep-left-out=-l"],
        Outcome::Refuses,
    ),
    (
        &["--spool=-f", "--pcm=48000,2,24", "--keep-left-out=-l"],
        Outcome::Refuses,
    ),
    (&["--spool=-f", "--keep-left-out=-l"], Outcome::Refuses),
    (
        &["--file=-f", "--keep-left-out=-l", "--rounds=2"],
        Outcome::Refuses,
    ),
    (&["--file=-f", "--keep-left=-l"], Outcome::Refuses),
];

#[test]
fn chunks_are_kept_of_a_recording_that_is_sent(rt: HostRuntime) -> Result<(), AllocError> {
    let first = [
        "bwingest",
        "send",
        "--connect=127.0.0.1:4100",
        "--name",
        "-a",
    ];
    lines_come_to(&rt, rt.alloc(), &first, &SENDERS)
}

static PACKS: [Line; 7] = [
    (&["--keep-left-out=-l", "--", "-f"], KEPT),
    (&["--keep-left-out=-l", "--set=umid=", "--", "-f"], KEPT),
    (
        &["--strict-texts", "--keep-left-out=-l", "--", "-f"],
        KEPT_WITH_TEXTS,
    ),
    (
        &["--keep-left-out=-l", "--strict", "--", "-f"],
        Outcome::Refuses,
    ),
    (&["--keep-left-out=-l"], Outcome::Refuses),
    (&["--keep-left-out", "--", "-f"], Outcome::Refuses),
    (
        &["--keep-left-out=-l", "--keep-left-out=-l", "--", "-f"],
        Outcome::Refuses,
    ),
];

#[test]
fn chunks_are_kept_of_a_recording_that_is_packed(rt: HostRuntime) -> Result<(), AllocError> {
    lines_come_to(&rt, rt.alloc(), &["bwingest", "pack"], &PACKS)
}

static JOINS: [Line; 7] = [
    (&["--", "-f", "-l"], Outcome::Joins),
    (&["--help"], Outcome::Shows),
    (&[], Outcome::Refuses),
    (&["--", "-f"], Outcome::Refuses),
    (&["-f", "-l"], Outcome::Refuses),
    (&["--", "-f", "-l", "-l"], Outcome::Refuses),
    (&["--json", "--", "-f", "-l"], Outcome::Refuses),
];

#[test]
fn a_take_and_chunks_are_joined(rt: HostRuntime) -> Result<(), AllocError> {
    lines_come_to(&rt, rt.alloc(), &["bwingest", "join"], &JOINS)
}
