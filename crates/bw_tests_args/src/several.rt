//! What no clause says of lines that send several recordings: that they are accepted or refused, by examples.
use crate::outcomes::{Line, Outcome, lines_come_to};
use std::alloc::AllocError;

const ONE: Outcome = Outcome::SendsFiles(1, [false, false]);

static SENDERS: [Line; 25] = [
    (&["f"], ONE),
    (&["f", "--"], ONE),
    (&["--", "-f"], ONE),
    (&["--log", "f", "--network", "--strict-texts"], ONE),
    (&["--timeout", "9", "f", "--set", "umid="], ONE),
    (&["f", "g", "h"], Outcome::SendsFiles(3, [false, false])),
    (
        &["--names=-n", "f", "--state=-s", "g"],
        Outcome::SendsFiles(2, [true, true]),
    ),
    (
        &["f", "--state=-s", "--", "-g", "--names=-n"],
        Outcome::SendsFiles(3, [false, true]),
    ),
    (
        &["--receipt=-r", "f", "--json", "g"],
        Outcome::GivesReceipt {
            is_printed: false,
            json: true,
        },
    ),
    (
        &["f", "--receipt=-"],
        Outcome::GivesReceipt {
            is_printed: true,
            json: false,
        },
    ),
    (&["f", "--rate=5"], Outcome::SendsAtMost(5)),
    (&[], Outcome::Refuses),
    (&["--"], Outcome::Refuses),
    (&["f", "-g"], Outcome::Refuses),
    (&["--names=-n"], Outcome::Refuses),
    (&["f", "--names=-n", "--names=-n"], Outcome::Refuses),
    (&["f", "--names", "-n"], Outcome::Refuses),
    (&["f", "--name", "-a"], Outcome::Refuses),
    (&["--name=-a", "f", "--file=-f"], Outcome::Refuses),
    (&["f", "--rounds=2"], Outcome::Refuses),
    (&["f", "--fruitless=0"], Outcome::Refuses),
    (&["f", "--strict", "--strict"], Outcome::Refuses),
    (&["f", "--json"], Outcome::Refuses),
    (&["f", "--pcm=48000,2,24"], Outcome::Refuses),
    (&["f", "--follow", "--until=-e"], Outcome::Refuses),
];

#[test]
fn several_recordings_are_sent(rt: HostRuntime) -> Result<(), AllocError> {
    let first = ["bwingest", "send", "--connect=127.0.0.1:4100"];
    lines_come_to(&rt, rt.alloc(), &first, &SENDERS)
}
