//! The process: what the program does, joined to the system that it runs on.
#![tactic(auto)]

use bw_console::CauseCell;
use bw_disk::SystemDisk;
use bw_machine::{TcpNetwork, Terminal};
use bw_net::{ClockStopwatch, Host, HostRecordings, LineCell, LineSink, SpoolCell, SpoolPause};
use bw_operators::StatusSetup;
use bw_ports::{ListenerSetup, PacedNetwork};
use bw_program::{Environment, Outside, ProgressObservers, start};
use bw_progress::{
    BatchPart, ClearingSink, LastOutage, LineHandle, LinePace, LineWatch, LogScreen, LoggedWatch,
    OutageReports, RenewingPause, SendWatch, SharedProgress,
};
use bw_send_file::LinkLog;
use bw_serve::{FilteredNetwork, Opens, ServeRules};
use bw_stream::StdIo;
use bw_takes::ScreenStyle;
use std::io::{IsTerminal, Stderr, Stdin, Stdout};
use std::marker::PhantomData;
use std::process::ExitCode;
use std::time::{SystemTime, UNIX_EPOCH};

/// What the process works over, besides a network.
struct Process<'a, N> {
    environment: PhantomData<(&'a ProcessCells, N)>,
}

impl<'a, N: PacedNetwork + ListenerSetup + Opens + ServeRules + StatusSetup<N::Reactor>> Environment
    for Process<'a, N> {
    type System = Host<'a>;

    type Files = HostRecordings<'a>;

    type Disk = SystemDisk<&'a HostRuntime>;

    type Network = N;

    type Pause = RenewingPause<RenewingPause<SpoolPause<'a>, LogHandle<'a>>, ProgressHandle<'a>>;

    type Input = StdIo<Stdin>;

    type Output = ClearingSink<LineSink<'a, Stdout>, ProgressHandle<'a>>;

    type Diagnostics = ClearingSink<LineSink<'a, Stderr>, ProgressHandle<'a>>;

    type Watch = OutageReports<
        'a,
        SendWatch<Terminal, LineWatch<'a, HostRecordings<'a>, Terminal, ProcessClock>>,
        ClearingSink<StdIo<Stderr>, ProgressHandle<'a>>,
    >;

    type Log = OutageReports<
        'a,
        LoggedWatch<
            LinkLog<StdIo<Stderr>>,
            LineWatch<'a, HostRecordings<'a>, LogScreen<StdIo<Stderr>>, ProcessClock>,
        >,
        StdIo<Stderr>,
    >;
}

type ProcessClock = ClockStopwatch<HostRuntime>;

type ProgressHandle<'a> = LineHandle<'a, Terminal, ProcessClock>;

type LogHandle<'a> = LineHandle<'a, LogScreen<StdIo<Stderr>>, ProcessClock>;

/// The lines of a sender's progress, and what shows them.
#[derive(Drop)]
struct ProgressLines {
    /// In place, on a terminal.
    shown: SharedProgress<Terminal, ProcessClock>,
    /// Each minute, in a log.
    logged: SharedProgress<LogScreen<StdIo<Stderr>>, ProcessClock>,
}

/// What parts of the outside share.
#[derive(Drop)]
struct ProcessCells {
    spool: SpoolCell,
    causes: CauseCell,
    lines: LineCell,
}

/// Runs the command that the process was given, over its standard input and output, files, clock and
/// network; the exit status is that of `start`. `build`, whole lines, is what the program was built from.
///
/// # Not specified
/// Anything: no clause of std says what the words of the process are, or what it prints. The program is
/// tested as it is built.
pub fn run(rt: HostRuntime, build: &str) -> ExitCode {
    let cells = ProcessCells {
        spool: SpoolCell::new(),
        causes: CauseCell::new(),
        lines: LineCell::new(),
    };
    let network = TcpNetwork::new(&rt, &cells.spool, &cells.causes, &cells.lines);
    let exit = run_over(rt, build, &cells, FilteredNetwork::new(network));
    cells.lines.report_start(&rt);
    exit
}

/// Runs the command over a network. It is generic, since the proof of `run` doesn't fit the prover's
/// steps if all parts of the outside meet in one function.
fn run_over<N: PacedNetwork + ListenerSetup + Opens + ServeRules + StatusSetup<N::Reactor> + Drop>(
    rt: HostRuntime,
    build: &str,
    cells: &ProcessCells,
    network: N,
) -> ExitCode {
    let terminal = Terminal::new(&rt);
    let lines = progress_lines(rt, terminal.again(&rt));
    let mut outside = outside_of(&rt, cells, &lines, network);
    let mut observers = observers_of(&rt, cells, &lines, terminal);
    start(rt.alloc(), build, &mut outside, &mut observers)
}

/// The lines of a sender's progress. It takes copies of the runtime, since the prover refuses a
/// reference in a clock beside the sinks of lines.
fn progress_lines(rt: HostRuntime, screen: Terminal) -> ProgressLines {
    let log = LogScreen {
        alloc: rt.alloc(),
        out: StdIo::new(rt.stderr()),
    };
    ProgressLines {
        shown: SharedProgress::new(
            rt.alloc(),
            screen,
            ClockStopwatch::new(rt),
            LinePace::Renewed,
        ),
        logged: SharedProgress::new(
            rt.alloc(),
            log,
            ClockStopwatch::new(rt),
            LinePace::EachMinute,
        ),
    }
}

/// What the program works over. All that is lent has one lifetime here and below, since the prover
/// shortens none in a struct.
fn outside_of<
    'a,
    N: PacedNetwork + ListenerSetup + Opens + ServeRules + StatusSetup<N::Reactor> + Drop,
>(
    rt: &'a HostRuntime,
    cells: &'a ProcessCells,
    lines: &'a ProgressLines,
    network: N,
) -> Outside<Process<'a, N>> {
    Outside {
        system: Host::new(rt),
        files: HostRecordings::new(rt, &cells.spool),
        disk: SystemDisk::new(rt),
        network,
        pause: RenewingPause {
            inner: RenewingPause {
                inner: SpoolPause::new(rt, &cells.spool),
                line: LineHandle {
                    shared: &lines.logged,
                },
            },
            line: LineHandle {
                shared: &lines.shown,
            },
        },
        input: StdIo::new(rt.stdin()),
        out: ClearingSink {
            inner: LineSink::new(*rt, &cells.lines, rt.stdout()),
            line: LineHandle {
                shared: &lines.shown,
            },
        },
        faults: ClearingSink {
            inner: LineSink::new(*rt, &cells.lines, rt.stderr()),
            line: LineHandle {
                shared: &lines.shown,
            },
        },
        screens: screen_style(rt),
        is_typed: rt.stdin().is_terminal(),
        started: milliseconds_now(rt),
        environment: PhantomData,
    }
}

/// Who is shown what a sender does.
fn observers_of<
    'a,
    N: PacedNetwork + ListenerSetup + Opens + ServeRules + StatusSetup<N::Reactor> + Drop,
>(
    rt: &'a HostRuntime,
    cells: &'a ProcessCells,
    lines: &'a ProgressLines,
    terminal: Terminal,
) -> ProgressObservers<Process<'a, N>> {
    ProgressObservers {
        watch: OutageReports {
            watch: SendWatch {
                rounds: terminal,
                uploads: LineWatch {
                    files: HostRecordings::new(rt, &cells.spool),
                    line: &lines.shown,
                },
            },
            causes: &cells.causes,
            faults: ClearingSink {
                inner: StdIo::new(rt.stderr()),
                line: LineHandle {
                    shared: &lines.shown,
                },
            },
            last: LastOutage::none(),
        },
        log: OutageReports {
            watch: LoggedWatch {
                log: LinkLog {
                    out: StdIo::new(rt.stderr()),
                },
                uploads: LineWatch {
                    files: HostRecordings::new(rt, &cells.spool),
                    line: &lines.logged,
                },
            },
            causes: &cells.causes,
            faults: StdIo::new(rt.stderr()),
            last: LastOutage::none(),
        },
        part: BatchPart::alone(),
        environment: PhantomData,
    }
}

/// The time in milliseconds after the start of 1970 (UTC); None if it can't be read.
fn milliseconds_now(rt: &HostRuntime) -> Option<u64> {
    let Ok(now) = SystemTime::now(rt) else {
        return None;
    };
    match now.duration_since(UNIX_EPOCH) {
        Ok(passed) => u64::try_from(passed.as_millis()).ok(),
        Err(_) => None,
    }
}

/// How screens are shown on standard output: on a terminal in place, else as lines.
fn screen_style(rt: &HostRuntime) -> ScreenStyle {
    if rt.stdout().is_terminal() {
        ScreenStyle::Terminal
    } else {
        ScreenStyle::Lines
    }
}
