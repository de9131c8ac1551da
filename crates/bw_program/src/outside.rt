//! What the program works over.
use bw_disk::Volume;
use bw_live::{GrowingFiles, Marking};
use bw_operators::StatusSetup;
use bw_ports::{
    EditedFiles, FileKinds, FolderLocks, ListenerSetup, Network, PacedNetwork, Pause,
    ReceiptKeeping, SpoolKeeping, StateKeeping, System, Watch,
};
use bw_progress::{BatchPart, UploadWatch};
use bw_serve::{Opens, ServeRules};
use bw_stream::{Sink, Source};
use bw_takes::ScreenStyle;
use bw_upload::SendingSides;
use std::marker::PhantomData;

/// The types of what the program works over.
pub trait Environment {
    /// The system, which gives the words of the command line.
    type System: System;

    /// The files of recordings.
    type Files: GrowingFiles
        + StateKeeping
        + SpoolKeeping
        + Marking
        + ReceiptKeeping
        + EditedFiles
        + FolderLocks
        + FileKinds;

    /// The disk of servers' folders.
    type Disk: Volume;

    /// Where servers listen and senders connect.
    type Network: PacedNetwork
        + ListenerSetup
        + Opens
        + ServeRules
        + StatusSetup<<Self::Network as ListenerSetup>::Reactor>;

    /// Waits between links.
    type Pause: Pause;

    /// Standard input.
    type Input: Source;

    /// Standard output.
    type Output: Sink;

    /// Standard error.
    type Diagnostics: Sink;

    /// Is shown a sender's progress.
    type Watch: Watch + UploadWatch;

    /// Is shown the links of a sender of recordings, and its progress.
    type Log: UploadWatch;
}

/// What the program works over, besides memory.
#[derive(Drop)]
pub struct Outside<X: Environment> {
    /// The system, which gives the words of the command line.
    pub system: X::System,
    /// The files of recordings.
    pub files: X::Files,
    /// The disk of servers' folders.
    pub disk: X::Disk,
    /// Where servers listen and senders connect.
    pub network: X::Network,
    /// Waits between links.
    pub pause: X::Pause,
    /// Standard input.
    pub input: X::Input,
    /// Standard output.
    pub out: X::Output,
    /// Standard error.
    pub faults: X::Diagnostics,
    /// How screens are shown on standard output.
    pub screens: ScreenStyle,
    /// Whether standard input is typed on a terminal.
    pub is_typed: bool,
    /// When the process began, in milliseconds after the start of 1970 (UTC), if the clock says it.
    pub started: Option<u64>,
    /// Shows the lifetimes that `X` names: the prover wants them in a field.
    pub environment: PhantomData<X>,
}

impl<X: Environment> SendingSides for Outside<X> {
    type Pause = X::Pause;

    type Dial = <X::Network as Network>::Dial;

    type Output = X::Output;

    type Diagnostics = X::Diagnostics;
}

/// Who is shown what a sender does.
#[derive(Drop)]
pub struct ProgressObservers<X: Environment> {
    /// Is shown its progress, of its rounds or of an upload.
    pub watch: X::Watch,
    /// Is shown the links of a sender of recordings, and its progress, where a log is asked for.
    pub log: X::Log,
    /// Which of several recordings is sent.
    pub part: BatchPart,
    /// As in `Outside`.
    pub environment: PhantomData<X>,
}

impl<X: Environment> ProgressObservers<X> {
    /// So many recordings are sent, one after the other.
    pub(crate) fn begin_batch(&mut self, count: usize) {
        self.part = BatchPart {
            number: 0,
            count: u32::try_from(count).unwrap_or(u32::MAX),
        };
    }

    /// The next of several recordings is sent.
    pub(crate) fn go_on(&mut self) {
        self.part.number = self.part.number.saturating_add(1);
        self.watch.part(self.part.number, self.part.count);
        self.log.part(self.part.number, self.part.count);
    }
}
