//! What is sent, and where its state is.
use crate::Recorder;
use crate::place::StatePlace;
use bw_recorder::RecordingFile;

/// A recording that is sent with a state.
#[derive(Clone, Copy)]
pub struct Job<'a> {
    /// As which recorder it is sent.
    pub recorder: Recorder<'a>,
    /// The recording's file.
    pub file: RecordingFile<'a>,
    /// Where the state is.
    pub place: StatePlace<'a>,
}
