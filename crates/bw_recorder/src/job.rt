//! What a command line asks for beside a recording.
use bw_plan::Strictness;

/// A recording's file, and what is asked for beside it.
#[derive(Clone, Copy)]
pub struct RecordingFile<'a> {
    /// Where its RIFF, BW64 or RF64 file is.
    pub path: &'a str,
    /// What is set in place of what the file has, each as `KEY=VALUE`.
    pub settings: &'a [String],
    /// What of the file the recording may not lose.
    pub strict: Strictness,
    /// How many frames a block has, where that is given.
    pub frames: Option<u32>,
}
