//! What a command line asks for beside headerless samples.
use crate::job::Recorder;
use bw_plan::Pcm;
use bw_recorder::RecordingFile;

/// A file of headerless samples, and what is asked for beside it.
#[derive(Clone, Copy)]
pub struct PcmFile<'a> {
    /// Where it is, what is set, and how many frames a block has. Nothing is cleaned of it.
    pub file: RecordingFile<'a>,
    /// The samples' format, and their place in the file.
    pub pcm: Pcm,
    /// The path of the file to which lines for markers are appended while the recording is made.
    pub marks: Option<&'a str>,
}

/// Headerless samples that are sent.
#[derive(Clone, Copy)]
pub struct PcmJob<'a> {
    /// As which recorder they are sent.
    pub recorder: Recorder<'a>,
    /// Their file.
    pub file: PcmFile<'a>,
}

/// Headerless samples that are sent while another program writes them.
#[derive(Clone, Copy)]
pub struct FollowedJob<'a> {
    /// As which recorder they are sent.
    pub recorder: Recorder<'a>,
    /// Their file.
    pub file: PcmFile<'a>,
    /// The path that says by being there that they are complete; None if they come by standard input.
    pub until: Option<&'a str>,
}
