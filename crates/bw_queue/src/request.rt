//! What a sender of several recordings is asked for, and what that results in.
use crate::recording::QueuedRecording;
use bw_take_files::Receipt;

/// What a sender of several recordings is asked for.
#[derive(Drop)]
pub struct QueueRequest<'a> {
    /// The paths of recordings, and of folders of recordings.
    pub paths: &'a [String],
    /// The path of the file that gives takes their names, if one does.
    pub names: Option<&'a str>,
    /// The path of the file that receipts are added to, if they are.
    pub receipts: Option<&'a str>,
}

/// The recordings that are to be sent, in their order, and the receipts that are there already.
#[derive(Debug, Drop)]
pub struct Queue {
    pub recordings: Vec<QueuedRecording>,
    pub receipts: Vec<Receipt>,
}
