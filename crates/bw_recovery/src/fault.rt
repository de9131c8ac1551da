//! What may be wrong with a take's file.
use thiserror::Error;

/// Why a take's file can't be adopted: the first that holds.
///
/// No clause says what its text is.
#[derive(Clone, Copy, Debug, PartialEq, Eq, Hash, Error)]
pub enum FileFault {
    /// It is gone, or its samples aren't all there.
    #[error("the take's file is gone, or too short")]
    Lost,
    /// Its take is closed, and it has another length or another header.
    #[error("the file of a closed take has changed")]
    Changed,
}
