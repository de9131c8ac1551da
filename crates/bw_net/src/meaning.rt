//! What answers of the system mean.
ghost use Rattle.std.specs.Prelude.{◌≡◌};
ghost use Rattle.bw_net.specs.Meanings.{received_by, end_found};

use bw_ports::Received;
use std::io::{self, ErrorKind};

/// What a read of a link that never waits gave, for which there was room: its end only if it read no
/// byte, and nothing yet only if the system says that there is none.
pub(crate) fn received(read: io::Result<usize>) -> Received
    ensures { result ≡ received_by read }
{
    match read {
        Ok(count) => {
            if count == 0 {
                Received::Ended
            } else {
                Received::Bytes(count)
            }
        }
        Err(error) => match error.kind() {
            ErrorKind::Interrupted => Received::Nothing,
            ErrorKind::WouldBlock => Received::Nothing,
            _ => Received::Failed,
        },
    }
}

/// Whether something has ended, by what was known before and what was found now. A look that failed
/// says nothing.
///
/// # Errors
/// Why the look failed.
pub(crate) fn ended(before: bool, found: io::Result<bool>) -> io::Result<bool>
    ensures { result ≡ end_found before found }
{
    match found {
        Ok(is_found) => Ok(before || is_found),
        Err(error) => Err(error),
    }
}
