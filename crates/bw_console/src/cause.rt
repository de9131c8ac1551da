//! Why a call of the system for a link failed.
ghost use Rattle.std.specs.Prelude.{◌≡◌};
ghost use Rattle.bw_console.specs.Causes.{cause_by};

use std::io::ErrorKind;

/// Why a call of the system for a link failed.
#[derive(Clone, Copy, Debug, PartialEq, Eq)]
pub enum LinkCause {
    /// Nobody listens at the address.
    Refused,
    /// Nothing came in time.
    TimedOut,
    /// No way leads to the address.
    Unreachable,
    /// The other side has closed the connection.
    Closed,
    /// Something else.
    Other,
}

/// Why a call failed whose error has this kind.
pub fn cause_of(kind: ErrorKind) -> LinkCause
    ensures { result ≡ cause_by kind }
{
    match kind {
        ErrorKind::ConnectionRefused => LinkCause::Refused,
        ErrorKind::TimedOut => LinkCause::TimedOut,
        ErrorKind::WouldBlock => LinkCause::TimedOut,
        ErrorKind::HostUnreachable => LinkCause::Unreachable,
        ErrorKind::NetworkUnreachable => LinkCause::Unreachable,
        ErrorKind::NetworkDown => LinkCause::Unreachable,
        ErrorKind::ConnectionReset => LinkCause::Closed,
        ErrorKind::ConnectionAborted => LinkCause::Closed,
        ErrorKind::BrokenPipe => LinkCause::Closed,
        _ => LinkCause::Other,
    }
}
