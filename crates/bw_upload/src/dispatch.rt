//! How far a recorder's requests have got, and how `send` ends there.
ghost use Rattle.std.specs.Prelude.{◌≡◌, length};
ghost use Rattle.bw_upload.specs.SendState.{Sending, IsSending, exit_for_sender};

use bw_console::Exit;
use bw_sender::Sender;

/// How far a sender has got with the requests of an input.
#[derive(Drop)]
pub(crate) struct Dispatch {
    pub(crate) sender: Sender,
    /// How many requests were offered and accepted.
    pub(crate) offered: usize,
    /// A request was refused when it was offered: no more are offered.
    pub(crate) is_stopped: bool,
}

/// How the command ends when this is how far it has got with `requests` requests.
pub(crate) fn exit_after(dispatch: &Dispatch, requests: usize) -> Exit
    ensures { (x : Sending) → IsSending x dispatch.now → requests ≡ length x.requests →
        result ≡ exit_for_sender x }
{
    if dispatch.is_stopped || !dispatch.sender.refused().is_empty() {
        return Exit::Refused;
    }
    if dispatch.sender.stored() as usize == requests {
        return Exit::Done;
    }
    Exit::Device
}
