//! Two observers of one upload.
use bw_sender::Sender;
use bw_upload::{LinkEvent, Observer};

/// Two observers, which both get each report, the first one first.
#[derive(Drop)]
pub struct Observers<'a, A, B> {
    pub first: A,
    pub second: &'a mut B,
}

impl<A: Observer, B: Observer> Observer for Observers<'_, A, B> {
    fn link(&mut self, event: LinkEvent, sender: &Sender) {
        self.first.link(event, sender);
        self.second.link(event, sender);
    }

    fn settled(&mut self, sender: &Sender) {
        self.first.settled(sender);
        self.second.settled(sender);
    }
}
