//! Why the latest call for a link failed, shared by links and those who report it.
use crate::cause::LinkCause;
use std::cell::RefCell;

/// Why the latest call for a link failed, if one has since the link was made. No clause says what it
/// holds.
#[derive(Drop)]
pub struct CauseCell {
    latest: RefCell<Option<LinkCause>>,
}

impl CauseCell {
    /// No call has failed yet.
    pub fn new() -> CauseCell {
        CauseCell {
            latest: RefCell::new(None),
        }
    }

    /// A call failed, or with `None` a link was made.
    pub fn note(&self, cause: Option<LinkCause>) {
        let _before = self.latest.try_replace(cause);
    }

    /// Why the latest call failed, if one has since the link was made.
    pub fn latest(&self) -> Option<LinkCause> {
        match self.latest.try_borrow() {
            Ok(latest) => *latest,
            Err(_) => None,
        }
    }
}
