//! The names that a server leaves out.
use bw_status::LeftOutName;
use std::alloc::{AllocError, Global};
use std::cell::RefCell;

/// The most names that are kept.
const MOST: usize = 256;

/// The names that a server leaves out, as they were found. Of more than 256 the last ones are kept.
///
/// No clause says what it holds.
#[derive(Drop)]
pub(crate) struct LeftOutNotes {
    names: RefCell<Option<Vec<LeftOutName>>>,
}

impl LeftOutNotes {
    /// None is left out.
    pub(crate) fn new() -> LeftOutNotes {
        LeftOutNotes {
            names: RefCell::new(None),
        }
    }

    /// A name is left out. It isn't kept if memory is refused.
    pub(crate) fn note(&self, alloc: Global, name: &str, cause: &str) {
        self.forget(name);
        let Ok(mut guard) = self.names.try_borrow_mut() else {
            return;
        };
        let Ok(noted) = noted_name(alloc, name, cause) else {
            return;
        };
        match guard.as_mut() {
            Some(names) => {
                if names.len() >= MOST {
                    let _oldest = names.remove(0);
                }
                let _added = names.push(noted);
            }
            None => {
                let mut names = Vec::new(alloc);
                let _added = names.push(noted);
                *guard = Some(names);
            }
        }
    }

    /// A name is served.
    pub(crate) fn forget(&self, name: &str) {
        let Ok(mut guard) = self.names.try_borrow_mut() else {
            return;
        };
        let Some(names) = guard.as_mut() else {
            return;
        };
        let place = names
            .iter()
            .take_while(|one| one.name.as_str() != name)
            .count();
        if place < names.len() {
            let _served = names.remove(place);
        }
    }

    /// The names that are left out.
    ///
    /// # Errors
    /// `AllocError` if memory was refused.
    pub(crate) fn list(&self, alloc: Global) -> Result<Vec<LeftOutName>, AllocError> {
        let mut found = Vec::new(alloc);
        let Ok(guard) = self.names.try_borrow() else {
            return Ok(found);
        };
        if let Some(names) = guard.as_ref() {
            for one in names {
                found.push(noted_name(alloc, one.name.as_str(), one.cause.as_str())?)?;
            }
        }
        Ok(found)
    }
}

/// A name that is left out for this.
fn noted_name(alloc: Global, name: &str, cause: &str) -> Result<LeftOutName, AllocError> {
    Ok(LeftOutName {
        name: String::from_str(alloc, name)?,
        cause: String::from_str(alloc, cause)?,
    })
}
