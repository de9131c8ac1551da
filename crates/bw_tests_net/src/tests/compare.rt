//! How tests compare.

use std::fmt::Debug;
use std::process::Abort;

/// Fails the test if a value isn't the one wanted. A call of this is far cheaper to prove than
/// `assert_eq!`.
pub(crate) fn same<T: PartialEq + Debug>(rt: &impl Abort, of: &str, found: &T, want: &T) {
    assert_eq!(rt; found, want, "of {of}");
}
