//! How tests compare.

use std::fmt::{Debug, Display};
use std::process::Abort;

/// Fails the test if a value isn't the one wanted. A call of this is far cheaper to prove than
/// `assert_eq!`.
pub(crate) fn same<T: PartialEq + Debug, L: Display + Copy>(
    rt: &impl Abort,
    of: L,
    found: &T,
    want: &T,
) {
    assert_eq!(rt; found, want, "of {of}");
}
