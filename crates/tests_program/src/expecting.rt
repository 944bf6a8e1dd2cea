//! Assertions: each stands here once, and the tests call it.

use std::fmt::Debug;
use std::process::Abort;

/// Asserts that what was found is what is wanted.
pub(crate) fn expect<R: Abort, T: PartialEq + Debug>(rt: &R, what: &str, found: &T, want: &T) {
    assert!(rt; *found == *want, "{what}: {found:?}, not {want:?}");
}

/// The same of a text.
pub(crate) fn expect_text<R: Abort>(rt: &R, what: &str, found: &str, want: &str) {
    assert!(rt; found == want, "{what}: {found}, not {want}");
}
