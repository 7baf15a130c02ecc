//! A check that many tests make.

use std::process::Abort;

/// Ends the test where what was found for a text is not what is wanted.
pub(crate) fn same(rt: &impl Abort, text: &str, found: &str, wanted: &str) {
    assert_eq!(rt; found, wanted, "{text:?}");
}
