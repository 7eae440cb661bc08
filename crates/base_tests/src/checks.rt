// What stops a test.

use std::process::Abort;

/// Stops where it is not so.
pub(crate) fn check(rt: &impl Abort, is_so: bool, what: &str) {
    assert!(rt; is_so, "{what}");
}
