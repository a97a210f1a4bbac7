//! One assertion, for all types.

use std::fmt::Debug;
use std::process::Abort;

/// The two are equal.
pub(crate) fn check_same<T: PartialEq + Debug>(rt: &impl Abort, found: &T, wanted: &T) {
    assert_eq!(rt; found, wanted);
}
