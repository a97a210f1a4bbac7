//! One assertion each, for all types. An assertion takes as long to prove as six calls.

use std::fmt::Debug;
use std::process::Abort;

/// The two are equal.
pub(crate) fn check_same<T: PartialEq + Debug>(rt: &impl Abort, found: &T, wanted: &T) {
    assert_eq!(rt; found, wanted);
}

/// Something holds, which is about this.
pub(crate) fn check_holds_of(rt: &impl Abort, about: &impl Debug, holds: bool) {
    assert!(rt; holds, "{about:?}");
}
