//! One assertion each, for all types. A test with assertions of its own takes longer to prove, as each carries all that is
//! alive in it.

use std::fmt::Debug;
use std::process::Abort;

/// The two are equal.
pub(crate) fn check_same<T: PartialEq + Debug>(rt: &impl Abort, found: &T, wanted: &T) {
    assert_eq!(rt; found, wanted);
}

/// The two are equal, which are about something.
pub(crate) fn check_same_of<T: PartialEq + Debug>(
    rt: &impl Abort,
    about: &impl Debug,
    found: &T,
    wanted: &T,
) {
    assert_eq!(rt; found, wanted, "{about:?}");
}

/// Checks that what is said of something holds.
pub(crate) fn check_holds(rt: &impl Abort, about: &impl Debug, holds: bool) {
    assert!(rt; holds, "{about:?}");
}
