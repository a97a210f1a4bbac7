//! One assertion for all types. An assertion takes as long to prove as five calls.

use std::fmt::Debug;
use std::process::Abort;

pub(super) fn check_same<T: PartialEq + Debug>(rt: &impl Abort, found: &T, wanted: &T) {
    assert_eq!(rt; found, wanted);
}

pub(super) fn check_holds(rt: &impl Abort, holds: bool) {
    assert!(rt; holds);
}
