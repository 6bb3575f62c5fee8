//! Assertions as calls: functions of the file that aug_monoid_tests has, which says why.
use std::fmt::Debug;
use std::process::Abort;

/// Ends the test unless a value is the expected one.
pub(crate) fn equal<T: PartialEq + Debug + Drop>(rt: &impl Abort, found: T, expected: T) {
    assert_eq!(rt; found, expected);
}
