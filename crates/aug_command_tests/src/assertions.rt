//! Assertions as calls: functions of the file that aug_monoid_tests has, which says why.
ghost use Rattle.std.specs.Prelude.{IsTrue};

use std::fmt::Debug;
use std::process::Abort;

/// Ends the test unless a value is the expected one.
pub(crate) fn equal<T: PartialEq + Debug + Drop>(rt: &impl Abort, found: T, expected: T) {
    assert_eq!(rt; found, expected);
}

/// Ends the test unless a condition holds. What follows may rely on it.
pub(crate) fn holds(rt: &impl Abort, condition: bool)
    ensures { IsTrue condition }
{
    assert!(rt; condition);
}
