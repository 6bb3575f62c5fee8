//! Assertions as calls. A test is proved like any function, and a call takes a sixth of the time that `assert_eq!` takes, which branches in the
//! test itself. Each crate of tests has this file, since a library may not end the process; tests/sources compares them.
ghost use Rattle.std.specs.Prelude.{IsTrue};

use std::fmt::{Debug, Display};
use std::process::Abort;

/// Ends the test unless a value is the expected one.
pub(crate) fn equal<T: PartialEq + Debug + Drop>(rt: &impl Abort, found: T, expected: T) {
    assert_eq!(rt; found, expected);
}

/// Ends the test unless a value is the expected one, and says where in a table or a loop that was.
pub(crate) fn equal_at<T: PartialEq + Debug + Drop>(
    rt: &impl Abort,
    found: T,
    expected: T,
    place: impl Display + Drop,
) {
    assert_eq!(rt; found, expected, "{place}");
}

/// Ends the test unless a condition holds. What follows may rely on it.
pub(crate) fn holds(rt: &impl Abort, condition: bool)
    ensures { IsTrue condition }
{
    assert!(rt; condition);
}
