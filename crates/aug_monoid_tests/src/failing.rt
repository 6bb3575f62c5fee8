//! Assertions that fail: of these no contract says that they end a test.

use crate::assertions::{equal, equal_at};

#[test]
#[should_panic(expected = "left: 3")]
fn equal_ends_a_test_of_two_numbers(rt: HostRuntime) {
    equal(&rt, 3, 4);
}

#[test]
#[should_panic(expected = "failed: at the key 5")]
fn equal_at_says_where(rt: HostRuntime) {
    equal_at(&rt, 3, 4, format_args!("at the key {}", 5));
}
