//! What the errors of a plain set print.
use crate::assertions::equal;
use aug_model::ModelError;
use aug_model::ModelError::{BadBits, OutOfMemory};

const TEXTS: &[(ModelError, u8, &str)] = &[
    (BadBits, 1, "the number of bits is not from 1 to 16"),
    (OutOfMemory, 2, "out of memory"),
];

#[test]
fn says_its_cause_and_its_number(rt: HostRuntime) {
    for (cause, number, text) in TEXTS {
        let printed = format!(in rt.alloc(); "{cause}").expect(&rt, "a text");
        equal(&rt, printed.as_str(), *text);
        equal(&rt, *cause as u8, *number);
    }
}
