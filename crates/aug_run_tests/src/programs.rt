//! The program over devices that are in memory: its words, its statuses and its texts.
use crate::assertions::equal;
use crate::test_input::TestInput;
use aug_command::options;
use aug_run::carry_out;
use aug_script::MemorySink;
use aug_testing::Host;
use std::alloc::{AllocError, Global};
use std::sync::Wait;
use std::test::Fail;
use std::thread::Threads;

// The words of a line, parted by blanks.
fn words_of(alloc: Global, line: &str) -> Result<Vec<String>, AllocError> {
    let mut words = Vec::new(alloc);
    for word in line.split_whitespace() {
        words.push(String::from_str(alloc, word)?)?;
    }
    Ok(words)
}

// What the program left: its status, how often a file was asked for, its output and its errors.
#[derive(Drop)]
struct Left {
    status: u8,
    opened: u64,
    output: MemorySink,
    errors: MemorySink,
}

// Standard input looks, and the file `a.csv` asks for the size. Each sink fails at the call with its number.
fn left_by<R: Host + Threads + Wait>(
    rt: &R,
    words: &[String],
    output_fault: Option<u64>,
    errors_fault: Option<u64>,
) -> Left {
    let mut input = TestInput::new(b"0,look\n", "a.csv", b"0,size\n");
    let mut output = MemorySink::new(rt.alloc(), 7, output_fault);
    let mut errors = MemorySink::new(rt.alloc(), 7, errors_fault);
    let asked = options(rt.alloc(), words);
    let status = carry_out(rt, rt.alloc(), asked, &mut input, &mut output, &mut errors);
    let opened = input.opened;
    Left {
        status,
        opened,
        output,
        errors,
    }
}

// What the program leaves of a line of words: its status, how often a file is asked for, and what goes out to both sinks.
type Leaves<'a> = (u8, u64, &'a str, &'a str);

fn assert_leaves<R: Host + Threads + Wait>(
    rt: &R,
    line: &str,
    faults: (Option<u64>, Option<u64>),
    leaves: Leaves<'_>,
) -> Result<(), AllocError> {
    let words = words_of(rt.alloc(), line)?;
    let left = left_by(rt, words.as_slice(), faults.0, faults.1);
    let (status, opened, output, errors) = leaves;
    equal(rt, (line, left.status, left.opened), (line, status, opened));
    equal(rt, left.output.out.as_slice(), output.as_bytes());
    equal(rt, left.errors.out.as_slice(), errors.as_bytes());
    Ok(())
}

const NONE: (Option<u64>, Option<u64>) = (None, None);

const LINES: &[(&str, (Option<u64>, Option<u64>), Leaves<'static>)] = &[
    (
        "a.csv",
        NONE,
        (0, 1, "1 0 size = 0\n1 end size=0 in=0 out=0\n", ""),
    ),
    ("b.csv", NONE, (3, 1, "", "augtrie: input\n")),
    // What cannot be written changes no status.
    ("", (Some(1), None), (3, 0, "1 0 loo", "augtrie: output\n")),
    ("", (Some(2), Some(0)), (3, 0, "1 0 look = ok\n", "")),
    ("--help", (Some(0), Some(0)), (0, 0, "", "")),
    ("--bits 17", (Some(0), Some(0)), (2, 0, "", "")),
    ("b.csv", (Some(0), Some(1)), (3, 1, "", "augtrie")),
    // Wrong words are told before the file is opened.
    (
        "--bits 16 --workers 64 --updates 13108 a.csv",
        NONE,
        (2, 0, "", "augtrie: TooLarge\n"),
    ),
];

// `tests/program` has the texts of help and of wrong words.
#[test]
fn each_line_of_words_has_its_status_and_its_texts(rt: HostRuntime) -> Result<(), Fail> {
    for (line, faults, leaves) in LINES {
        assert_leaves(&rt, line, *faults, *leaves)?;
    }
    Ok(())
}
