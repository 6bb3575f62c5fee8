//! Words of the command line that are taken.
use crate::assertions::equal;
use aug_command::{Options, options};
use std::alloc::{AllocError, Global};
use std::process::Abort;
use std::test::Fail;

// The words of a line, parted by blanks.
fn words_of(alloc: Global, line: &str) -> Result<Vec<String>, AllocError> {
    let mut words = Vec::new(alloc);
    for word in line.split_whitespace() {
        words.push(String::from_str(alloc, word)?)?;
    }
    Ok(words)
}

// The path that was asked for.
fn path_of(options: &Options) -> Option<&str> {
    match &options.file {
        Some(path) => Some(path.as_str()),
        None => None,
    }
}

// Compares what the words of a line ask for with bits, workers and updates, and a path.
fn assert_asks(
    rt: &impl Abort,
    alloc: Global,
    line: &str,
    numbers: (u32, u32, u32),
    file: Option<&str>,
) -> Result<(), Fail> {
    let words = words_of(alloc, line)?;
    let asked = options(alloc, words.as_slice()).ok().ok_or("no options")?;
    let limits = &asked.limits;
    equal(
        rt,
        (limits.bits(), limits.workers(), limits.updates()),
        numbers,
    );
    equal(rt, path_of(&asked), file);
    Ok(())
}

const LINES: &[(&str, (u32, u32, u32), Option<&str>)] = &[
    ("", (4, 1, 64), None),
    ("--bits 1", (1, 1, 64), None),
    ("--updates 2 --bits=16", (16, 1, 2), None),
    (
        "--workers 1 a/b.csv --updates 65536",
        (4, 1, 65_536),
        Some("a/b.csv"),
    ),
    ("-- --bits", (4, 1, 64), Some("--bits")),
    (
        "--bits 16 --workers 64 --updates 13017",
        (16, 64, 13_017),
        None,
    ),
];

#[test]
fn reads_options_and_a_file(rt: HostRuntime) -> Result<(), Fail> {
    for (line, numbers, file) in LINES {
        assert_asks(&rt, rt.alloc(), line, *numbers, *file)?;
    }
    Ok(())
}
