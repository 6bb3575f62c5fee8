//! `augtrie` runs a script of CSV rows over a set of keys and prints a reply for each row and a total.
#![tactic(auto)]

mod input;

use aug_command::{Options, Stop, options};
use aug_run::carry_out;
use aug_script::ToWrite;
use input::HostInput;
use std::env;
use std::io::ErrorKind;
use std::process::ExitCode;

// The process gives its words, its input and its two streams; what is done with them is `carry_out`.
fn main(rt: HostRuntime) -> ExitCode {
    let asked = read_words(&rt);
    let mut input = HostInput::new(rt);
    let mut output = ToWrite::new(rt.stdout());
    let mut errors = ToWrite::new(rt.stderr());
    let status = carry_out(&rt, rt.alloc(), asked, &mut input, &mut output, &mut errors);
    ExitCode::from(status)
}

// What the words of the process ask for.
fn read_words(rt: &HostRuntime) -> Result<Options, Stop> {
    let alloc = rt.alloc();
    let words: Vec<String> = match env::args(rt) {
        Ok(words) => words.skip(1).collect(alloc)?,
        Err(error) if error.kind() == ErrorKind::OutOfMemory => return Err(Stop::OutOfMemory),
        Err(_) => {
            let text = String::from_str(alloc, "error: a word of the command line is no UTF-8\n")?;
            return Err(Stop::Usage(text));
        }
    };
    options(alloc, words.as_slice())
}
