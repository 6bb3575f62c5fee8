//! Reads the words of the command line, `[--bits H] [--workers W] [--updates U] [FILE]`.
ghost use Rattle.std.specs.Prelude.{◌≡◌, false, None, IfOk, IfErr, OnOk, [], codes, map, option_map, string_bytes};
ghost use Rattle.clap.specs.Words.{FailsBy, app_of, fault_of, first_of, found_of, kind_of, matches_of, new_rule, rows_of, rule_of};
ghost use Rattle.aug_command.specs.CommandLine.{IsReadFrom, IsStopFor, number_rule, program};
ghost use Rattle.aug_command.specs.inside.FoundNumbers.{FindsNumbers};
ghost use Rattle.aug_command.specs.inside.Stops.{StopsReading, TellsOf};

use crate::command_line::options::Options;
use crate::command_line::stop::Stop;
use aug_script::Limits;
use clap::error::ErrorKind;
use clap::{Arg, ArgAction, ArgMatches, Command, Error, value_parser};
use std::alloc::{AllocError, Global};

/// What the words of the command line ask for. They come without the program's own name. `Help` is the answer to `--help`, and
/// `Usage` to words that are wrong, each with the parser's text. `TooLarge` is the answer if a round that opens with every key
/// would have more than 2^26 words.
pub fn options(alloc: Global, words: &[String]) -> Result<Options, Stop>
    ensures asked { IfOk result (IsReadFrom (matches_of program (map string_bytes words.now))) }
    ensures right { OnOk result (fault_of program (map string_bytes words.now) ≡ []) }
    ensures stopped { IfErr result (IsStopFor (map string_bytes words.now)) }

    // With no words: keys below 2^4, one lane with 64 updates, and no file.
    ensures usual { words.now ≡ [] → IfOk result (λ o. o ≡ record { limits = record { bits = 4; workers = 1; updates = 64 }; file = None }) }
{
    match parse(alloc, words) {
        Ok(matches) => options_of(alloc, &matches),
        Err(error) => Err(stop_of(alloc, &error)),
    }
}

// What the parser finds in the words.
fn parse<'a>(alloc: Global, words: &'a [String]) -> Result<ArgMatches<'a>, Error>
    ensures rows { IfOk result (λ m. rows_of (found_of m) ≡ matches_of program (map string_bytes words.entry.now)) }
    ensures numbers { IfOk result (λ m. FindsNumbers (found_of m)) }
    ensures fails { FailsBy (fault_of program (map string_bytes words.entry.now)) result }
{
    command(alloc)?.try_get_matches_from(words)
}

// The program's arguments.
fn command<'a>(alloc: Global) -> Result<Command<'a>, AllocError>
    ensures { IfOk result (λ c. app_of c ≡ program) }
{
    Command::new(alloc, "augtrie")
        .about("Runs a script over a set of keys, and prints a reply for each row")
        .no_binary_name(true)
        .arg(bits(alloc))?
        .arg(workers(alloc))?
        .arg(updates(alloc))?
        .arg(file(alloc))
}

fn bits<'a>(alloc: Global) -> Arg<'a>
    ensures rule { rule_of result ≡ number_rule (codes "bits") 16 (codes "4") }
    ensures own { result.global ≡ false }
{
    Arg::new(alloc, "bits")
        .long("bits")
        .action(ArgAction::Set)
        .value_name("H")
        .value_parser(value_parser!(u32).range(1..=16))
        .default_value("4")
        .help("Keys are below 2^H at first")
}

fn workers<'a>(alloc: Global) -> Arg<'a>
    ensures rule { rule_of result ≡ number_rule (codes "workers") 64 (codes "1") }
    ensures own { result.global ≡ false }
{
    Arg::new(alloc, "workers")
        .long("workers")
        .action(ArgAction::Set)
        .value_name("W")
        .value_parser(value_parser!(u32).range(1..=64))
        .default_value("1")
        .help("Lanes are below W")
}

fn updates<'a>(alloc: Global) -> Arg<'a>
    ensures rule { rule_of result ≡ number_rule (codes "updates") 65536 (codes "64") }
    ensures own { result.global ≡ false }
{
    Arg::new(alloc, "updates")
        .long("updates")
        .action(ArgAction::Set)
        .value_name("U")
        .value_parser(value_parser!(u32).range(1..=65_536))
        .default_value("64")
        .help("How many rows of a lane may insert, put or remove in a round")
}

fn file<'a>(alloc: Global) -> Arg<'a>
    ensures rule { rule_of result ≡ new_rule (codes "FILE") }
    ensures own { result.global ≡ false }
{
    Arg::new(alloc, "FILE").help("The script; without it standard input is read")
}

// What was found, as options.
fn options_of(alloc: Global, matches: &ArgMatches<'_>) -> Result<Options, Stop>
    requires { FindsNumbers (found_of matches.now) }
    ensures ok { IfOk result (IsReadFrom (rows_of (found_of matches.now))) }
    ensures err { IfErr result (StopsReading (rows_of (found_of matches.now))) }
{
    let bits = matches.get_one("bits").unwrap();
    let workers = matches.get_one("workers").unwrap();
    let updates = matches.get_one("updates").unwrap();
    let Ok(limits) = Limits::try_new(bits, workers, updates) else {
        return Err(Stop::TooLarge);
    };
    match file_of(alloc, matches) {
        Ok(file) => Ok(Options { limits, file }),
        Err(_) => Err(Stop::OutOfMemory),
    }
}

// The path that was found.
fn file_of(alloc: Global, matches: &ArgMatches<'_>) -> Result<Option<String>, AllocError>
    ensures { IfOk result (λ file. option_map string_bytes file ≡ first_of (codes "FILE") (rows_of (found_of matches.now))) }
{
    match matches.get_str("FILE") {
        Some(path) => Ok(Some(String::from_str(alloc, path)?)),
        None => Ok(None),
    }
}

// The answer for an error of the parser: help, if it was requested, and lack of memory have answers of their own.
fn stop_of(alloc: Global, error: &Error) -> Stop
    ensures told { TellsOf (kind_of error.now) result }
    ensures memory { kind_of error.now ≡ ErrorKind.OutOfMemory → result ≡ Stop.OutOfMemory }
{
    let kind = error.kind();
    if kind == ErrorKind::OutOfMemory {
        return Stop::OutOfMemory;
    }
    match format!(in alloc; "{error}") {
        Ok(text) if kind == ErrorKind::DisplayHelp => Stop::Help(text),
        Ok(text) => Stop::Usage(text),
        Err(_) => Stop::OutOfMemory,
    }
}
