//! The options of the command line.
use aug_script::Limits;

/// What the command line asks for.
#[derive(Debug, Drop)]
pub struct Options {
    /// What the script may ask for.
    pub limits: Limits,
    /// The path of the script; none stands for standard input.
    pub file: Option<String>,
}
