//! What the program is asked, what it reads and prints, and why it stops: its command line, its input, its reports, and the status and the line of each fault.
#![tactic(auto)]

mod command_line;
mod fault_line;
mod input;
mod printing;
mod reading;
mod run_error;

pub use command_line::options::Options;
pub use command_line::stop::Stop;
pub use command_line::words::options;
pub use input::Input;
pub use printing::{PrintError, print};
pub use reading::{ReadError, SCRIPT_LIMIT, read_all};
pub use run_error::RunError;
