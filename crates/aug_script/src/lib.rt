//! Scripts, their replies and reports: bytes to rows, and reports to bytes.
#![tactic(auto)]

mod devices;
mod fault_text;
mod field;
mod from_read;
mod item;
mod judge;
mod limits;
mod listed;
mod memory;
mod open_rounds;
mod reading;
mod records;
mod reply;
mod report;
mod row;
mod script_error;
mod script_round;
mod sending;
mod to_write;
mod verb;

pub use aug_core::LayoutError;
pub use devices::{Fault, Sink, Source};
pub use fault_text::FaultText;
pub use from_read::FromRead;
pub(crate) use item::Item;
pub use limits::Limits;
pub use listed::Listed;
pub use memory::{MemorySink, MemorySource};
pub use reading::Script;
pub use reply::Reply;
pub use report::Report;
pub use row::Row;
pub use script_error::ScriptError;
pub use script_round::ScriptRound;
pub use sending::send;
pub use to_write::ToWrite;
pub use verb::Verb;
