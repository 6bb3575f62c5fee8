//! A set of keys with weights that threads share. Passes update it by double refresh, and look at it by snapshots.
#![tactic(auto)]

mod error;
mod lasting;
mod queries;
mod rounds;
mod turns;
mod updates;

pub use aug_model::Outcome;
pub use error::{BeginError, CrewError, LastingError};
pub use lasting::crew::LastingCrew;
pub use lasting::pass::LastingPass;
pub use lasting::table::Lasting;
pub use queries::cursor::SnapshotCursor;
pub use queries::node::Node;
pub use queries::snapshot::Snapshot;
pub use queries::view::View;
pub use rounds::crew::Crew;
pub use rounds::ended::Ended;
pub use rounds::ended_tree::EndedNode;
pub use rounds::half::PassHalf;
pub use rounds::members::{AllMembers, Members};
pub use rounds::note::Note;
pub use rounds::pass::Pass;
pub use rounds::pop::{Pop, Side};
pub use rounds::reader::Reader;
pub use rounds::round::Round;
pub use turns::climb::{Climb, Turn};
pub use updates::request::Request;
pub use updates::told::Told;
