//! Passes of a table that uses records again: they have no budget.

pub(crate) mod batch;
pub(crate) mod crew;
pub(crate) mod lifting;
pub(crate) mod pass;
pub(crate) mod pop;
pub(crate) mod runs;
pub(crate) mod table;
pub(crate) mod working;
