//! An update by single turns. Each turn makes one step.

pub(crate) mod ascents;
pub(crate) mod climb;
pub(crate) mod points;
pub(crate) mod stages;
