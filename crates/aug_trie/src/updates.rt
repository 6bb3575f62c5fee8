//! An update by one call.

pub(crate) mod batch;
pub(crate) mod leaf_words;
pub(crate) mod parts;
pub(crate) mod propagate;
pub(crate) mod refreshing;
pub(crate) mod request;
pub(crate) mod told;
pub(crate) mod update;
