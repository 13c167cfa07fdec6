//! What was searched, and what is written of it.
pub(crate) mod messages;
pub(crate) mod outcome;
pub(crate) mod totals;
