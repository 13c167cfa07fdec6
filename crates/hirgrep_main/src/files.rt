//! How files are opened and listed.
mod listing;
pub(crate) mod opening;
