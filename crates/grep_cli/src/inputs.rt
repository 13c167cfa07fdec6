//! How inputs are read.
pub(crate) mod binary;
pub(crate) mod counting;
pub(crate) mod first_bytes;
pub(crate) mod input;
pub(crate) mod reading;
pub(crate) mod retrying;
