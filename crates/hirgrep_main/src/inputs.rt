//! How inputs are read, and what is printed for them.
pub(crate) mod binary;
pub(crate) mod columns;
pub(crate) mod input_report;
pub(crate) mod reading;
mod reporting;
mod whole_report;
