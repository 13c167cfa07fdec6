//! Searches that skip the bytes that lead from a state back to it.
mod accel_bytes;
mod accel_next;
pub(crate) mod accel_rounds;
mod byte_tests;
mod cache_skip;
mod half_tables;
mod pairs;
mod row_tables;
pub(crate) mod skip;
