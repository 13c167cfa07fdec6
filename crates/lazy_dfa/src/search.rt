//! Half searches, their scans, and the loops in which these spend their time.
mod bytewise;
mod match_loop;
pub(crate) mod passing;
pub(crate) mod position;
pub(crate) mod runs;
pub(crate) mod scan_steps;
pub(crate) mod searching;
