//! Capture groups of regexes of several patterns.
//!
//! [`Groups`] goes with a [`meta_regex::Regex`] and its cache. It finds matches with the offsets of their groups, as the toolchain's matcher
//! has them, whatever loops consume.
#![tactic(auto)]

mod captures;
mod copies;
mod errors;
mod groups;
pub mod laws;
mod list;
mod next;
mod pattern_groups;
mod replacement;
mod replacing;
mod splitting;

pub use errors::CapturesError;
pub use group_finder::NO_OFFSET;
pub use groups::Groups;
pub use replacement::Replacement;
