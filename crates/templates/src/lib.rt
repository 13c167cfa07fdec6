//! Replacement templates, in which `$1`, `$name` and `${name}` stand for groups of a match, and `$$` for a dollar sign.
//!
//! A [`Template`] is read once, with the names of the groups of a pattern. Then it writes what it stands for at each match, by the slots of
//! the match. The crate has no engine.
#![tactic(auto)]

mod reading;
mod slots;
mod template;

pub use slots::{bytes_between, group_in};
pub use template::Template;
