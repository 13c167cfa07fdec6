//! Literals that every match of a tree contains, and a search for them.
//!
//! [`required_literals`] finds them in a tree. [`LiteralSearch`] searches a haystack for the first of several literals.
//! [`CandidateFinder`] joins the two: it skips the parts of a haystack in which the tree has no match. The definitions are in
//! `specs/`.
#![tactic(auto)]

mod budget;
mod candidates;
mod classes;
mod lanes;
pub mod laws;
mod literals;
mod pair;
mod required;
mod searching;
mod sets;

pub use candidates::{CandidateFinder, Effort};
pub use literals::Literals;
pub use required::{Required, required_literals};
pub use searching::{LiteralSearch, Stop};
