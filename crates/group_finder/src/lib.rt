//! The groups of a match of one pattern, if the start of the match is known.
//!
//! A [`GroupFinder`] is made of a pattern. It finds the match that the pattern has from an offset, by the toolchain's tagged automaton, or
//! by its PikeVM if the automaton declines. [`GroupNames`] has the number of the groups and their names.
#![tactic(auto)]

mod errors;
mod finder;
mod layout;
mod lengths;
mod names;
mod slots;
mod steps;

pub use errors::NewError;
pub use finder::GroupFinder;
pub use names::GroupNames;
pub use slots::{NO_OFFSET, clear};
