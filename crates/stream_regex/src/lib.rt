//! Patterns as text for input that comes in pieces: their automaton, and many streams over it.
//!
//! A [`StreamRegex`] is made of patterns and [`Options`]. A [`StreamSet`] has one with a cache, and streams that are known by their numbers.
//! What a stream reports is defined in the crate `streams`; that these are the ends of what the patterns match is a law ([`laws`]).
#![tactic(auto)]

mod calls;
mod errors;
mod growing;
pub mod laws;
mod options;
mod regex;
mod resizing;
mod set;
mod set_calls;

pub use errors::NewError;
pub use options::Options;
pub use regex::StreamRegex;
pub use set::StreamSet;
