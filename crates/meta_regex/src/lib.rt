//! Regexes of several patterns, as `regex_automata::meta`: the engine on which grep and the library for C stand.
//!
//! A [`Regex`] is made once from patterns and [`Options`] and never changes. Searches need a [`Cache`] that was made for it. They return what
//! the patterns match by the toolchain's grammar and matcher, as `specs/Regexes.antt` defines it. No search gives up: where the automata do,
//! programs of the toolchain for the same patterns answer.
#![tactic(auto)]

mod anchored;
mod building;
mod cache;
mod char_rounds;
mod compiled;
mod errors;
mod fallback;
mod find_all;
mod first_bytes;
mod found_match;
mod literal_starts;
mod matching_patterns;
mod options;
mod overlapping;
mod parts;
mod rounds;
mod runs;
mod searching;
mod sequences;
mod short_loops;
mod splitting;
mod texts;
mod ways;
mod wordless;

pub use cache::Cache;
pub use compiled::Regex;
pub use errors::{NewError, SearchError};
pub use found_match::FoundMatch;
pub use options::Options;
