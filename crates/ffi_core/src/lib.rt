//! Compiled regexes for callers from outside: the safe part of the library for C.
//!
//! A [`Compiled`] regex is one of [`meta_regex`] together with a cache of its searches. It is made once from patterns and [`Options`], whose
//! flags are numbers, and searched many times.
//!
//! [`patterns_of`] splits a caller's bytes into patterns. [`Failure`] is an error in numbers, and [`error_text`] writes a message for it.
#![tactic(auto)]

mod compiled;
mod failure;
mod groups;
mod options;
mod replacing;
mod stream_sets;
mod texts;
mod words;

pub use captures::{CapturesError, NO_OFFSET};
pub use compiled::Compiled;
pub use failure::{Failure, NewError};
pub use meta_regex::{FoundMatch, SearchError};
pub use options::Options;
pub use stream_sets::streams_of;
pub use texts::{accepts, patterns_of};
pub use words::error_text;
