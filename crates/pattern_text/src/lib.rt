//! Patterns as text in the syntax of the crate `regex`, and their expression trees.
//!
//! [`parse`] reads a pattern with the options of a [`Config`]. It returns the tree of what the grammar of the
//! toolchain's `regex_syntax` reads, or why the pattern is rejected and where. [`tree_of`] makes the tree of a
//! pattern that is parsed already. `Patterns.antt` and `SameEnds.antt` in `specs/` define what a pattern as
//! text means, with laws in [`laws`].
//! ```rust
//! pub fn in_either_case(alloc: Global, text: &str) -> Result<Hir, ParseError> {
//!     parse(alloc, text, &Config::new().case_insensitive(true))
//! }
//! ```
#![tactic(auto)]

mod classes;
mod config;
pub mod laws;
mod look;
mod parse_error;
mod parsing;
mod trees;
mod unicode_word;

pub use config::Config;
pub use look::look_of;
pub use parse_error::ParseError;
pub use parsing::parse;
pub use regex_syntax::{ErrorKind, Span};
pub use trees::tree_of;
pub use unicode_word::UnicodeWord;
