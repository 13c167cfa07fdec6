//! Several patterns as text, and what searches for their trees find.
//!
//! [`parse_all`] makes the trees of patterns, in their order. The definitions say what is found of them in terms of the toolchain's
//! grammar and matcher. `specs/Searches.antt` has what trees define, with laws in [`laws`]. `RegexAnswers.antt` has what regexes
//! answer, with laws in [`regex_laws`]. [`search_from`] makes the searches that these are about.
//! ```rust
//! pub fn trees_of(alloc: Global, texts: &[&str]) -> Result<Vec<Hir>, PatternError> {
//!     parse_all(alloc, texts, &Config::new())
//! }
//! ```
#![tactic(auto)]

pub mod laws;
mod parsing;
pub mod regex_laws;
mod searching;

pub use parsing::{PatternError, parse_all};
pub use searching::search_from;
