//! Looks (look-around assertions): conditions on an offset between two bytes of a haystack, and sets of
//! looks.
//!
//! The definitions are in `specs/`. The laws are public functions without code: [`look_set_laws`] has those
//! of looks and of sets of looks, [`matcher_laws`] and [`laws`] those of where looks hold.
//! ```rust
//! pub fn is_edge_of_word(haystack: &[u8], at: usize) -> bool {
//!     at <= haystack.len() && LookMatcher::default().matches(Look::WordAscii, haystack, at)
//! }
//! ```
#![tactic(auto)]

pub mod laws;
mod line_term;
mod look;
mod look_matcher;
mod look_set;
mod look_set_iter;
pub mod look_set_laws;
pub mod matcher_laws;
mod side;
mod unicode_error;
mod word_class;

pub use line_term::LineTerm;
pub use look::Look;
pub use look_matcher::LookMatcher;
pub use look_set::LookSet;
pub use look_set_iter::LookSetIter;
pub use unicode_error::UnicodeWordBoundaryError;
pub use word_class::{AsciiWord, WordClass};
