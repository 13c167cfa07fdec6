//! The parameters of a search and its results: inputs, spans, matches, sets of patterns, groups and captures.
//!
//! The definitions are in `specs/`; their laws are public functions without code in [`answer_laws`],
//! [`all_answers_laws`], [`group_laws`] and [`captures_laws`].
//! ```rust
//! pub fn at_the_start(haystack: &[u8]) -> Input<'_> {
//!     Input::new(haystack).anchored(Anchored::Yes)
//! }
//! ```
#![tactic(auto)]

pub mod all_answers_laws;
mod anchored;
pub mod answer_laws;
mod broken_rules;
mod captures;
mod captures_iter;
pub mod captures_laws;
mod group_info;
mod group_info_error;
pub mod group_laws;
mod group_names;
mod haystack;
mod input;
mod match_error;
mod match_kind;
mod matches;
mod pattern_groups;
mod pattern_set;
mod pattern_set_iter;
mod span;

pub use anchored::Anchored;
pub use captures::Captures;
pub use captures_iter::CapturesPatternIter;
pub use group_info::GroupInfo;
pub use group_info_error::GroupInfoError;
pub use group_names::{GroupInfoAllNames, GroupInfoPatternNames};
pub use haystack::{Bytes, Haystack, Text};
pub use input::Input;
pub use match_error::{MatchError, MatchErrorKind};
pub use match_kind::MatchKind;
pub use matches::{HalfMatch, Match};
pub use pattern_set::{PatternSet, PatternSetInsertError};
pub use pattern_set_iter::PatternSetIter;
pub use span::Span;
