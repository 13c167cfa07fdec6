//! Finding lines: what patterns match in lines and in blocks of lines.
//!
//! [`LinePatterns`] has the patterns, as one tree. A [`Finder`] finds in which line of a block there may be a match, whether a line has one,
//! and all of them. `specs/Patterns.antt` defines which lines patterns match, over the lines that `Lines.antt` defines, and `Bounded.antt` what
//! whole lines and whole words are. [`laws`] has laws about these definitions. All contracts of a [`Finder`] are about what it finds
//! (`Searchers.antt`), so none shows which of its searches found it.
#![tactic(auto)]

mod bounded;
mod candidate_finder;
mod candidates;
mod edges;
mod fallback;
mod fault;
mod feeds;
mod fewer_words;
mod finder;
mod joining;
pub mod laws;
mod line_patterns;
mod literal_lines;
mod parsed_patterns;
mod pattern_groups;
mod patterns;
mod plain_patterns;
mod regexes;
mod replacing;
mod searcher;
mod slow_search;
mod strings;

pub use candidates::{Reached, line_start};
pub use fault::Fault;
pub use feeds::feed_at;
pub use finder::Finder;
pub use line_patterns::LinePatterns;
pub use patterns::{PatternOptions, config_of, pattern_source};
pub use replacing::Replaced;
pub use searcher::SearcherError;
