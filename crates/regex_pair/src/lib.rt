//! Two automata that search as one: forward for the end of a match, and in reverse from there for its start.
//!
//! What a search answers is a function of values that knows no cache: two half searches, joined. The definitions are in `specs/`:
//!
//! - `Joined.antt`: the answer of a search;
//! - `Pairs.antt`: a pair and its caches;
//! - `PairAnswers.antt`: what searches over them answer, leave and cost;
//! - `PairProgress.antt`: how far searches came;
//! - `Matching.antt`: whether there is a match;
//! - `Finding.antt`: matches one after the other;
//! - `FindSteps.antt` and `StepSearches.antt`: what contracts see of an iterator over matches;
//! - `Taken.antt`: what a loop over the iterator keeps.
//!
//! Laws are public functions without code in [`pair_laws`] and [`taken_laws`].
//! ```rust
//! pub fn caches_of(alloc: Global, re: &Regex) -> Result<Cache, AllocError> {
//!     re.create_cache(alloc)
//! }
//! ```
#![tactic(auto)]

mod builder;
mod cache;
mod find_matches;
pub mod pair_laws;
pub mod regex;
mod searching;
pub mod taken_laws;
