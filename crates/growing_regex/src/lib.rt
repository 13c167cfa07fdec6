//! Regexes whose caches are enlarged if they are cleared too soon, with a search for the least end of all matches.
//!
//! A lazy automaton builds its states as it searches, in a cache of bounded size. If a search needs more states than there is room for, the
//! cache is cleared again and again, and the search builds states for most of its time. A [`GrowingRegex`] then goes on with copies of its
//! automata that have larger caches. What it finds doesn't depend on that, so contracts speak of the automata as they were made
//! (`specs/Growing.antt`).
//!
//! [`GrowingRegex::find_earliest_end`] makes one search forward that stops at the first end that it finds. `specs/Earliest.antt` defines what
//! its result says, by the spans that the trees of the regex match. The laws are public functions without code in [`laws`].
#![tactic(auto)]

mod earliest_search;
mod failures;
pub mod laws;
mod listing;
mod overlapping_search;
mod regex;
mod resizing;
mod size;

pub use failures::lacks_memory;
pub use regex::{GrowingRegex, LARGEST, largest_for};
pub use resizing::{shared, with_options};
pub use size::Size;
