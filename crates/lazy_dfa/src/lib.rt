//! Lazy DFAs: byte automata that are determinized while they are searched. A search builds the powerset states that it needs, and keeps
//! them in a cache of bounded size.
//!
//! A half search finds one end of a match: its end when forward, its start when in reverse. Its answer is a function of values and
//! doesn't depend on the cache. `specs/Readers.antt` defines what it depends on, `Scans.antt` one scan, `scan`, and `HalfSearches.antt`
//! the whole half search with its restarts, `half_search`. Their laws are public functions without code in [`pass_laws`], [`scan_laws`]
//! and [`reach_laws`], stated with the definitions of `ScanLaws.antt` and `HalfSearchLaws.antt`. `Quits.antt` defines which bytes are
//! quit bytes, with laws in [`quit_laws`]. `Accounting.antt` defines how many bytes a cache is counted to need, with laws in
//! [`accounting_laws`].
//!
//! An overlapping search reports all ends, one by one. `Overlapping.antt` defines what is left of one, and `OverlappingAnswers.antt` what
//! its calls return. Its laws are in [`walk_laws`], stated with the definitions of `OverlappingLaws.antt`.
//!
//! Options are defined in `ConfigValue.antt` and automata in `Dfas.antt`. `Caches.antt` defines caches and how a cache belongs to its
//! automaton. Steps are in `Steps.antt`, start states in `StartCalls.antt`, and the start states of searches over an input in
//! `SearchStarts.antt`. `LeftProgress.antt` defines what a search reports that gives up, with laws in [`room_laws`]. `Building.antt`
//! defines what is built of an NFA, and why the build fails.
//! ```rust
//! pub fn was_never_cleared(cache: &Cache) -> bool {
//!     cache.clear_count() == 0
//! }
//! ```
#![tactic(auto)]

mod accel;
mod automaton;
mod build_error;
mod cache;
mod cache_error;
mod laws;
mod lazy_id;
mod overlapping;
mod search;
mod start_error;
mod steps;
mod work;

pub use automaton::dfa;
pub use build_error::BuildError;
pub use cache_error::CacheError;
pub use laws::{
    accounting_laws, cache_laws, change_laws, pass_laws, quit_laws, reach_laws, room_laws,
    scan_laws, walk_laws,
};
pub use lazy_id::LazyStateID;
pub use start_error::StartError;
pub use work::Work;
