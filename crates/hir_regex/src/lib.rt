//! Regexes of trees, and the promise of searches over them.
//!
//! [`build`] makes a regex of trees. What the regex is, and why the call fails, is in `specs/Built.antt`. What the trees define
//! is in `Choices.antt` and `Headline.antt`. That searches over the regex return just that is in [`headline`]. The laws over
//! values on which this rests are in [`search_laws`], and those of overlapping searches in [`tree_walk_laws`]. On which bytes an
//! answer depends is in [`reach_laws`]. Laws of what trees define are in [`laws`].
//! ```rust
//! pub fn regex_of(alloc: Global, trees: &[Hir]) -> Result<Regex, BuildError> {
//!     build(alloc, trees, &Settings::new())
//! }
//! ```
#![tactic(auto)]

mod building;
pub mod headline;
pub mod laws;
mod loops;
pub mod reach_laws;
pub mod search_laws;
mod searching;
mod settings;
pub mod tree_walk_laws;

pub use building::build;
pub use loops::{all_loops_read, first_empty_loop};
pub use searching::{find, first_broken, is_search_of, see_bytes};
pub use settings::{Settings, program_settings};
