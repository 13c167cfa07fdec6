//! Lines of inputs, and what was searched, as JSON objects in the way of ripgrep.
//!
//! Each object is a line of its own. `specs/Events.antt` defines them as tokens of the toolchain's `json`, whose writer is proved to write
//! these. Times are given by the caller, and are printed as they are.
#![tactic(auto)]

mod elapsed;
mod events;
mod stats;
mod values;

pub use elapsed::Elapsed;
pub use events::{Kind, Lines, push_begin, push_end, push_lines, push_summary};
pub use stats::Stats;
