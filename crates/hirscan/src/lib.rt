//! A program that reads trees in a postfix notation and then a haystack, and prints the spans.
//!
//! [`run`] goes from a reader to a writer, and [`read_head`] reads the notation alone. `specs/Takes.antt` defines what each line
//! does, `Reads.antt` how a query reads, and `LineFault.antt` where a text has its first fault. Why a query is rejected with its
//! haystack is in `Rejections.antt`, and the reply in `Reply.antt`. Their laws are in [`laws`], those of the notation in
//! [`reading_laws`], and those of its words in [`word_laws`].
//!
//! The regex of a query's trees is built by [`build`] of [`hir_regex`], and its settings are [`Settings`] of that crate. Its
//! functions and laws can be named by this crate too.
#![tactic(auto)]

mod causes;
mod ending;
mod fault;
mod head;
pub mod laws;
mod line;
mod program;
pub mod reading_laws;
mod reply;
mod split;
pub mod word_laws;
mod words;

pub use ending::Ending;
pub use fault::{Fault, FaultKind};
pub use head::{Head, read_head};
pub use hir_regex::{
    Settings, all_loops_read, build, find, first_empty_loop, headline, is_search_of,
    program_settings, reach_laws, search_laws, tree_walk_laws,
};
pub use program::{RunError, run};
