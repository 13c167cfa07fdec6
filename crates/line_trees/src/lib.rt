//! A tree that is meant for one line, read for a block of lines.
//!
//! [`wordless_tree`] makes a tree that matches more, and that automata can search any bytes for. The definitions are in `specs/`; the laws are public functions without code, in [`laws`]. [`line_tree`] makes such a
//! tree.
#![tactic(auto)]

pub mod laws;
mod trees;
mod wordless;

pub use trees::{
    all_line_trees, any_has_crlf, any_reads_feed, has_crlf, line_end, line_look, line_tree,
    reads_feed,
};
pub use wordless::{all_wordless_trees, wordless_tree};
