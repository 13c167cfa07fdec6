//! Patterns as text, printed as a query in the notation that `hirscan` reads.
//!
//! [`query_for`] parses patterns in the syntax of the crate `regex`. It returns the query of their trees, or which pattern is
//! rejected, why and where. [`write_query`] makes the query of trees.
//!
//! The lines of a tree are defined in `specs/Lines.antt`, and the tree that they make in `Written.antt`. Which trees have lines is
//! in `HasLines.antt`, and what a query says of the patterns in `Queries.antt`, with laws in [`laws`].
#![tactic(auto)]

mod heads;
pub mod laws;
mod lines;
mod look_names;
mod pattern_options;
mod pointing;

pub use heads::{Cause, QueryError, query_for, write_query};
pub use lines::{Unfit, UnfitTree};
pub use pattern_options::PatternOptions;
pub use pointing::pointed;
