//! Patterns as expression trees, with the facts that are known of a tree without a haystack.
//!
//! A [`Hir`] is made by its constructors and read by [`Hir::kind`]. It is kept as given: nothing is
//! simplified. `Means.antt` in `specs/` defines which spans a tree matches, and `PreferredEnds.antt` which of
//! them it prefers. The laws are in these modules:
//!
//! - [`laws`]: these two definitions;
//! - [`fact_laws`]: the facts;
//! - [`utf8_sequences_laws`]: the byte sequences of scalars;
//! - [`sequence_tree_laws`]: these sequences as trees;
//! - [`cut_laws`]: haystacks that are cut at an offset;
//! - [`span_laws`]: where spans lie and what they depend on.
//! ```rust
//! pub fn start_of_line() -> Hir
//!     ensures { result ≡ look StartLF }
//! {
//!     Hir::look(Look::StartLF)
//! }
//! ```
#![tactic(auto)]

mod class_facts;
pub mod cut_laws;
pub mod fact_laws;
mod facts;
mod hir;
pub mod laws;
mod look_facts;
mod properties;
mod ranges;
pub mod sequence_tree_laws;
pub mod span_laws;
mod utf8_sequences;
pub mod utf8_sequences_laws;

pub use hir::{Hir, HirKind};
pub use properties::Properties;
pub use ranges::{is_ascending, is_ascending_chars};
pub use utf8_sequences::{Utf8Range, Utf8Sequence, Utf8Sequences};
