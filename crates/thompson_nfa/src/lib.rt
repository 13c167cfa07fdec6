//! Compiles expression trees to automata over bytes.
//! ```rust
//! pub fn automaton_of(alloc: Global, trees: &[Hir]) -> Result<NFA, BuildError> {
//!     let mut compiler = Compiler::new(alloc);
//!     compiler.build_many_from_hir(trees)
//! }
//! ```
#![tactic(auto)]

mod class_fragments;
mod compile;
mod compiler;
mod compiling;
mod config;
mod drafts;
mod laws;
mod leaves;
mod literals;
mod patterns;
mod range_tries;
mod trees;
mod which_captures;

pub use class_fragments::utf8_bounded_map::Utf8BoundedMap;
pub use class_fragments::utf8_suffix_map::{Utf8SuffixKey, Utf8SuffixMap};
pub use compiler::Compiler;
pub use config::Config;
pub use laws::{compile_laws, room_laws};
pub use range_tries::range_trie::RangeTrie;
pub use which_captures::WhichCaptures;
