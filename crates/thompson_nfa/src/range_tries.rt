//! Tries of ranges of bytes, and the classes that are compiled by them.
pub(crate) mod class_trie;
mod range_copy;
mod range_cover;
mod range_insert;
pub(crate) mod range_trie;
mod range_walk;
mod trie_nodes;
