//! Classes of bytes and of scalars as fragments.
pub(crate) mod class;
mod fnv;
mod scalar_ascii;
pub(crate) mod scalar_class;
mod scalar_forward;
mod scalar_reverse;
mod scalar_shrunk;
mod slots;
pub(crate) mod utf8_bounded_map;
mod utf8_compiler;
pub(crate) mod utf8_state;
pub(crate) mod utf8_suffix_map;
