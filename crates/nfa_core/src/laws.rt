//! Laws: public functions without code, whose contracts say what holds for all values.
pub mod builder_laws;
pub mod builder_size_laws;
pub mod nfa_laws;
pub mod place_laws;
pub mod run_laws;
pub mod text_laws;
pub mod walk_laws;
pub mod way_laws;
