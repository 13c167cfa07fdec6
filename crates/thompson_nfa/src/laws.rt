//! Laws: public functions without code, whose contracts say what holds for all values.
pub mod compile_laws;
pub mod room_laws;
