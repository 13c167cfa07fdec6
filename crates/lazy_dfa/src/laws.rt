//! Laws: public functions without code, whose contracts say what holds for all values.
pub mod accounting_laws;
pub mod cache_laws;
pub mod change_laws;
pub mod pass_laws;
pub mod quit_laws;
pub mod reach_laws;
pub mod room_laws;
pub mod scan_laws;
pub mod walk_laws;
