//! All options, as rows of tables.

pub mod folders;
pub mod inputs;
pub mod others;
pub mod patterns;
pub mod printing;
