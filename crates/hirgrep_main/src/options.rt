//! What the command line and the environment ask for.
pub(crate) mod asked;
pub(crate) mod decisions;
mod grep_colors;
pub(crate) mod loops;
pub(crate) mod patterns;
pub(crate) mod texts;
