//! What is written of results and errors.
pub(crate) mod messages;
pub(crate) mod output;
pub(crate) mod shown;
pub(crate) mod stop;
