//! Which files are searched, and what is found in folders.
pub(crate) mod folder_search;
pub(crate) mod ignoring;
mod path_names;
mod rule_files;
pub(crate) mod selecting_files;
pub(crate) mod walking;
