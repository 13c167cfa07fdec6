//! What the command line gives.
pub(crate) mod arguments;
pub(crate) mod file_types;
pub(crate) mod flags;
pub(crate) mod patterns;
pub(crate) mod sizes;
pub(crate) mod smart_case;
pub(crate) mod type_changes;
pub(crate) mod type_list;
