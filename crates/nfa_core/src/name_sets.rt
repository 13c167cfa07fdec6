//! Sets of state numbers.
mod marks;
pub(crate) mod name_set;
pub(crate) mod pair_set;
pub(crate) mod sets;
pub(crate) mod sparse_set;
pub(crate) mod sparse_set_iter;
