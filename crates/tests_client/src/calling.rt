//! The examples of `docs/CALLING.md`, each a file or a part of one, which `tests/examples` compares with the guide. They are proved
//! and run as all else here.
mod building;
mod capacity;
mod promised;
mod refusals;
mod rows;
mod searching;
mod trees;
mod walking;
