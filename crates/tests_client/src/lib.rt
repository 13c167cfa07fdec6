//! A client of `hir_regex`, as another program would be. It builds a regex of trees, searches twice over the same caches with another
//! search and a reset in between, and lists the matches. By public contracts and public laws alone, each answer is proved to be the
//! one that the trees define. What it asks first is run on rows.
//!
//! A client of patterns as text (`texts`) is proved and run in this way, too, and so are the examples of `docs/CALLING.md` (`calling`)
//! and of the first lines of modules (`heads`).
#![tactic(auto)]

#[cfg(test)]
mod calling;
#[cfg(test)]
mod client;
#[cfg(test)]
mod heads;
#[cfg(test)]
mod rows;
#[cfg(test)]
mod texts;
