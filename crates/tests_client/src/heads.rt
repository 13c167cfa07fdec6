//! The examples of the first lines of modules, a file for each crate. Most call a law, so that it is among the facts from which a
//! clause is proved.
mod automata;
mod basics;
mod caches;
mod compiler;
mod inputs;
mod looks;
mod pairs;
mod powersets;
mod regexes;
mod several;
mod texts;
mod trees;
