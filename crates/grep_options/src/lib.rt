//! The options of `hirgrep`, with the names and letters that GNU grep gives them.
//!
//! [`command`] is the command line for the toolchain's parser. [`is_set`], [`number`] and [`limit`] read what its matches hold, and
//! `specs/Options.antt` defines what they return.
#![tactic(auto)]

mod escapes;
mod files;
mod numbers;
mod option_rows;
mod options;
mod sizes;
mod tables;
mod values;

pub use escapes::unescaped;
pub use files::{FileOption, FileValue, file_values};
pub use numbers::with_numbers;
pub use options::command;
pub use sizes::size_of;
pub use values::{is_set, limit, number};
