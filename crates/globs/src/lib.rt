//! Globs: patterns of file names.
#![tactic(auto)]

mod class_names;
mod ignoring;
mod item;
mod matching;
mod paths;
mod reading;
mod rules;
mod sets;

pub use ignoring::{IgnoreKind, IgnoreLevel, ignored, push_ignore_rules};
pub use item::{Class, Item};
pub use matching::{matches, matches_part};
pub use paths::{file_name, folder_name, full_path, without_dot, without_end_space};
pub use reading::{Fault, FaultKind, Syntax};
pub use rules::{
    Rule, any_selects, chars_of, chooses, decides, glob_body, is_type_glob, push_excluded, skips,
};
