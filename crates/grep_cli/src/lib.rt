//! What a program like grep needs besides its engine: the words of its command line, the files that are searched, patterns as they are
//! given, messages, and readers and writers of the system's files.
//!
//! [`words_of`] and [`matches_of`] read the command line. [`selection_given`] returns what the options choose, and [`Selection`] says of
//! each path whether it is searched. [`given_patterns`] returns the patterns. Failures are reported on standard error, and which of them
//! are recorded is a clause of each call.
#![tactic(auto)]

mod class_names;
mod files;
mod inputs;
mod longest_first;
mod options;
mod results;

pub use class_names::{Misnamed, first_misnamed};
pub use files::folder_search::{FolderSearch, shown_name};
pub use files::ignoring::IgnoreFiles;
pub use files::selecting_files::{Ignoring, Selection, selection_given};
pub use files::walking::{
    FileId, Kind, is_folder, is_output, kind_of, output_file, push_folder, push_found, size_at,
};
pub use inputs::binary::{Binary, binary_of};
pub use inputs::counting::Counting;
pub use inputs::first_bytes::{FIRST, Searched, has_zero, read_ahead};
pub use inputs::input::input;
pub use inputs::reading::{
    Reading, dot_matches_feeds, is_by_lines, lists_all, most_given, prints_json, reading_given,
};
pub use longest_first::put_longest_first;
pub use options::arguments::{matches_of, words_of};
pub use options::flags::{
    Devices, Directories, Names, color_of, devices_of, directories_of, has_columns, has_heading,
    has_numbers, input_name, is_colorful, is_named, most_bytes_by, names_of, reads_found,
    reads_named, template_of, terminator_given,
};
pub use options::patterns::{PatternFile, given_patterns, names_of_files, strs_of};
pub use options::smart_case::ignores_case;
pub use options::type_list::print_types;
pub use results::messages::{report_error, report_output, report_reason};
pub use results::output::Output;
pub use results::shown::{PrintedName, Shown, hides_controls, printed_name, without_controls};
pub use results::stop::Stop;
