//! What files are searched for.
ghost use Rattle.std.specs.Prelude.{◌≡◌};

use crate::options::asked::Asked;
use grep_cli::{FileId, FolderSearch, Selection};

/// What files are searched for, and how the results are printed.
#[derive(Clone, Copy)]
pub struct Task<'a> {
    pub asked: &'a Asked<'a>,
    /// Whether names are printed before lines.
    pub with_name: bool,
    /// No file is named, so the files of the current folder are searched, and their names are relative to it.
    pub bare: bool,
    /// The name of standard input.
    pub input_name: &'a str,
    /// The file that standard output is redirected to, if that is a regular one.
    pub output: Option<FileId>,
    /// Which files are searched.
    pub selection: &'a Selection,
    /// The least number of columns for numbers.
    pub width: usize,
    /// Names are printed with a question mark for each control character.
    pub hides_controls: bool,
}

impl<'a> Task<'a> {
    /// How folders are searched.
    pub fn folders(self) -> FolderSearch<'a>
        ensures { result.selection ≡ self.entry.selection }
    {
        FolderSearch {
            selection: self.selection,
            follows: self.asked.follows,
            silent: self.asked.silent,
            bare: self.bare,
        }
    }
}
