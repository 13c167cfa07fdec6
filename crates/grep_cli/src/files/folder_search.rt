//! How folders are searched, and how failures there are recorded.
ghost use Rattle.std.specs.Prelude.{◌≡◌, true};
ghost use Rattle.grep_cli.specs.Entries.{shown_name};

use crate::files::selecting_files::Selection;
use crate::results::messages::{report_error, report_reason};
use std::io;

/// How folders are searched.
#[derive(Clone, Copy)]
pub struct FolderSearch<'a> {
    /// Which files are searched.
    pub selection: &'a Selection,
    /// Follows links that are found in folders.
    pub follows: bool,
    /// Suppresses messages about files that can't be read.
    pub silent: bool,
    /// No file is named, so the files of the current folder are searched, and their names are relative to it.
    pub bare: bool,
}

/// The name that is printed for the file at a path. If `bare`, it is relative to the current folder.
pub fn shown_name<'a>(bare: bool, path: &'a str) -> &'a str
    ensures { result.now ≡ shown_name bare path.now }
{
    if !bare {
        return path;
    }
    path.strip_prefix("./").unwrap_or(path)
}

impl<'a> FolderSearch<'a> {
    /// Records that what is at a path can't be read, and reports the error unless messages are suppressed.
    pub fn fail(self, rt: &HostRuntime, failed: &mut bool, path: &str, error: io::Error)
        ensures { failed.new ≡ true }
    {
        *failed = true;
        if !self.silent {
            report_error(rt, shown_name(self.bare, path), &error);
        }
    }

    /// Records that what is at a path isn't searched, and reports the reason unless messages are suppressed.
    pub fn fail_with(self, rt: &HostRuntime, failed: &mut bool, path: &str, reason: &str)
        ensures { failed.new ≡ true }
    {
        *failed = true;
        self.warn(rt, path, reason);
    }

    /// Reports something about what is at a path, unless messages are suppressed.
    pub fn warn(self, rt: &HostRuntime, path: &str, reason: &str) {
        if !self.silent {
            report_reason(rt, shown_name(self.bare, path), reason);
        }
    }
}
