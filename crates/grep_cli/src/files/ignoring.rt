//! The ignore files of the folders that are searched, and of those above them.
ghost use Rattle.std.specs.Prelude.{◌≡◌, None, Ok, IfErr, IfOk, IfSome, OnOk, false, length, map, string_bytes, true};
ghost use Rattle.std.specs.Str.{chars};
ghost use Rattle.globs.specs.Ignoring.{ignored, level_of, with_text};
ghost use Rattle.globs.specs.Paths.{full_path};

use crate::files::folder_search::FolderSearch;
use crate::files::path_names::{base_len, depth_in};
use globs::{IgnoreKind, IgnoreLevel, chars_of, full_path, ignored};
use std::alloc::{AllocError, Global};
use std::io::ErrorKind;
use std::rt::Runtime;
use std::{fs, io};

/// The ignore files of the folders of what is searched, from the root of the file system on.
#[derive(Drop)]
pub struct IgnoreFiles {
    /// The path of the folder at which the search began, as it is named.
    root: Vec<char>,
    /// Its path from the root of the file system on, without a slash at its end.
    full: Vec<char>,
    /// How many folders are above that one.
    outer: usize,
    /// The ignore files of these folders, of that one, and of those in it that lead to what is searched.
    levels: Vec<IgnoreLevel>,
}

/// Reads the text of an ignore file. There is none if nothing is at the path, or a device or a pipe. Bytes that aren't UTF-8 are replaced.
fn read_ignore_file(rt: &HostRuntime, path: &str) -> io::Result<Option<String>> {
    let metadata = match fs::metadata(rt, path) {
        Ok(metadata) => metadata,
        Err(e) if is_absent(e.kind()) => return Ok(None),
        Err(e) => return Err(e),
    };
    if !metadata.is_file() && !metadata.is_dir() {
        return Ok(None);
    }
    let bytes = fs::read(rt, path)?;
    let text = String::from_utf8_lossy(rt.alloc(), &bytes)?;
    Ok(Some(text))
}

/// Whether the error is that nothing is at a path.
fn is_absent(kind: ErrorKind) -> bool {
    kind == ErrorKind::NotFound || kind == ErrorKind::NotADirectory
}

/// Adds the rules of what was read of an ignore file, or reports that it can't be read.
fn add_read(
    rt: &HostRuntime,
    folders: FolderSearch<'_>,
    failed: &mut bool,
    level: &mut IgnoreLevel,
    kind: IgnoreKind,
    path: &str,
    read: io::Result<Option<String>>,
) -> Result<(), AllocError>
    ensures text { IfOk read (λ o. IfSome o (λ text. OnOk result (level_of level.new ≡ with_text kind (level_of level.old) (string_bytes text)))) }
    ensures none { read ≡ Ok None → level.new ≡ level.old }
    ensures unread { IfErr read (λ _. failed.new ≡ true) }
    ensures continues { failed.old ≡ true → failed.new ≡ true }
{
    match read {
        Ok(Some(text)) => level.add(rt.alloc(), kind, text.as_str()),
        Ok(None) => Ok(()),
        Err(e) => {
            folders.fail(rt, failed, path, e);
            Ok(())
        }
    }
}

/// Adds the rules of the ignore file with this name in a folder. If it can't be read, this is reported, and the search goes on without it.
fn add_file(
    rt: &HostRuntime,
    folders: FolderSearch<'_>,
    failed: &mut bool,
    level: &mut IgnoreLevel,
    kind: IgnoreKind,
    folder: &str,
    name: &str,
) -> Result<(), AllocError>
    ensures { failed.old ≡ true → failed.new ≡ true }
{
    let mut path = String::from_str(rt.alloc(), folder)?;
    path.push('/')?;
    path.push_str(name)?;
    let read = read_ignore_file(rt, path.as_str());
    add_read(rt, folders, failed, level, kind, path.as_str(), read)
}

/// Whether a folder is the root of a work tree of git.
fn is_root(rt: &HostRuntime, folder: &str) -> Result<bool, AllocError> {
    let mut path = String::from_str(rt.alloc(), folder)?;
    path.push_str("/.git")?;
    Ok(fs::metadata(rt, path.as_str()).is_ok())
}

/// Adds the rules of `.rgignore` and `.ignore` in a folder, if these are to be read.
fn add_plain(
    rt: &HostRuntime,
    folders: FolderSearch<'_>,
    failed: &mut bool,
    level: &mut IgnoreLevel,
    folder: &str,
) -> Result<(), AllocError>
    ensures { failed.old ≡ true → failed.new ≡ true }
{
    if !folders.selection.ignoring.plain {
        return Ok(());
    }
    let kind = IgnoreKind::Ripgrep;
    add_file(rt, folders, failed, level, kind, folder, ".rgignore")?;
    let kind = IgnoreKind::Plain;
    add_file(rt, folders, failed, level, kind, folder, ".ignore")
}

/// Adds the rules of git's files in a folder, if these are to be read.
fn add_git(
    rt: &HostRuntime,
    folders: FolderSearch<'_>,
    failed: &mut bool,
    level: &mut IgnoreLevel,
    folder: &str,
) -> Result<(), AllocError>
    ensures { failed.old ≡ true → failed.new ≡ true }
{
    if !folders.selection.ignoring.git {
        return Ok(());
    }
    let kind = IgnoreKind::Git;
    add_file(rt, folders, failed, level, kind, folder, ".gitignore")?;
    if !folders.selection.ignoring.exclude {
        return Ok(());
    }
    let kind = IgnoreKind::Exclude;
    add_file(
        rt,
        folders,
        failed,
        level,
        kind,
        folder,
        ".git/info/exclude",
    )
}

/// Adds the rules of the ignore files of a folder, with `reads` those that are to be read.
fn add_files(
    rt: &HostRuntime,
    folders: FolderSearch<'_>,
    failed: &mut bool,
    level: &mut IgnoreLevel,
    folder: &str,
    reads: bool,
) -> Result<(), AllocError>
    ensures { failed.old ≡ true → failed.new ≡ true }
{
    if !reads {
        return Ok(());
    }
    add_plain(rt, folders, failed, level, folder)?;
    add_git(rt, folders, failed, level, folder)
}

/// Adds what the ignore files of a folder say, whose full path has this many characters. With `reads` they are read.
fn push_level(
    rt: &HostRuntime,
    folders: FolderSearch<'_>,
    failed: &mut bool,
    levels: &mut Vec<IgnoreLevel>,
    folder: &str,
    len: usize,
    reads: bool,
) -> Result<(), AllocError>
    ensures { failed.old ≡ true → failed.new ≡ true }
{
    let is_root = is_root(rt, folder)?;
    let mut level = IgnoreLevel::new(rt.alloc(), len.saturating_add(1), is_root);
    add_files(rt, folders, failed, &mut level, folder, reads)?;
    levels.push(level)?;
    Ok(())
}

/// Adds what the ignore files of a folder say, if this slash comes after its full path.
fn push_above(
    rt: &HostRuntime,
    folders: FolderSearch<'_>,
    failed: &mut bool,
    levels: &mut Vec<IgnoreLevel>,
    path: &str,
    at: usize,
    byte: u8,
) -> Result<(), AllocError>
    ensures { failed.old ≡ true → failed.new ≡ true }
{
    if byte != b'/' {
        return Ok(());
    }
    let Some((folder, _)) = path.split_at_checked(at) else {
        return Ok(());
    };
    let len = folder.chars().count();
    let reads = folders.selection.ignoring.parents;
    push_level(rt, folders, failed, levels, folder, len, reads)
}

/// Adds what the ignore files of the folders above a path say, which is a full one.
fn push_outer(
    rt: &HostRuntime,
    folders: FolderSearch<'_>,
    failed: &mut bool,
    levels: &mut Vec<IgnoreLevel>,
    path: &str,
) -> Result<(), AllocError>
    ensures { failed.old ≡ true → failed.new ≡ true }
{
    for (at, byte) in path.as_bytes().iter().enumerate() {
        push_above(rt, folders, failed, levels, path, at, *byte)?;
    }
    Ok(())
}

/// A path without the slashes at its end.
fn without_end_slashes(alloc: Global, path: &str) -> Result<String, AllocError> {
    match path.split_at_checked(base_len(path)) {
        Some((base, _)) => String::from_str(alloc, base),
        None => String::from_str(alloc, path),
    }
}

/// The full path of a folder, without a slash at its end: if it can't be known, the path as it is.
fn full_root(rt: &HostRuntime, root: &str) -> Result<String, AllocError> {
    match fs::canonicalize(rt, root) {
        Ok(full) => {
            let base = without_end_slashes(rt.alloc(), full.as_str())?;
            Ok(base)
        }
        Err(_) => without_end_slashes(rt.alloc(), root),
    }
}

/// The folder in which something is.
fn folder_of(path: &str) -> &str {
    match path.rsplit_once('/') {
        Some((folder, _)) => folder,
        None => "",
    }
}

impl IgnoreFiles {
    /// The ignore files of the folders above the one at `root`, unless none is to be read.
    pub fn new(
        rt: &HostRuntime,
        folders: FolderSearch<'_>,
        failed: &mut bool,
        root: &str,
    ) -> Result<IgnoreFiles, AllocError>
        ensures unread { folders.entry.selection.now.ignoring.reads ≡ false → failed.new ≡ failed.old }
        ensures root { folders.entry.selection.now.ignoring.reads ≡ true → IfOk result (λ files. files.root.items ≡ chars root.now) }
        ensures outer { IfOk result (λ files. files.outer ≡ length files.levels.items) }
        ensures continues { failed.old ≡ true → failed.new ≡ true }
    {
        let mut levels = Vec::new(rt.alloc());
        if !folders.selection.ignoring.reads {
            return Ok(IgnoreFiles {
                root: Vec::new(rt.alloc()),
                full: Vec::new(rt.alloc()),
                outer: 0,
                levels,
            });
        }
        let full = full_root(rt, root)?;
        push_outer(rt, folders, failed, &mut levels, full.as_str())?;
        let root = chars_of(rt.alloc(), root)?;
        let full = chars_of(rt.alloc(), full.as_str())?;
        Ok(IgnoreFiles {
            root,
            full,
            outer: levels.len(),
            levels,
        })
    }

    /// The full path of what is at a path in the folder at which the search began.
    fn full_path(&self, alloc: Global, path: &str) -> Result<Vec<char>, AllocError>
        ensures { IfOk result (λ v. v.items ≡ full_path self.now.full.items self.now.root.items (chars path.now)) }
    {
        let path = chars_of(alloc, path)?;
        full_path(alloc, &self.full, &self.root, &path)
    }

    /// Goes to the folder of a path in the folder at `root`: what other folders say is left out, and what that one says is added.
    fn enter(
        &mut self,
        rt: &HostRuntime,
        folders: FolderSearch<'_>,
        failed: &mut bool,
        root: &str,
        path: &str,
    ) -> Result<(), AllocError>
        ensures paths { (self.new.full ≡ self.old.full) × (self.new.root ≡ self.old.root) × (self.new.outer ≡ self.old.outer) }
        ensures continues { failed.old ≡ true → failed.new ≡ true }
    {
        let depth = self.outer.saturating_add(depth_in(root, path));
        self.levels.truncate(depth);
        if self.levels.len() >= depth {
            return Ok(());
        }
        let folder = folder_of(path);
        let full = self.full_path(rt.alloc(), folder)?;
        push_level(
            rt,
            folders,
            failed,
            &mut self.levels,
            folder,
            full.len(),
            true,
        )
    }

    /// What ignore files say of a path in the folder at `root`, if they are read and a rule matches.
    pub fn said(
        &mut self,
        rt: &HostRuntime,
        folders: FolderSearch<'_>,
        failed: &mut bool,
        root: &str,
        path: &str,
        is_folder: bool,
    ) -> Result<Option<bool>, AllocError>
        ensures off { folders.entry.selection.now.ignoring.reads ≡ false → (failed.new ≡ failed.old) × (result ≡ Ok None) }
        ensures said { folders.entry.selection.now.ignoring.reads ≡ true → IfOk result (λ known.
            known ≡ ignored folders.entry.selection.now.ignoring.needs_tree (map level_of self.new.levels.items) is_folder
            (full_path self.old.full.items self.old.root.items (chars path.now))) }
        ensures paths { (self.new.full ≡ self.old.full) × (self.new.root ≡ self.old.root) × (self.new.outer ≡ self.old.outer) }
        ensures continues { failed.old ≡ true → failed.new ≡ true }
    {
        let reads = folders.selection.ignoring;
        if !reads.reads {
            return Ok(None);
        }
        self.enter(rt, folders, failed, root, path)?;
        let full = self.full_path(rt.alloc(), path)?;
        ignored(rt.alloc(), reads.needs_tree, &self.levels, is_folder, &full)
    }
}
