//! The files of folders.
ghost use Rattle.std.specs.Prelude.{◌≡◌, ◌⊎◌, ◌||◌, ◌++◌, ◌∷◌, [], ℕ, IfErr, IfOk, List, MatchOption, None, OnOk, Some, false, map, reverse, string_bytes, true};
ghost use Rattle.std.specs.List.Sorted.{IsPermutation};
ghost use Rattle.std.specs.Str.{is_utf8};
ghost use Rattle.std.specs.Fs.{IsDir, IsFile, IsSymlink, file_type, metadata_len};
ghost use Rattle.globs.specs.Rules.{ends_in_slash};
ghost use Rattle.grep_cli.specs.Selecting.{depth_in, enters};
ghost use Rattle.grep_cli.specs.Entries.{PutsEntries, entries_of, entry_paths, has_no_path, hides_entries, is_entry, is_file, is_file_kind, is_folder, is_folder_kind, joined};

use crate::files::folder_search::FolderSearch;
use crate::files::path_names::{base_len, depth_in};
use crate::files::selecting_files::Selection;
use std::alloc::{AllocError, Global};
use std::fs::Metadata;
use std::io::{BufReader, Read};
use std::os::unix::fs::MetadataExt;
use std::rt::{Files, Runtime};
use std::{fs, io, str};

/// What is at a path.
#[derive(Clone, Copy)]
pub enum Kind {
    /// A regular file.
    File,
    /// A folder.
    Folder,
    /// A link that isn't followed.
    Link,
    /// A device, a pipe or a socket.
    Device,
}

fn kind_by(metadata: &Metadata) -> Kind
    ensures folder { IsDir (file_type metadata.now) → result ≡ Kind.Folder }
    ensures file { IsFile (file_type metadata.now) → result ≡ Kind.File }
    ensures link { IsSymlink (file_type metadata.now) → result ≡ Kind.Link }
    ensures device { ¬ IsDir (file_type metadata.now) → ¬ IsFile (file_type metadata.now) → ¬ IsSymlink (file_type metadata.now)
        → result ≡ Kind.Device }
{
    if metadata.is_dir() {
        return Kind::Folder;
    }
    if metadata.is_file() {
        return Kind::File;
    }
    if metadata.is_symlink() {
        return Kind::Link;
    }
    Kind::Device
}

/// What is at a path, whose last part may be a link that is to be followed.
pub fn kind_of(rt: &HostRuntime, path: &str, follows: bool) -> io::Result<Kind> {
    let metadata = if follows {
        fs::metadata(rt, path)?
    } else {
        fs::symlink_metadata(rt, path)?
    };
    Ok(kind_by(&metadata))
}

fn is_folder_kind(kind: Kind) -> bool
    ensures { result ≡ is_folder_kind kind }
{
    match kind {
        Kind::Folder => true,
        Kind::File | Kind::Link | Kind::Device => false,
    }
}

/// Whether what is at a path is a folder, if that is known.
pub fn is_folder(kind: &io::Result<Kind>) -> bool
    ensures { result ≡ is_folder kind.now }
{
    match kind {
        Ok(kind) => is_folder_kind(*kind),
        Err(_) => false,
    }
}

fn is_file_kind(kind: Kind) -> bool
    ensures { result ≡ is_file_kind kind }
{
    match kind {
        Kind::File => true,
        Kind::Folder | Kind::Link | Kind::Device => false,
    }
}

/// Whether what is at a path is a file, if that is known.
fn is_file(kind: &io::Result<Kind>) -> bool
    ensures { result ≡ is_file kind.now }
{
    match kind {
        Ok(kind) => is_file_kind(*kind),
        Err(_) => false,
    }
}

/// The size in bytes of a file of which the system said this, if it could.
fn size_said(said: io::Result<Metadata>) -> Option<u64>
    ensures known { IfOk said (λ metadata. result ≡ Some (metadata_len metadata)) }
    ensures unknown { IfErr said (λ _. result ≡ None) }
{
    match said {
        Ok(metadata) => Some(metadata.len()),
        Err(_) => None,
    }
}

/// The size in bytes of the file at a path, if the options give a greatest size. There is none of anything else than a file, or if the
/// system can't say it.
pub fn size_at(
    rt: &HostRuntime,
    selection: &Selection,
    kind: &io::Result<Kind>,
    path: &str,
) -> Option<u64>
    ensures any { selection.now.max_size ≡ None → result ≡ None }
    ensures other { is_file kind.now ≡ false → result ≡ None }
{
    if selection.max_size.is_none() || !is_file(kind) {
        return None;
    }
    size_said(fs::metadata(rt, path))
}

/// A file or folder, by its device and its number there.
#[derive(Clone, Copy, PartialEq, Eq)]
pub struct FileId {
    device: u64,
    number: u64,
}

fn id_of(metadata: &Metadata) -> FileId {
    FileId {
        device: metadata.dev(),
        number: metadata.ino(),
    }
}

/// The file that standard output is redirected to, if that is a regular one.
pub fn output_file(rt: &HostRuntime) -> Option<FileId> {
    match fs::metadata(rt, "/dev/stdout") {
        Ok(written) if written.is_file() => Some(id_of(&written)),
        _ => None,
    }
}

/// Whether the file at the path is the one that standard output is redirected to.
pub fn is_output(rt: &HostRuntime, output: Option<FileId>, path: &str) -> bool {
    let Some(written) = output else {
        return false;
    };
    match fs::metadata(rt, path) {
        Ok(read) => id_of(&read) == written,
        Err(_) => false,
    }
}

/// Whether the folder at the path is one of those in which it was found, from the root of the search on.
fn is_loop(rt: &HostRuntime, root: &str, path: &str) -> bool {
    let Ok(metadata) = fs::metadata(rt, path) else {
        return false;
    };
    let folder = id_of(&metadata);
    let least = base_len(root);
    for (at, byte) in path.as_bytes().iter().enumerate() {
        if *byte != b'/' || at < least {
            continue;
        }
        let above = path.split_at_checked(at.max(1));
        if is_folder_at(rt, above, folder) {
            return true;
        }
    }
    false
}

/// Whether the first of two parts of a path is the path of this folder.
fn is_folder_at(rt: &HostRuntime, parts: Option<(&str, &str)>, folder: FileId) -> bool {
    let Some((path, _)) = parts else {
        return false;
    };
    match fs::metadata(rt, path) {
        Ok(metadata) => id_of(&metadata) == folder,
        Err(_) => false,
    }
}

fn ends_in_slash(path: &str) -> bool
    ensures { result ≡ ends_in_slash path.now }
{
    let path = path.as_bytes();
    !path.is_empty() && path[path.len() - 1] == b'/'
}

/// The path of what has this name in a folder.
fn joined(alloc: Global, folder: &str, name: &str) -> Result<String, AllocError>
    ensures { IfOk result (λ path. string_bytes path ≡ joined folder.now name.now) }
{
    let mut path = String::from_str(alloc, folder)?;
    if !ends_in_slash(folder) {
        path.push('/')?;
    }
    path.push_str(name)?;
    Ok(path)
}

/// Room for what one read of a folder returns. The system lists nothing if the next entry doesn't fit, which takes up to 280 bytes.
const LISTING: usize = 32768;

/// Appends the names in a folder, each with a zero byte after it, in the order in which the system lists them. A slash at the end of the
/// path follows a link to a folder. The folder is never read into less room than [`LISTING`].
fn read_names(rt: &HostRuntime, path: &str, names: &mut Vec<u8>) -> io::Result<()> {
    let folder = rt.open_dir(path)?;
    let mut folder = BufReader::with_capacity(rt.alloc(), LISTING, folder)?;
    folder.read_to_end(names)?;
    Ok(())
}

/// Whether this is the name of something in a folder, and not of the folder itself or the one above it.
fn is_entry(name: &[u8]) -> bool
    ensures { result ≡ is_entry name.now }
{
    match name {
        [] => false,
        [a] => *a != b'.',
        [a, b] => !(*a == b'.' && *b == b'.'),
        _ => true,
    }
}

fn push_name(
    alloc: Global,
    folder: &str,
    name: &str,
    paths: &mut Vec<String>,
) -> Result<(), AllocError>
    ensures { OnOk result (map string_bytes paths.new.items ≡ map string_bytes paths.old.items ++ joined folder.now name.now ∷ []) }
{
    let path = joined(alloc, folder, name)?;
    paths.push(path)?;
    Ok(())
}

/// Reports that the name of an entry of a folder isn't UTF-8.
fn report_name(
    rt: &HostRuntime,
    folders: FolderSearch<'_>,
    failed: &mut bool,
    folder: &str,
    name: &[u8],
) -> Result<(), AllocError>
    ensures recorded { OnOk result (failed.new ≡ true) }
    ensures continues { failed.old ≡ true → failed.new ≡ true }
{
    let name = String::from_utf8_lossy(rt.alloc(), name)?;
    let path = joined(rt.alloc(), folder, name.as_str())?;
    folders.fail_with(rt, failed, path.as_str(), "the name isn't UTF-8");
    Ok(())
}

/// The name, if it is UTF-8.
fn name_text(name: &[u8]) -> Option<&str>
    ensures { MatchOption result (is_utf8 name.now ≡ false) (λ text. (text.now ≡ name.now) × (is_utf8 name.now ≡ true)) }
{
    match str::from_utf8(name) {
        Ok(text) => Some(text),
        Err(_) => None,
    }
}

/// Appends the path of an entry of a folder. If its name isn't UTF-8, it is reported and left out.
fn push_entry(
    rt: &HostRuntime,
    folders: FolderSearch<'_>,
    failed: &mut bool,
    folder: &str,
    name: &[u8],
    paths: &mut Vec<String>,
) -> Result<(), AllocError>
    ensures other { is_entry name.now ≡ false → (failed.new ≡ failed.old) × (paths.new ≡ paths.old) }
    ensures paths { OnOk result (map string_bytes paths.new.items ≡ map string_bytes paths.old.items ++ entry_paths folder.now name.now) }
    ensures recorded { OnOk result (failed.new ≡ (failed.old || has_no_path name.now)) }
    ensures continues { failed.old ≡ true → failed.new ≡ true }
{
    if !is_entry(name) {
        return Ok(());
    }
    match name_text(name) {
        Some(name) => push_name(rt.alloc(), folder, name, paths),
        None => report_name(rt, folders, failed, folder, name),
    }
}

/// Appends the paths of the entries of a folder.
fn push_entries(
    rt: &HostRuntime,
    folders: FolderSearch<'_>,
    failed: &mut bool,
    folder: &str,
    names: &[u8],
    paths: &mut Vec<String>,
) -> Result<(), AllocError>
    ensures paths { OnOk result (map string_bytes paths.new.items ≡ map string_bytes paths.old.items ++ entries_of folder.now names.now) }
    ensures recorded { OnOk result (failed.new ≡ (failed.old || hides_entries names.now)) }
    ensures continues { failed.old ≡ true → failed.new ≡ true }
{
    for name in names.split(|byte| *byte == 0) {
        push_entry(rt, folders, failed, folder, name, paths)?;
    }
    Ok(())
}

/// The paths of the entries of a folder with these names, in order if the options ask for that.
fn entries_of(
    rt: &HostRuntime,
    folders: FolderSearch<'_>,
    failed: &mut bool,
    folder: &str,
    names: &[u8],
) -> Result<Vec<String>, AllocError>
    ensures paths { IfOk result (λ v. IsPermutation (entries_of folder.now names.now) (map string_bytes v.items)) }
    ensures unsorted { folders.entry.selection.now.sorts ≡ false → IfOk result (λ v. map string_bytes v.items ≡ entries_of folder.now names.now) }
    ensures recorded { IfOk result (λ _. failed.new ≡ (failed.old || hides_entries names.now)) }
    ensures continues { failed.old ≡ true → failed.new ≡ true }
{
    let mut paths = Vec::new(rt.alloc());
    push_entries(rt, folders, failed, folder, names, &mut paths)?;
    if !folders.selection.sorts {
        return Ok(paths);
    }
    paths.sort()?;
    Ok(paths)
}

/// Appends paths from the last one to the first.
fn push_paths(left: &mut Vec<String>, mut paths: Vec<String>) -> Result<(), AllocError>
    ensures { OnOk result (map string_bytes left.new.items ≡ map string_bytes left.old.items ++ reverse (map string_bytes paths.items)) }
{
    while let Some(path) = paths.pop() {
        left.push(path)?;
    }
    Ok(())
}

/// Puts the paths of the entries of a folder with these names before those that are still to be searched.
fn push_listed(
    rt: &HostRuntime,
    folders: FolderSearch<'_>,
    failed: &mut bool,
    left: &mut Vec<String>,
    folder: &str,
    names: &[u8],
) -> Result<(), AllocError>
    ensures paths { OnOk result (PutsEntries folder.now names.now (map string_bytes left.old.items) (map string_bytes left.new.items)) }
    ensures unsorted { folders.entry.selection.now.sorts ≡ false → OnOk result
        (map string_bytes left.new.items ≡ map string_bytes left.old.items ++ reverse (entries_of folder.now names.now)) }
    ensures recorded { OnOk result (failed.new ≡ (failed.old || hides_entries names.now)) }
    ensures continues { failed.old ≡ true → failed.new ≡ true }
{
    let paths = entries_of(rt, folders, failed, folder, names)?;
    push_paths(left, paths)
}

/// Puts the paths of the entries of a folder before those that are still to be searched. Whether the folder may be a link depends on
/// `follows`.
pub fn push_folder(
    rt: &HostRuntime,
    folders: FolderSearch<'_>,
    failed: &mut bool,
    left: &mut Vec<String>,
    path: &str,
    follows: bool,
) -> Result<(), AllocError>
    ensures paths { OnOk result ((names : List ℕ)
        × PutsEntries path.now names (map string_bytes left.old.items) (map string_bytes left.new.items)) }
    ensures continues { failed.old ≡ true → failed.new ≡ true }
{
    let opened = joined(rt.alloc(), path, "")?;
    let opened = if follows { opened.as_str() } else { path };
    let mut names = Vec::new(rt.alloc());
    if let Err(e) = read_names(rt, opened, &mut names) {
        folders.fail(rt, failed, path, e);
    }
    push_listed(rt, folders, failed, left, path, names.as_slice())
}

/// Puts the paths of the entries of a folder that was found in another one before those that are still to be searched. A folder that is
/// found in itself, through a link, is reported and left out.
pub fn push_found(
    rt: &HostRuntime,
    folders: FolderSearch<'_>,
    failed: &mut bool,
    left: &mut Vec<String>,
    root: &str,
    path: &str,
) -> Result<(), AllocError>
    ensures deep { enters folders.entry.selection.now.max_depth (depth_in root.now path.now) ≡ false
        → (failed.new ≡ failed.old) × (left.new ≡ left.old) }
    ensures paths { OnOk result ((left.new ≡ left.old) ⊎ ((names : List ℕ)
        × PutsEntries path.now names (map string_bytes left.old.items) (map string_bytes left.new.items))) }
    ensures continues { failed.old ≡ true → failed.new ≡ true }
{
    if !folders.selection.enters(depth_in(root, path)) {
        return Ok(());
    }
    let follows = folders.follows;
    if follows && is_loop(rt, root, path) {
        folders.warn(rt, path, "warning: recursive directory loop");
        return Ok(());
    }
    push_folder(rt, folders, failed, left, path, follows)
}
