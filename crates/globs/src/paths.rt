//! Parts of names, of paths and of the lines of a file of globs.
ghost use Rattle.std.specs.Prelude.{◌≡◌, ◌≤◌, IfOk, drop, length};
ghost use Rattle.globs.specs.Matching.{is_slash};
ghost use Rattle.globs.specs.Paths.{file_name, folder_name, full_path, is_space, kept_len, without_dot, without_end_space};

use crate::item::is_slash;
use crate::sets::push_all;
use std::alloc::{AllocError, Global};

/// Whether this is a white space character of ASCII, as `isspace` of C has it.
fn is_space(c: char) -> bool
    ensures { result ≡ is_space c }
{
    c == ' ' || c >= '\t' && c <= '\r'
}

/// How many characters there are up to the last one that is no slash.
fn len_without_slashes(text: &[char]) -> usize
    ensures len { result ≡ kept_len is_slash 0 0 text.now }
    ensures within { result ≤ length text.now }
{
    let mut kept = 0;
    for (at, c) in text.iter().enumerate() {
        kept = if is_slash(*c) { kept } else { at + 1 };
    }
    kept
}

/// How many characters there are up to the last one that is no white space.
fn len_without_space(text: &[char]) -> usize
    ensures len { result ≡ kept_len is_space 0 0 text.now }
    ensures within { result ≤ length text.now }
{
    let mut kept = 0;
    for (at, c) in text.iter().enumerate() {
        kept = if is_space(*c) { kept } else { at + 1 };
    }
    kept
}

/// The name of a folder without the slashes at its end, unless it has nothing else.
pub fn folder_name(text: &[char]) -> &[char]
    ensures { result.now ≡ folder_name text.now }
{
    let kept = len_without_slashes(text);
    if kept == 0 { text } else { &text[..kept] }
}

/// A line without the white space at its end.
pub fn without_end_space(line: &[char]) -> &[char]
    ensures { result.now ≡ without_end_space line.now }
{
    &line[..len_without_space(line)]
}

/// What is after the last slash of a path, or all of it if there is none.
pub fn file_name(path: &[char]) -> &[char]
    ensures { result.now ≡ file_name path.now }
{
    let mut begin = 0;
    for (at, c) in path.iter().enumerate() {
        begin = if is_slash(*c) { at + 1 } else { begin };
    }
    &path[begin..]
}

/// A path without the name of the current folder at its beginning.
pub fn without_dot(path: &[char]) -> &[char]
    ensures { result.now ≡ without_dot path.now }
{
    if path.len() >= 2 && path[0] == '.' && is_slash(path[1]) {
        return &path[2..];
    }
    path
}

/// A path from this character on.
pub fn from(path: &[char], at: usize) -> &[char]
    ensures { result.now ≡ drop at path.now }
{
    match path.get(at..) {
        Some(rest) => rest,
        None => &[],
    }
}

/// The full path of what is at a path in the folder at `root`, whose full path is `full`.
pub fn full_path(
    alloc: Global,
    full: &[char],
    root: &[char],
    path: &[char],
) -> Result<Vec<char>, AllocError>
    ensures { IfOk result (λ v. v.items ≡ full_path full.now root.now path.now) }
{
    let mut all = Vec::new(alloc);
    push_all(&mut all, full)?;
    push_all(&mut all, from(path, len_without_slashes(root)))?;
    Ok(all)
}
