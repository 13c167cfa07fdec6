//! The stem of strings: what all of them begin with.
ghost use Rattle.std.specs.Prelude.{◌≡◌, ◌<◌, ◌≤◌, length, take, get_or, IfOk, IsTrue};
ghost use Rattle.thompson_nfa.specs.LiteralGroups.{texts};
ghost use Rattle.thompson_nfa.specs.LiteralStems.{HaveAll, BeginAll, without_first};

use std::alloc::{AllocError, Global};

/// Whether the string has the byte at offset `at`.
fn has_at(string: &[u8], at: usize, byte: u8) -> bool
    ensures { IsTrue result → (at < length string.now) × (get_or string.now at 0 ≡ byte) }
{
    at < string.len() && string[at] == byte
}

/// Whether each of the strings has the byte at offset `at`.
fn all_have(strings: &[&[u8]], at: usize, byte: u8) -> bool
    ensures { IsTrue result → HaveAll at byte (texts strings.now) }
{
    for string in strings {
        if !has_at(string, at, byte) {
            return false;
        }
    }
    true
}

/// How many bytes the first string has with which all begin.
fn stem_len(first: &[u8], strings: &[&[u8]]) -> usize
    ensures within { result ≤ length first.now }
    ensures begins { BeginAll (take result first.now) (texts strings.now) }
{
    let mut len = 0;
    while len < first.len() && all_have(strings, len, first[len]) {
        len += 1;
    }
    len
}

/// The stem of the strings.
pub(crate) fn stem<'a>(strings: &[&'a [u8]]) -> &'a [u8]
    requires { 1 ≤ length strings.now }
    ensures { BeginAll result.now (texts strings.now) }
{
    let first = strings[0];
    let len = stem_len(first, strings);
    &first[..len]
}

/// What follows the stem in each of the strings.
pub(crate) fn behind_stem<'a>(
    alloc: Global,
    strings: &[&'a [u8]],
    stem: &[u8],
) -> Result<Vec<&'a [u8]>, AllocError>
    requires { BeginAll stem.now (texts strings.now) }
    ensures { IfOk result (λ v. texts v.items ≡ without_first (length stem.now) (texts strings.now)) }
{
    let mut all = Vec::with_capacity(alloc, strings.len())?;
    for string in strings {
        all.push(&string[stem.len()..])?;
    }
    Ok(all)
}
