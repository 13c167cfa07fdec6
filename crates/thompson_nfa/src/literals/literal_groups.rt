//! Strings in groups, by the bytes with which they begin.
ghost use Rattle.std.specs.Prelude.{◌≡◌, ◌+◌, ◌≤◌, ◌++◌, ◌∷◌, [], true, false, length, max, map, get_or, set, take, drop, ℕ, List, IfOk, ◌<◌};
ghost use Rattle.thompson_nfa.specs.LiteralGroups.{texts, run_of, strings_of_groups, place_of, edges_by, AreGroups, IsChunk, AddsGroups};

use std::alloc::{AllocError, Global};

/// An edge by a byte to the group with the number `next`. That group has what follows the byte in the strings
/// that begin with it.
#[derive(Clone, Copy)]
pub(crate) struct Edge {
    pub(crate) byte: u8,
    pub(crate) next: usize,
}

/// The edge by a byte.
fn edge_by(byte: u8, next: usize) -> Edge
    ensures is { result ≡ record { byte = byte; next = next } }
    ensures within { byte < 256 }
{
    Edge { byte, next }
}

/// How many of the bytes come before the first that isn't less than `byte`.
fn place_of(bytes: &[u8], byte: u8) -> usize
    ensures value { result ≡ place_of byte bytes.now }
    ensures within { result ≤ length bytes.now }
    ensures is_byte { byte < 256 }
{
    let mut at = 0;
    for other in bytes {
        if *other >= byte {
            return at;
        }
        at += 1;
    }
    at
}

/// Whether the byte is at index `at`.
fn is_at(bytes: &[u8], at: usize, byte: u8) -> bool
    ensures yes { result ≡ true → (at < length bytes.now) × (get_or bytes.now at 0 ≡ byte) }
    ensures no { result ≡ false → at < length bytes.now → get_or bytes.now at 0 ≡ byte → ⊥ }
{
    at < bytes.len() && bytes[at] == byte
}

/// Appends a string to the group at index `at`.
fn push_at<'a>(
    groups: &mut Vec<Vec<&'a [u8]>>,
    at: usize,
    string: &'a [u8],
) -> Result<(), AllocError>
    requires { at < length groups.old.items }
    ensures { IfOk result (λ _. strings_of_groups (λ g. g.items) groups.new.items ≡
        set (strings_of_groups (λ g. g.items) groups.old.items) at
        (get_or (strings_of_groups (λ g. g.items) groups.old.items) at [] ++ string.now ∷ [])) }
{
    groups[at].push(string)?;
    Ok(())
}

/// A group of one string.
fn group_of<'a>(alloc: Global, string: &'a [u8]) -> Result<Vec<&'a [u8]>, AllocError>
    ensures { IfOk result (λ g. texts g.items ≡ string.now ∷ []) }
{
    let mut group = Vec::new(alloc);
    group.push(string)?;
    Ok(group)
}

/// Inserts the byte at index `at`, and there a group of one string.
fn insert_at<'a>(
    alloc: Global,
    bytes: &mut Vec<u8>,
    groups: &mut Vec<Vec<&'a [u8]>>,
    at: usize,
    byte: u8,
    string: &'a [u8],
) -> Result<(), AllocError>
    requires bytes { at ≤ length bytes.old.items }
    requires groups { at ≤ length groups.old.items }
    ensures bytes { IfOk result (λ _. bytes.new.items ≡ take at bytes.old.items ++ byte ∷ drop at bytes.old.items) }
    ensures groups { IfOk result (λ _. strings_of_groups (λ g. g.items) groups.new.items ≡
        take at (strings_of_groups (λ g. g.items) groups.old.items) ++ (string.now ∷ []) ∷
        drop at (strings_of_groups (λ g. g.items) groups.old.items)) }
{
    let group = group_of(alloc, string)?;
    bytes.insert(at, byte)?;
    groups.insert(at, group)?;
    Ok(())
}

/// Adds what follows the byte in a string to the group of that byte. If there is none, it is made.
fn add_tail<'a>(
    alloc: Global,
    bytes: &mut Vec<u8>,
    groups: &mut Vec<Vec<&'a [u8]>>,
    byte: u8,
    tail: &'a [u8],
) -> Result<(), AllocError>
    requires { length bytes.old.items ≡ length groups.old.items }
    ensures { IfOk result (λ _. (before : List (List ℕ)) →
        AreGroups bytes.old.items (strings_of_groups (λ g. g.items) groups.old.items) before →
        AreGroups bytes.new.items (strings_of_groups (λ g. g.items) groups.new.items) (before ++ (byte ∷ tail.now) ∷ [])) }
{
    let at = place_of(bytes, byte);
    if is_at(bytes, at, byte) {
        push_at(groups, at, tail)?;
        return Ok(());
    }
    insert_at(alloc, bytes, groups, at, byte, tail)?;
    Ok(())
}

/// Adds what follows the first byte of a string to the group of that byte. An empty string is left out.
fn add_string<'a>(
    alloc: Global,
    bytes: &mut Vec<u8>,
    groups: &mut Vec<Vec<&'a [u8]>>,
    string: &'a [u8],
) -> Result<(), AllocError>
    requires { length bytes.old.items ≡ length groups.old.items }
    ensures { IfOk result (λ _. (before : List (List ℕ)) →
        AreGroups bytes.old.items (strings_of_groups (λ g. g.items) groups.old.items) before →
        AreGroups bytes.new.items (strings_of_groups (λ g. g.items) groups.new.items) (before ++ string.now ∷ [])) }
{
    let Some((first, rest)) = string.split_first() else {
        return Ok(());
    };
    add_tail(alloc, bytes, groups, *first, rest)?;
    Ok(())
}

/// Fills the bytes with which strings begin, in ascending order, and a group for each of them, of what follows it in the strings.
fn add_strings<'a>(
    alloc: Global,
    bytes: &mut Vec<u8>,
    groups: &mut Vec<Vec<&'a [u8]>>,
    strings: &[&'a [u8]],
) -> Result<(), AllocError>
    requires { AreGroups bytes.old.items (strings_of_groups (λ g. g.items) groups.old.items) [] }
    ensures { IfOk result (λ _. AreGroups bytes.new.items (strings_of_groups (λ g. g.items) groups.new.items) (texts strings.now)) }
{
    for string in strings {
        add_string(alloc, bytes, groups, string)?;
    }
    Ok(())
}

/// An edge by each of the bytes. They lead to groups with the numbers from `first` on.
fn edges_by(alloc: Global, bytes: &[u8], first: usize) -> Result<Vec<Edge>, AllocError>
    requires { first + length bytes.now ≤ 18446744073709551615 }
    ensures { IfOk result (λ v. v.items ≡ edges_by first bytes.now) }
{
    let mut edges = Vec::with_capacity(alloc, bytes.len())?;
    for i in 0..bytes.len() {
        edges.push(edge_by(bytes[i], first + i))?;
    }
    Ok(edges)
}

/// How many strings come before the first empty one.
fn run_len(strings: &[&[u8]]) -> usize
    ensures value { result ≡ run_of (texts strings.now) }
    ensures within { result ≤ length strings.now }
{
    let mut len = 0;
    while len < strings.len() && !strings[len].is_empty() {
        len += 1;
    }
    len
}

/// How many strings make one item: the first alone if it is empty, or else those before the first empty one.
pub(crate) fn turn_len(strings: &[&[u8]]) -> usize
    requires { 1 ≤ length strings.now }
    ensures value { result ≡ max (run_of (texts strings.now)) 1 }
    ensures within { result ≤ length strings.now }
{
    run_len(strings).max(1)
}

/// An edge for each byte with which a string begins. Each leads to a group of its own, which is added;
/// `first` groups come before these.
pub(crate) fn chunk<'a>(
    alloc: Global,
    strings: &[&'a [u8]],
    first: usize,
    groups: &mut Vec<Vec<&'a [u8]>>,
) -> Result<Vec<Edge>, AllocError>
    requires { first ≤ 9223372036854775807 }
    ensures adds { IfOk result (λ edges. AddsGroups (strings_of_groups (λ g. g.items) groups.old.items)
        (strings_of_groups (λ g. g.items) groups.new.items) (length edges.items) (texts strings.now)) }
    ensures chunk { IfOk result (λ edges. (before : List (List (List ℕ))) → length before ≡ first →
        IsChunk first (before ++ strings_of_groups (λ g. g.items) groups.new.items) edges.items (texts strings.now)) }
{
    let mut bytes = Vec::new(alloc);
    let mut fresh = Vec::new(alloc);
    add_strings(alloc, &mut bytes, &mut fresh, strings)?;
    let before = groups.len();
    groups.append(&mut fresh)?;
    let _all = groups.len();
    let edges = edges_by(alloc, &bytes, first + before)?;
    Ok(edges)
}
