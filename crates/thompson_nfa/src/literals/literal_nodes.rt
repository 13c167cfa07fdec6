//! The nodes of a trie of strings.
ghost use Rattle.std.specs.Prelude.{◌≡◌, ◌≤◌, ◌+◌, ◌++◌, ◌<◌, length, map, drop, get_or, ℕ, List, IfOk, [], ◌∷◌, if◌then◌else◌};
ghost use Rattle.thompson_nfa.specs.LiteralGroups.{texts, strings_of_groups, strings_in_all, AddsGroups};
ghost use Rattle.thompson_nfa.specs.LiteralLaid.{NodeValue, node_value, LaysNode, IsLaidTrie};
ghost use Rattle.thompson_nfa.specs.LiteralTries.{edges_in, matches_in, IsNode};

use crate::literals::literal_groups::{Edge, chunk, turn_len};
use crate::literals::literal_stems::{behind_stem, stem};
use std::alloc::{AllocError, Global};
use std::mem;

/// Adds a match, unless the last item is one.
fn push_match(alloc: Global, items: &mut Vec<Vec<Edge>>, matched: bool) -> Result<(), AllocError>
    ensures { IfOk result (λ _. map (λ x. x.items) items.new.items ≡
        (if matched then map (λ x. x.items) items.old.items else map (λ x. x.items) items.old.items ++ [] ∷ [])) }
{
    if matched {
        return Ok(());
    }
    items.push(Vec::new(alloc))?;
    Ok(())
}

/// The items of the node that has the strings, in order of preference: edges by bytes, or, if an item has
/// none, a match. A match directly after a match is left out. The groups to which edges lead are added;
/// `first` groups come before these.
fn items<'a>(
    alloc: Global,
    strings: &[&'a [u8]],
    first: usize,
    groups: &mut Vec<Vec<&'a [u8]>>,
) -> Result<Vec<Vec<Edge>>, AllocError>
    requires few { first ≤ 9223372036854775807 }
    requires some { 1 ≤ length strings.now }
    ensures adds { IfOk result (λ v. AddsGroups (strings_of_groups (λ g. g.items) groups.old.items)
        (strings_of_groups (λ g. g.items) groups.new.items) (edges_in (map (λ x. x.items) v.items)) (texts strings.now)) }
    ensures ended { IfOk result (λ v.
        matches_in (map (λ x. x.items) v.items) + strings_in_all (strings_of_groups (λ g. g.items) groups.new.items) ≤
        strings_in_all (strings_of_groups (λ g. g.items) groups.old.items) + length (texts strings.now)) }
    ensures node { IfOk result (λ v. (before : List (List (List ℕ))) → length before ≡ first →
        IsNode first (before ++ strings_of_groups (λ g. g.items) groups.new.items) (map (λ x. x.items) v.items) (texts strings.now)) }
{
    let mut items = Vec::new(alloc);
    let mut rest = strings;
    let mut matched = false;
    while rest.len() > 0 {
        let len = turn_len(rest);
        let turn = &rest[..len];
        rest = &rest[len..];
        if turn[0].is_empty() {
            push_match(alloc, &mut items, matched)?;
            matched = true;
        } else {
            items.push(chunk(alloc, turn, first, groups)?)?;
            matched = false;
        }
    }
    Ok(items)
}

/// A node of a trie: the stem of its strings, and the items of what follows the stem in each.
#[derive(Drop)]
pub(crate) struct Node<'a> {
    pub(crate) stem: &'a [u8],
    pub(crate) items: Vec<Vec<Edge>>,
}

/// The node that has the strings, which have no stem. The groups to which edges lead are added; `first` groups come before these.
fn lay_without_stem<'a>(
    alloc: Global,
    strings: &[&'a [u8]],
    stem: &'a [u8],
    first: usize,
    groups: &mut Vec<Vec<&'a [u8]>>,
) -> Result<Node<'a>, AllocError>
    requires few { first ≤ 9223372036854775807 }
    requires some { 1 ≤ length strings.now }
    requires none { length stem.now ≡ 0 }
    ensures { IfOk result (λ n. LaysNode first (strings_of_groups (λ g. g.items) groups.old.items)
        (strings_of_groups (λ g. g.items) groups.new.items) (node_value n) (texts strings.now)) }
{
    let items = items(alloc, strings, first, groups)?;
    Ok(Node { stem, items })
}

/// The node that has the strings. The groups to which edges lead are added; `first` groups come before these.
fn lay<'a>(
    alloc: Global,
    strings: &[&'a [u8]],
    first: usize,
    groups: &mut Vec<Vec<&'a [u8]>>,
) -> Result<Node<'a>, AllocError>
    requires few { first ≤ 9223372036854775807 }
    requires some { 1 ≤ length strings.now }
    ensures { IfOk result (λ n. LaysNode first (strings_of_groups (λ g. g.items) groups.old.items)
        (strings_of_groups (λ g. g.items) groups.new.items) (node_value n) (texts strings.now)) }
{
    let stem = stem(strings);
    if stem.is_empty() {
        let node = lay_without_stem(alloc, strings, stem, first, groups)?;
        return Ok(node);
    }
    let rest = behind_stem(alloc, strings, stem)?;
    let items = items(alloc, &rest, first, groups)?;
    Ok(Node { stem, items })
}

/// Takes the group at index `at`, and leaves an empty one there.
fn take_group<'a>(alloc: Global, groups: &mut Vec<Vec<&'a [u8]>>, at: usize) -> Vec<&'a [u8]>
    requires { at < length groups.old.items }
    ensures taken { texts result.items ≡ get_or (strings_of_groups (λ g. g.items) groups.old.items) at [] }
    ensures as_many { length (strings_of_groups (λ g. g.items) groups.new.items) ≡
        length (strings_of_groups (λ g. g.items) groups.old.items) }
    ensures later { drop (at + 1) (strings_of_groups (λ g. g.items) groups.new.items) ≡
        drop (at + 1) (strings_of_groups (λ g. g.items) groups.old.items) }
{
    mem::replace(&mut groups[at], Vec::new(alloc))
}

/// Makes the node of the next group that has none yet, and adds the groups to which its edges lead. The group
/// itself is no longer held.
fn lay_next<'a>(
    alloc: Global,
    groups: &mut Vec<Vec<&'a [u8]>>,
    nodes: &mut Vec<Node<'a>>,
) -> Result<(), AllocError>
    requires there { length nodes.old.items < length groups.old.items }
    requires some { 1 ≤ length (get_or (strings_of_groups (λ g. g.items) groups.old.items) (length nodes.old.items) []) }
    ensures { IfOk result (λ _. (kept : List (List (List ℕ))) × (fresh : List (List (List ℕ))) × (node : NodeValue) ×
        (length kept ≡ length (strings_of_groups (λ g. g.items) groups.old.items)) ×
        (drop (length nodes.old.items + 1) kept ≡ drop (length nodes.old.items + 1) (strings_of_groups (λ g. g.items) groups.old.items)) ×
        LaysNode (length (strings_of_groups (λ g. g.items) groups.old.items)) [] fresh node
        (get_or (strings_of_groups (λ g. g.items) groups.old.items) (length nodes.old.items) []) ×
        (map node_value nodes.new.items ≡ map node_value nodes.old.items ++ node ∷ []) ×
        (strings_of_groups (λ g. g.items) groups.new.items ≡ kept ++ fresh)) }
{
    let strings = take_group(alloc, groups, nodes.len());
    let mut more = Vec::new(alloc);
    let node = lay(alloc, &strings, groups.len(), &mut more)?;
    nodes.push(node)?;
    groups.append(&mut more)?;
    Ok(())
}

/// The nodes: the first has all strings, and edges lead to later ones, by their numbers.
pub(crate) fn nodes<'a>(alloc: Global, strings: Vec<&'a [u8]>) -> Result<Vec<Node<'a>>, AllocError>
    requires { 1 ≤ length strings.items }
    ensures { IfOk result (λ v. IsLaidTrie (map node_value v.items) (texts strings.entry.items)) }
{
    let mut groups = Vec::new(alloc);
    groups.push(strings)?;
    let mut nodes = Vec::new(alloc);
    while nodes.len() < groups.len() {
        lay_next(alloc, &mut groups, &mut nodes)?;
    }
    Ok(nodes)
}
