//! Leaves words out of a tree where nobody asks which word a line has. A line that has a word also has each word with which that word
//! begins.
ghost use Rattle.std.specs.Prelude.{◌≡◌, ◌++◌, ◌∷◌, [], IfOk, IfSome, OnOk, false, map, true};
ghost use Rattle.hir_core.specs.Tree.{alternation, literal};
ghost use Rattle.literal_search.specs.Literals.{ListsPrefix};
ghost use Rattle.line_search.specs.FewerWords.{AreEnoughOf, HasFewerWords};
ghost use Rattle.line_search.specs.Joined.{one_or_all};

use crate::joining::one_or_all;
use hir_core::{Hir, HirKind};
use std::alloc::{AllocError, Global};

/// The word that the tree is, if it is one.
fn word_of(tree: &Hir) -> Option<&[u8]>
    ensures { IfSome result (λ w. tree.now ≡ literal w.now) }
{
    match tree.kind() {
        HirKind::Literal(bytes) => Some(bytes.as_slice()),
        _ => None,
    }
}

/// The words that the trees are, if all of them are words and memory suffices.
fn words_of<'a>(alloc: Global, trees: &'a [Hir]) -> Option<Vec<&'a [u8]>>
    ensures { IfSome result (λ words. trees.now ≡ map (λ w. literal w.now) words.items) }
{
    let mut words = Vec::new(alloc);
    for tree in trees {
        let Some(word) = word_of(tree) else {
            return None;
        };
        let Ok(()) = words.push(word) else {
            return None;
        };
    }
    Some(words)
}

/// Whether the word is seen to begin with the last one of these.
fn begins_with_last(word: &[u8], kept: &[&[u8]]) -> bool
    ensures { result ≡ true → ListsPrefix (map (λ k. k.now) kept.now) word.now }
{
    match kept.last() {
        Some(last) => word.starts_with(last),
        None => false,
    }
}

/// Some of the words, so that each word begins with one of them. If the words are sorted, these are the fewest, since words with the same
/// beginning follow it.
fn enough_of<'a>(alloc: Global, words: &[&'a [u8]]) -> Result<Vec<&'a [u8]>, AllocError>
    ensures { IfOk result (λ kept. AreEnoughOf (map (λ w. w.now) words.now) (map (λ w. w.now) kept.items)) }
{
    let mut kept = Vec::new(alloc);
    for word in words {
        if begins_with_last(word, &kept) {
            continue;
        }
        kept.push(*word)?;
    }
    Ok(kept)
}

/// The fewest of the words with which all of them begin.
fn fewest_of<'a>(alloc: Global, words: &mut Vec<&'a [u8]>) -> Result<Vec<&'a [u8]>, AllocError>
    ensures { IfOk result (λ kept. AreEnoughOf (map (λ w. w.now) words.old.items) (map (λ w. w.now) kept.items)) }
{
    words.sort_unstable();
    match enough_of(alloc, words) {
        Ok(kept) => Ok(kept),
        Err(e) => Err(e),
    }
}

/// Appends the tree of a word.
fn push_word(alloc: Global, parts: &mut Vec<Hir>, word: &[u8]) -> Result<(), AllocError>
    ensures { OnOk result (parts.new.items ≡ parts.old.items ++ literal word.now ∷ []) }
{
    let bytes = word.to_vec(alloc)?;
    parts.push(Hir::literal(bytes))?;
    Ok(())
}

/// The alternation of these words, or the one word.
fn tree_of(alloc: Global, words: &[&[u8]]) -> Result<Hir, AllocError>
    ensures { IfOk result (λ x. x ≡ one_or_all (map (λ w. literal w.now) words.now)) }
{
    let mut parts = Vec::new(alloc);
    for word in words {
        push_word(alloc, &mut parts, word)?;
    }
    Ok(one_or_all(parts))
}

/// The tree of the fewest of these words, if they are fewer and memory suffices.
fn fewest_tree(alloc: Global, mut words: Vec<&[u8]>) -> Option<Hir>
    ensures { IfSome result (λ x. HasFewerWords (alternation (map (λ w. literal w.now) words.entry.items)) x) }
{
    let Ok(kept) = fewest_of(alloc, &mut words) else {
        return None;
    };
    if kept.len() == words.len() {
        return None;
    }
    match tree_of(alloc, &kept) {
        Ok(tree) => Some(tree),
        Err(_) => None,
    }
}

/// The tree with fewer words, if it is an alternation of words alone, some of them begin with others, and memory suffices. There is none if
/// matches are asked for.
pub(crate) fn with_fewer_words(alloc: Global, tree: &Hir, with_matches: bool) -> Option<Hir>
    ensures lines { IfSome result (λ x. with_matches ≡ false) }
    ensures fewer { IfSome result (λ x. HasFewerWords tree.now x) }
{
    if with_matches {
        return None;
    }
    let HirKind::Alternation(parts) = tree.kind() else {
        return None;
    };
    let Some(words) = words_of(alloc, parts) else {
        return None;
    };
    fewest_tree(alloc, words)
}
