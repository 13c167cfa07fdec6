//! Splits trees into literals and greedy rounds of classes, one after the other.
//!
//! Parts are put into a list from the last to the first, so what follows a part is known when it comes.
ghost use Rattle.std.specs.Prelude.{◌≡◌, ◌++◌, ◌∷◌, [], IfSome, OnOk, Some, false, map, reverse, true};
ghost use Rattle.hir_core.specs.Tree.{alternation, concat, literal, repetition};
ghost use Rattle.meta_regex.specs.declared.parts.Part.TheVariants.{Rounds};
ghost use Rattle.meta_regex.specs.Parts.{AreDecided, AreParts, IsDecided, Shun};
ghost use Rattle.meta_regex.specs.Splitting.{IsBeginning, IsDisjoint, IsRoundsBeginning, PutsParts, PutsRounds, begins_outside};

use crate::parts::Part;
use crate::runs::{Run, run_of_body};
use hir_core::{Hir, HirKind};
use search_core::ByteSet;
use std::alloc::{AllocError, Global};

/// Trees of more parts than this aren't split.
const MOST_PARTS: usize = 64;

/// How a part begins where a byte of a set is.
#[derive(Clone, Copy)]
enum Beginning {
    /// It has no end there.
    Never,
    /// Its one end is there.
    Empty,
    /// Nothing is known.
    Unknown,
}

/// Whether the sets have a byte in common.
fn overlap(a: &ByteSet, b: &ByteSet) -> bool
    ensures { result ≡ false → IsDisjoint a.now b.now }
{
    for byte in 0..=255u8 {
        if a.contains(byte) && b.contains(byte) {
            return true;
        }
    }
    false
}

/// Whether these bytes begin with one that isn't in the set.
fn begins_outside(bytes: &[u8], set: &ByteSet) -> bool
    ensures { result ≡ begins_outside bytes.now set.now }
{
    match bytes.split_first() {
        Some((first, _)) => !set.contains(*first),
        None => false,
    }
}

/// How rounds begin where a byte of the set is.
fn beginning_of_rounds(run: &Run, set: &ByteSet) -> Beginning
    ensures { IsRoundsBeginning run.now set.now result }
{
    if overlap(&run.first, set) {
        return Beginning::Unknown;
    }
    if run.least == 0 {
        return Beginning::Empty;
    }
    Beginning::Never
}

/// How a part begins where a byte of the set is.
fn beginning_of(part: &Part, set: &ByteSet) -> Beginning
    ensures { IsBeginning part.now set.now result }
{
    match part {
        Part::Literal(bytes) => {
            if begins_outside(bytes, set) {
                return Beginning::Never;
            }
            Beginning::Unknown
        }
        Part::Rounds { run, .. } => beginning_of_rounds(run, set),
        Part::OneOf(_) => Beginning::Unknown,
    }
}

/// Whether the parts, from the last to the first, have no end where a byte of the set is.
fn shun(parts: &[Part], set: &ByteSet) -> bool
    ensures { result ≡ true → Shun (reverse parts.now) set.now }
{
    let mut left = parts;
    while let Some((part, others)) = left.split_last() {
        match beginning_of(part, set) {
            Beginning::Never => return true,
            Beginning::Empty => {}
            Beginning::Unknown => return false,
        }
        left = others;
    }
    false
}

/// Whether what follows, from the last part to the first, has no end at other ends of the rounds than the preferred one if it has none there.
fn is_apart(run: &Run, most: Option<usize>, following: &[Part]) -> bool
    ensures { result ≡ true → IsDecided (Rounds run.now most) (reverse following.now) }
{
    if most == Some(run.least) || following.is_empty() {
        return true;
    }
    shun(following, &run.members)
}

/// Puts a part before those that are there. It returns `false` if it doesn't, as it does where there are too many.
fn put_part(parts: &mut Vec<Part>, part: Part) -> bool
    ensures { result ≡ true → parts.new.items ≡ parts.old.items ++ part ∷ [] }
{
    if MOST_PARTS <= parts.len() {
        return false;
    }
    match parts.push(part) {
        Ok(()) => true,
        Err(_) => false,
    }
}

/// Puts a literal before the parts.
fn put_literal(alloc: Global, bytes: &[u8], parts: &mut Vec<Part>) -> bool
    ensures { result ≡ true → PutsParts (literal bytes.now) parts.old.items parts.new.items }
{
    let Ok(copy) = Vec::from_slice(alloc, bytes) else {
        return false;
    };
    put_part(parts, Part::Literal(copy))
}

/// Puts rounds of this body before the parts, if it is a class, and what follows is apart from it.
fn put_rounds(least: usize, most: Option<usize>, body: &Hir, parts: &mut Vec<Part>) -> bool
    ensures { result ≡ true → PutsRounds least most body.now parts.old.items parts.new.items }
{
    let Some(run) = run_of_body(least, body) else {
        return false;
    };
    if !is_apart(&run, most, parts) {
        return false;
    }
    put_part(parts, Part::Rounds { run, most })
}

/// A bound on rounds.
fn bound_of(most: Option<u32>) -> Option<usize>
    ensures { result ≡ most }
{
    match most {
        Some(most) => Some(most as usize),
        None => None,
    }
}

/// Puts greedy rounds before the parts.
fn put_repetition(
    least: u32,
    most: Option<u32>,
    greedy: bool,
    body: &Hir,
    parts: &mut Vec<Part>,
) -> bool
    ensures { result ≡ true → PutsParts (repetition least most greedy body.now) parts.old.items parts.new.items }
{
    if !greedy {
        return false;
    }
    put_rounds(least as usize, bound_of(most), body, parts)
}

/// Puts one round before the parts.
fn put_class(class: &Hir, parts: &mut Vec<Part>) -> bool
    ensures { result ≡ true → PutsParts class.now parts.old.items parts.new.items }
{
    put_rounds(1, Some(1), class, parts)
}

/// Adds a copy of a string to others.
fn push_copy(alloc: Global, texts: &mut Vec<Vec<u8>>, bytes: &[u8]) -> Result<(), AllocError>
    ensures { OnOk result (map (λ t. literal t.items) texts.new.items ≡ map (λ t. literal t.items) texts.old.items ++ literal bytes.now ∷ []) }
{
    texts.push(Vec::from_slice(alloc, bytes)?)?;
    Ok(())
}

/// The strings that the trees are, if each of them is one.
fn strings_of(alloc: Global, trees: &[Hir]) -> Option<Vec<Vec<u8>>>
    ensures { IfSome result (λ texts. map (λ t. literal t.items) texts.items ≡ trees.now) }
{
    let mut texts = Vec::new(alloc);
    for tree in trees {
        let HirKind::Literal(bytes) = tree.kind() else {
            return None;
        };
        let Ok(()) = push_copy(alloc, &mut texts, bytes) else {
            return None;
        };
    }
    Some(texts)
}

/// Whether there are no parts.
fn has_none(parts: &[Part]) -> bool
    ensures { result ≡ true → parts.now ≡ [] }
{
    parts.is_empty()
}

/// Puts one of several strings where nothing follows.
fn put_one_of(alloc: Global, trees: &[Hir], parts: &mut Vec<Part>) -> bool
    ensures { result ≡ true → PutsParts (alternation trees.now) parts.old.items parts.new.items }
{
    if MOST_PARTS < trees.len() || !has_none(parts) {
        return false;
    }
    let Some(texts) = strings_of(alloc, trees) else {
        return false;
    };
    put_part(parts, Part::OneOf(texts))
}

/// Puts the parts of a tree before those that are there. It returns `false` if it doesn't put all of them.
#[cycle(put_tree)]
fn put_tree(alloc: Global, x: &Hir, parts: &mut Vec<Part>) -> bool
    ensures { result ≡ true → PutsParts x.now parts.old.items parts.new.items }
{
    match x.kind() {
        HirKind::Empty => true,
        HirKind::Literal(bytes) => put_literal(alloc, bytes, parts),
        HirKind::Bytes(_) => put_class(x, parts),
        HirKind::Chars(_) => put_class(x, parts),
        HirKind::Repetition {
            min,
            max,
            greedy,
            sub,
        } => put_repetition(*min, *max, *greedy, sub, parts),
        HirKind::Capture { sub, .. } => put_tree(alloc, sub, parts),
        HirKind::Concat(subs) => put_trees(alloc, subs, parts),
        HirKind::Alternation(subs) => put_one_of(alloc, subs, parts),
        HirKind::Look(_) => false,
    }
}

/// Puts the parts of a concatenation before those that are there.
#[cycle(put_tree)]
fn put_trees(alloc: Global, xs: &[Hir], parts: &mut Vec<Part>) -> bool
    ensures { result ≡ true → PutsParts (concat xs.now) parts.old.items parts.new.items }
{
    let mut n = xs.len();
    while n > 0 {
        n -= 1;
        if !put_tree(alloc, &xs[n], parts) {
            return false;
        }
    }
    true
}

/// The parts of a tree, from the first to the last, if it has nothing else.
pub(crate) fn parts_of(alloc: Global, x: &Hir) -> Option<Vec<Part>>
    ensures { IfSome result (λ parts. AreParts parts.items x.now × AreDecided parts.items) }
{
    let mut parts = Vec::new(alloc);
    if !put_tree(alloc, x, &mut parts) {
        return None;
    }
    parts.reverse();
    Some(parts)
}
