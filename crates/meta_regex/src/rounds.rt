//! Trees that are rounds of a class, one after the other, as `\w+`, `\w\w+` and `(\w)(\w*)`.
//!
//! A single class before an unbounded repetition of the same class is one more round of it. Groups make no difference to spans.
ghost use Rattle.std.specs.Prelude.{◌≡◌, IfSome, true};
ghost use Rattle.hir_core.specs.Tree.{concat};
ghost use Rattle.meta_regex.specs.Parts.{HasEndsOf};
ghost use Rattle.meta_regex.specs.Rounds.{RepeatsAtLeast, HaveEndsOf};

use hir_core::{Hir, HirKind};

/// At least so many rounds of a tree, of which more are preferred.
#[derive(Clone, Copy)]
pub(crate) struct AtLeast<'a> {
    /// How many rounds there are at least.
    pub(crate) least: usize,
    /// The tree that each round is a span of.
    pub(crate) body: &'a Hir,
}

/// Whether these are the same ranges of bytes.
fn are_same_bytes(a: &[(u8, u8)], b: &[(u8, u8)]) -> bool
    ensures { result ≡ true → a.now ≡ b.now }
{
    a == b
}

/// Whether these are the same ranges of characters.
fn are_same_chars(a: &[(char, char)], b: &[(char, char)]) -> bool
    ensures { result ≡ true → a.now ≡ b.now }
{
    a == b
}

/// Whether both trees are the same class.
fn is_same_class(a: &Hir, b: &Hir) -> bool
    ensures { result ≡ true → a.now ≡ b.now }
{
    match (a.kind(), b.kind()) {
        (HirKind::Bytes(a), HirKind::Bytes(b)) => are_same_bytes(a, b),
        (HirKind::Chars(a), HirKind::Chars(b)) => are_same_chars(a, b),
        _ => false,
    }
}

/// The tree within the groups around it, if there are any.
fn within_groups(x: &Hir) -> &Hir
    ensures { HasEndsOf x.now result.now }
{
    let mut inner = x;
    while let HirKind::Capture { sub, .. } = inner.kind() {
        inner = sub;
    }
    inner
}

/// Whether each of the trees is this class, within groups or without.
fn are_class(xs: &[Hir], class: &Hir) -> bool
    ensures { result ≡ true → HaveEndsOf xs.now class.now }
{
    let mut left = xs;
    while let Some((x, others)) = left.split_first() {
        if !is_same_class(within_groups(x), class) {
            return false;
        }
        left = others;
    }
    true
}

/// The rounds of which the tree is an unbounded greedy repetition, if it is one.
fn rounds_of_repetition(x: &Hir) -> Option<AtLeast<'_>>
    ensures { IfSome result (λ r. RepeatsAtLeast r.least r.body.now x.now) }
{
    let HirKind::Repetition {
        min,
        max,
        greedy,
        sub,
    } = x.kind()
    else {
        return None;
    };
    if max.is_some() || !*greedy {
        return None;
    }
    Some(AtLeast {
        least: *min as usize,
        body: within_groups(sub),
    })
}

/// The rounds that the concatenation of these trees is, if the last one is rounds of a class, and each of the others is that class.
fn rounds_of_parts(xs: &[Hir]) -> Option<AtLeast<'_>>
    ensures { IfSome result (λ r. RepeatsAtLeast r.least r.body.now (concat xs.now)) }
{
    let Some((last, singles)) = xs.split_last() else {
        return None;
    };
    let Some(rounds) = rounds_of_repetition(within_groups(last)) else {
        return None;
    };
    if !are_class(singles, rounds.body) {
        return None;
    }
    let Some(least) = rounds.least.checked_add(singles.len()) else {
        return None;
    };
    Some(AtLeast {
        least,
        body: rounds.body,
    })
}

/// The rounds that the tree is, within groups or without: an unbounded greedy repetition, or single classes and then one of the same class.
pub(crate) fn rounds_of(x: &Hir) -> Option<AtLeast<'_>>
    ensures { IfSome result (λ r. RepeatsAtLeast r.least r.body.now x.now) }
{
    let inner = within_groups(x);
    let HirKind::Concat(parts) = inner.kind() else {
        return rounds_of_repetition(inner);
    };
    rounds_of_parts(parts)
}
