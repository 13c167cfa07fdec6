// The facts of a node from those of its parts.
#![tactic(auto, using(crate::proofs::BackwardLemmas::behind_more, crate::proofs::BackwardLemmas::behind_all))]

ghost use Rattle.std.specs.Prelude.{◌≡◌, ◌≤◌, IfSome};
ghost use Rattle.hir_core.specs.Tree.{concat, alternation};
ghost use Rattle.hir_core.specs.Facts.{minimum_len, maximum_len, is_utf8_tree, height, count, repeated_count, sum_of_both, least_of_either};
ghost use Rattle.hir_core.specs.Facts.{greatest_of_both, times, times_most};

use crate::hir::Hir;

/// The sum of both lengths, at most `usize::MAX`, if both are known.
pub fn sum_of_both(a: Option<usize>, b: Option<usize>) -> Option<usize>
    ensures { result ≡ sum_of_both a b }
{
    match (a, b) {
        (Some(a), Some(b)) => Some(a.saturating_add(b)),
        _ => None,
    }
}

/// The least of the lengths that are known.
pub fn least_of_either(a: Option<usize>, b: Option<usize>) -> Option<usize>
    ensures { result ≡ least_of_either a b }
{
    match (a, b) {
        (Some(a), Some(b)) => Some(a.min(b)),
        (None, b) => b,
        (a, None) => a,
    }
}

/// The greater of both lengths, if both are known.
pub fn greatest_of_both(a: Option<usize>, b: Option<usize>) -> Option<usize>
    ensures { result ≡ greatest_of_both a b }
{
    match (a, b) {
        (Some(a), Some(b)) => Some(a.max(b)),
        _ => None,
    }
}

/// The least length of so many rounds of a body.
pub fn times(rounds: usize, body: Option<usize>) -> Option<usize>
    ensures { result ≡ times rounds body }
{
    match (rounds, body) {
        (0, _) => Some(0),
        (_, None) => None,
        (rounds, Some(len)) => Some(len.saturating_mul(rounds)),
    }
}

/// The greatest length of so many rounds of a body.
pub fn times_most(rounds: Option<u32>, body: Option<usize>) -> Option<usize>
    ensures { result ≡ times_most rounds body }
{
    match (rounds, body) {
        (Some(rounds), Some(len)) => Some(len.saturating_mul(rounds as usize)),
        _ => None,
    }
}

/// The least length of a concatenation.
pub fn concat_minimum_len(subs: &[Hir]) -> Option<usize>
    ensures { result ≡ minimum_len (concat subs.now) }
{
    let mut total = Some(0usize);
    for sub in subs.iter().rev() {
        total = sum_of_both(sub.properties().minimum_len(), total);
    }
    total
}

/// The least length of an alternation.
pub fn alternation_minimum_len(subs: &[Hir]) -> Option<usize>
    ensures { result ≡ minimum_len (alternation subs.now) }
{
    let mut least = None;
    for sub in subs.iter().rev() {
        least = least_of_either(sub.properties().minimum_len(), least);
    }
    least
}

/// The greatest length of a concatenation, if there is one.
pub fn concat_maximum_len(subs: &[Hir]) -> Option<usize>
    ensures { result ≡ maximum_len (concat subs.now) }
{
    let mut total = Some(0usize);
    for sub in subs.iter().rev() {
        total = sum_of_both(sub.properties().maximum_len(), total);
    }
    total
}

/// The greatest length of an alternation, if there is one.
pub fn alternation_maximum_len(subs: &[Hir]) -> Option<usize>
    ensures { result ≡ maximum_len (alternation subs.now) }
{
    let Some((last, others)) = subs.split_last() else {
        return None;
    };
    let mut longest = last.properties().maximum_len();
    for sub in others.iter().rev() {
        longest = greatest_of_both(sub.properties().maximum_len(), longest);
    }
    longest
}

/// Whether the facts of all parts say that their spans are UTF-8.
pub fn are_utf8(subs: &[Hir]) -> bool
    ensures concat { result ≡ is_utf8_tree (concat subs.now) }
    ensures alternation { result ≡ is_utf8_tree (alternation subs.now) }
{
    let mut all = true;
    for sub in subs.iter().rev() {
        all = sub.properties().is_utf8() && all;
    }
    all
}

/// The height of a concatenation or an alternation.
pub fn height_over(subs: &[Hir]) -> usize
    ensures concat { result ≡ height (concat subs.now) }
    ensures alternation { result ≡ height (alternation subs.now) }
{
    let mut levels = 1usize;
    for sub in subs.iter().rev() {
        levels = levels.max(sub.height().saturating_add(1));
    }
    levels
}

/// A bound on the states of a concatenation, as `Hir::count` returns it.
pub fn concat_count(subs: &[Hir]) -> usize
    ensures { result ≡ count (concat subs.now) }
{
    let mut states = 1usize;
    for sub in subs.iter().rev() {
        states = states.saturating_add(sub.count());
    }
    states
}

/// A bound on the states of an alternation, as `Hir::count` returns it.
pub fn alternation_count(subs: &[Hir]) -> usize
    ensures { result ≡ count (alternation subs.now) }
{
    let mut states = 4usize;
    for sub in subs.iter().rev() {
        states = states.saturating_add(sub.count());
    }
    states
}

/// A bound on the states of a repetition, as `Hir::count` returns it.
pub fn repetition_count(min: usize, max: Option<u32>, body: usize) -> usize
    requires { IfSome max (λ most. min ≤ most) }
    ensures { result ≡ repeated_count min max body }
{
    match max {
        None => min.max(1).saturating_mul(body).saturating_add(3),
        Some(most) => min
            .saturating_mul(body)
            .saturating_add((most as usize - min).saturating_mul(body.saturating_add(1)))
            .saturating_add(1),
    }
}
