// The looks of a node from those of its parts.
#![tactic(auto, using(crate::proofs::BackwardLemmas::behind_more, crate::proofs::BackwardLemmas::behind_all))]

ghost use Rattle.std.specs.Prelude.{◌≡◌};
ghost use Rattle.hir_core.specs.Tree.{concat, alternation};
ghost use Rattle.hir_core.specs.Facts.{if_owed, look_set, look_set_prefix, look_set_suffix};

use crate::facts::sum_of_both;
use crate::hir::Hir;
use look_core::LookSet;

/// The looks of a body that hold at an end of so many rounds, at least. If `rounds` is 0, there are none.
pub fn if_owed(rounds: u32, looks: LookSet) -> LookSet
    ensures { result ≡ if_owed rounds looks }
{
    if rounds == 0 { LookSet::empty() } else { looks }
}

/// The looks of all parts.
pub fn all_looks(subs: &[Hir]) -> LookSet
    ensures concat { result ≡ look_set (concat subs.now) }
    ensures alternation { result ≡ look_set (alternation subs.now) }
{
    let mut looks = LookSet::empty();
    for sub in subs.iter().rev() {
        looks = sub.properties().look_set().union(looks);
    }
    looks
}

/// The looks of the parts up to the first that may consume a byte.
pub fn concat_look_set_prefix(subs: &[Hir]) -> LookSet
    ensures { result ≡ look_set_prefix (concat subs.now) }
{
    let mut looks = LookSet::empty();
    for sub in subs.iter().rev() {
        let part = sub.properties();
        looks = if part.maximum_len() == Some(0) {
            part.look_set_prefix().union(looks)
        } else {
            part.look_set_prefix()
        };
    }
    looks
}

/// The looks of the parts from the last that may consume a byte.
pub fn concat_look_set_suffix(subs: &[Hir]) -> LookSet
    ensures { result ≡ look_set_suffix (concat subs.now) }
{
    let mut looks = LookSet::empty();
    let mut maximum_len = Some(0usize);
    for sub in subs.iter().rev() {
        let part = sub.properties();
        if maximum_len == Some(0) {
            looks = part.look_set_suffix().union(looks);
        }
        maximum_len = sum_of_both(part.maximum_len(), maximum_len);
    }
    looks
}

/// The looks at the start that all parts have.
pub fn alternation_look_set_prefix(subs: &[Hir]) -> LookSet
    ensures { result ≡ look_set_prefix (alternation subs.now) }
{
    let Some((last, others)) = subs.split_last() else {
        return LookSet::empty();
    };
    let mut looks = last.properties().look_set_prefix();
    for sub in others.iter().rev() {
        looks = sub.properties().look_set_prefix().intersect(looks);
    }
    looks
}

/// The looks at the end that all parts have.
pub fn alternation_look_set_suffix(subs: &[Hir]) -> LookSet
    ensures { result ≡ look_set_suffix (alternation subs.now) }
{
    let Some((last, others)) = subs.split_last() else {
        return LookSet::empty();
    };
    let mut looks = last.properties().look_set_suffix();
    for sub in others.iter().rev() {
        looks = sub.properties().look_set_suffix().intersect(looks);
    }
    looks
}
