ghost use Rattle.std.specs.Prelude.{◌≡◌, ◌+◌, ◌≤◌, ◌&&◌, nat_lt, true, length, map, is_some, is_none, Decides, All};
ghost use Rattle.std.specs.List.{list_all};
ghost use Rattle.search_core.specs.Index.{greatest_index};
ghost use Rattle.search_types.specs.GroupFaults.{groups_in};
ghost use Rattle.search_types.specs.Groups.{groups_of, slot};
ghost use Rattle.nfa_core.specs.BuilderStates.{draft_at};
ghost use Rattle.nfa_core.specs.CanBuild.{CanBuild, names_of, is_known};
ghost use Rattle.nfa_core.specs.Checks.{has_all};
ghost use Rattle.nfa_core.specs.Drafts.{draft_of};
ghost use Rattle.nfa_core.specs.Renaming.{stands_for, past, HasNoLoop};
ghost use Rattle.nfa_core.specs.Transitions.{range_of};

use crate::builder::Builder;
use crate::building::draft::Draft;
use crate::transition::Transition;
use search_core::{PatternID, SmallIndex, StateID};

impl Builder {
    /// Whether [`build`](Builder::build) may be called with these starts: no pattern is open, all names are of states, all groups were
    /// begun, and no states that stand for others make a loop. It allocates nothing. From each state it follows at most as many ways as
    /// there are states, so the time may grow with the square of their number.
    pub fn can_build(&self, start_anchored: StateID, start_unanchored: StateID) -> bool
        ensures can { result ≡ true → CanBuild self.now start_anchored start_unanchored }
        ensures only { CanBuild self.now start_anchored start_unanchored → result ≡ true }
    {
        self.has_all(start_anchored, start_unanchored) && has_no_loop(&self.drafts)
    }

    /// Whether no pattern is open, all names are of states, and all groups were begun.
    fn has_all(&self, start_anchored: StateID, start_unanchored: StateID) -> bool
        ensures { result ≡ has_all self.now start_anchored start_unanchored }
    {
        let len = self.drafts.len();
        if self.is_open {
            return false;
        }
        if start_anchored.as_usize() >= len {
            return false;
        }
        if start_unanchored.as_usize() >= len {
            return false;
        }
        if !are_below(&self.starts, len) {
            return false;
        }
        if !are_named(&self.drafts) {
            return false;
        }
        are_known(&self.groups, &self.drafts)
    }
}

/// Whether each of these numbers is below `len`.
fn are_below(names: &[StateID], len: usize) -> bool
    ensures { result ≡ list_all (λ q. nat_lt q len) names.now }
{
    for name in names {
        if name.as_usize() >= len {
            return false;
        }
    }
    true
}

/// Whether each of these ranges leads to a number below `len`.
fn lead_below(transitions: &[Transition], len: usize) -> bool
    ensures { result ≡ list_all (λ q. nat_lt q len) (map (λ r. r.2) (map range_of transitions.now)) }
{
    for transition in transitions {
        if transition.next.as_usize() >= len {
            return false;
        }
    }
    true
}

/// Whether each number that a state names is below `len`.
fn names_below(draft: &Draft, len: usize) -> bool
    ensures { result ≡ list_all (λ q. nat_lt q len) (names_of (draft_of draft.now)) }
{
    match draft {
        Draft::Empty { next } => next.as_usize() < len,
        Draft::ByteRange { trans } => trans.next.as_usize() < len,
        Draft::Sparse { transitions } => lead_below(transitions, len),
        Draft::Look { next, .. } => next.as_usize() < len,
        Draft::CaptureStart { next, .. } => next.as_usize() < len,
        Draft::CaptureEnd { next, .. } => next.as_usize() < len,
        Draft::Union { alternates } => are_below(alternates, len),
        Draft::UnionReverse { alternates } => are_below(alternates, len),
        Draft::Fail | Draft::Match { .. } => true,
    }
}

/// Whether all names that states name are of states.
fn are_named(drafts: &[Draft]) -> bool
    ensures { result ≡ list_all (λ draft. list_all (λ q. nat_lt q (length drafts.now)) (names_of draft)) (map draft_of drafts.now) }
{
    for draft in drafts {
        if !names_below(draft, drafts.len()) {
            return false;
        }
    }
    true
}

/// How many groups the pattern has; none if there is no such pattern.
#[tactic(auto, using(crate::proofs::CheckLemmas::len_there, crate::proofs::CheckLemmas::len_absent))]
fn group_len(groups: &[Vec<Option<String>>], pattern: PatternID) -> usize
    ensures { result ≡ length (groups_of (groups_in groups.now) pattern) }
{
    if pattern.as_usize() >= groups.len() {
        return 0;
    }
    groups[pattern.as_usize()].len()
}

/// Whether the pattern has this group.
fn has_group(groups: &[Vec<Option<String>>], pattern: PatternID, group: SmallIndex) -> bool
    ensures { result ≡ is_some (slot (groups_in groups.now) pattern group) }
{
    group.as_usize() < group_len(groups, pattern)
}

/// Whether the group of a state exists, if it has one.
fn is_known(groups: &[Vec<Option<String>>], draft: &Draft) -> bool
    ensures { result ≡ is_known (groups_in groups.now) (draft_of draft.now) }
{
    match draft {
        Draft::CaptureStart {
            pattern_id,
            group_index,
            ..
        } => has_group(groups, *pattern_id, *group_index),
        Draft::CaptureEnd {
            pattern_id,
            group_index,
            ..
        } => has_group(groups, *pattern_id, *group_index),
        _ => true,
    }
}

/// Whether the groups of all states exist.
fn are_known(groups: &[Vec<Option<String>>], drafts: &[Draft]) -> bool
    ensures { result ≡ list_all (is_known (groups_in groups.now)) (map draft_of drafts.now) }
{
    for draft in drafts {
        if !is_known(groups, draft) {
            return false;
        }
    }
    true
}

/// The state for which this one stands; none if there is no such state.
fn next_of(drafts: &[Draft], q: StateID) -> Option<StateID>
    ensures { result ≡ stands_for (draft_at (map draft_of drafts.now) q) }
{
    match drafts.get(q.as_usize()) {
        Some(draft) => draft.stands_for(),
        None => None,
    }
}

/// Whether the state past this one stands for itself.
#[tactic(auto, using(crate::proofs::CheckLemmas::followed))]
fn is_satisfied(drafts: &[Draft], q: StateID) -> bool
    ensures { result ≡ is_none (stands_for (draft_at (map draft_of drafts.now) (past (map draft_of drafts.now) q))) }
{
    let mut at = q;
    for _index in 0..drafts.len() {
        let Some(next) = next_of(drafts, at) else {
            return true;
        };
        at = next;
    }
    next_of(drafts, at).is_none()
}

/// Whether no states that stand for others make a loop.
fn has_no_loop(drafts: &[Draft]) -> bool
    requires { length drafts.now ≤ greatest_index + 1 }
    ensures { Decides result (HasNoLoop (map draft_of drafts.now)) }
{
    for index in 0..drafts.len() {
        if !is_satisfied(drafts, StateID::must(index)) {
            return false;
        }
    }
    true
}
