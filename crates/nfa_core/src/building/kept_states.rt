ghost use Rattle.std.specs.Prelude.{◌≡◌, ℕ, ◌+◌, ◌<◌, ◌≤◌, true, length, map, is_some, unwrap_or, All, IfOk};
ghost use Rattle.search_core.specs.Index.{greatest_index};
ghost use Rattle.search_types.specs.Groups.{slot};
ghost use Rattle.nfa_core.specs.CanBuild.{names_of, is_known};
ghost use Rattle.nfa_core.specs.Drafts.{draft_of};
ghost use Rattle.nfa_core.specs.Nfa.{byte_range, look_node, capture_node};
ghost use Rattle.nfa_core.specs.Pasts.{name_in};
ghost use Rattle.nfa_core.specs.Renaming.{kept, renamed, ways_node, ranges_node};
ghost use Rattle.nfa_core.specs.States.{node_of};
ghost use Rattle.nfa_core.specs.Transitions.{range_of};

use crate::building::draft::Draft;
use crate::sparse_transitions::SparseTransitions;
use crate::state::State;
use crate::transition::Transition;
use search_core::{PatternID, SmallIndex, StateID};
use search_types::GroupInfo;
use std::alloc::{AllocError, Global};

/// The name that a state gets.
pub(crate) fn rename(names: &[StateID], q: StateID) -> StateID
    requires { q < length names.now }
    ensures { result ≡ name_in names.now q }
{
    names[q.as_usize()]
}

/// The range, with the name that its state gets.
fn rename_range(names: &[StateID], trans: Transition) -> Transition
    requires { trans.next < length names.now }
    ensures { range_of result ≡ (trans.start, trans.end, name_in names.now trans.next) }
{
    Transition {
        start: trans.start,
        end: trans.end,
        next: rename(names, trans.next),
    }
}

/// The names that states get.
pub(crate) fn rename_all(
    alloc: Global,
    names: &[StateID],
    list: &[StateID],
) -> Result<Vec<StateID>, AllocError>
    requires { All (λ q. q < length names.now) list.now }
    ensures { IfOk result (λ renamed. renamed.items ≡ map (name_in names.now) list.now) }
{
    let mut renamed = Vec::new(alloc);
    for q in list {
        renamed.push(rename(names, *q))?;
    }
    Ok(renamed)
}

/// The ranges, with the names that their states get.
fn rename_ranges(
    alloc: Global,
    names: &[StateID],
    list: &[Transition],
) -> Result<Vec<Transition>, AllocError>
    requires { All (λ t. t.next < length names.now) list.now }
    ensures { IfOk result (λ renamed. map range_of renamed.items ≡ map (λ r. (r.0, r.1, name_in names.now r.2)) (map range_of list.now)) }
{
    let mut renamed = Vec::new(alloc);
    for trans in list {
        renamed.push(rename_range(names, *trans))?;
    }
    Ok(renamed)
}

/// A state that leads to each of these, the preferred first.
fn ways_state(alternates: Vec<StateID>) -> State
    ensures { node_of result ≡ ways_node alternates.items }
{
    match alternates.as_slice() {
        [] => return State::Fail,
        [first, second] => {
            return State::BinaryUnion {
                alt1: *first,
                alt2: *second,
            };
        }
        _ => (),
    }
    State::Union { alternates }
}

/// A state that leads on by the bytes of these ranges.
fn ranges_state(transitions: Vec<Transition>) -> State
    ensures { node_of result ≡ ranges_node (map range_of transitions.items) }
{
    match transitions.as_slice() {
        [] => return State::Fail,
        [trans] => return State::ByteRange { trans: *trans },
        _ => (),
    }
    State::Sparse(SparseTransitions { transitions })
}

/// The first slot of a group, which exists.
fn first_slot(groups: &GroupInfo, pattern: PatternID, group: SmallIndex) -> usize
    requires { is_some (slot groups.now pattern group) ≡ true }
    ensures value { result ≡ unwrap_or (slot groups.now pattern group) 0 }
    ensures in_range { result + 1 ≤ greatest_index }
{
    let _slots = groups.slot_len();
    groups.slot(pattern, group.as_usize()).unwrap_or(0)
}

/// The state that notes where a group starts, and leads to the state of this name.
#[inline(always)]
fn group_start(
    names: &[StateID],
    groups: &GroupInfo,
    pattern_id: PatternID,
    group_index: SmallIndex,
    next: StateID,
) -> State
    requires named { next < length names.now }
    requires known { is_some (slot groups.now pattern_id group_index) ≡ true }
    ensures { node_of result ≡ capture_node (name_in names.now next) pattern_id group_index
        (unwrap_or (slot groups.now pattern_id group_index) 0) }
{
    State::Capture {
        next: rename(names, next),
        pattern_id,
        group_index,
        slot: SmallIndex::must(first_slot(groups, pattern_id, group_index)),
    }
}

/// The state that notes where a group ends, and leads to the state of this name.
#[inline(always)]
fn group_end(
    names: &[StateID],
    groups: &GroupInfo,
    pattern_id: PatternID,
    group_index: SmallIndex,
    next: StateID,
) -> State
    requires named { next < length names.now }
    requires known { is_some (slot groups.now pattern_id group_index) ≡ true }
    ensures { node_of result ≡ capture_node (name_in names.now next) pattern_id group_index
        (unwrap_or (slot groups.now pattern_id group_index) 0 + 1) }
{
    State::Capture {
        next: rename(names, next),
        pattern_id,
        group_index,
        slot: SmallIndex::must(first_slot(groups, pattern_id, group_index) + 1),
    }
}

/// The state of the automaton that a kept state of the builder becomes.
fn kept_state(
    alloc: Global,
    names: &[StateID],
    groups: &GroupInfo,
    draft: &Draft,
) -> Result<State, AllocError>
    requires named { All (λ q. q < length names.now) (names_of (draft_of draft.now)) }
    requires known { is_known groups.now (draft_of draft.now) ≡ true }
    ensures { IfOk result (λ state. node_of state ≡ renamed (name_in names.now) groups.now (draft_of draft.now)) }
{
    match draft {
        Draft::Empty { .. } => Ok(State::Fail),
        Draft::ByteRange { trans } => Ok(State::ByteRange {
            trans: rename_range(names, *trans),
        }),
        Draft::Sparse { transitions } => {
            let renamed = rename_ranges(alloc, names, transitions)?;
            Ok(ranges_state(renamed))
        }
        Draft::Look { look, next } => Ok(State::Look {
            look: *look,
            next: rename(names, *next),
        }),
        Draft::CaptureStart {
            pattern_id,
            group_index,
            next,
        } => Ok(group_start(names, groups, *pattern_id, *group_index, *next)),
        Draft::CaptureEnd {
            pattern_id,
            group_index,
            next,
        } => Ok(group_end(names, groups, *pattern_id, *group_index, *next)),
        Draft::Union { alternates } => {
            let renamed = rename_all(alloc, names, alternates)?;
            Ok(ways_state(renamed))
        }
        Draft::UnionReverse { alternates } => {
            let mut renamed = rename_all(alloc, names, alternates)?;
            renamed.reverse();
            Ok(ways_state(renamed))
        }
        Draft::Fail => Ok(State::Fail),
        Draft::Match { pattern_id } => Ok(State::Match {
            pattern_id: *pattern_id,
        }),
    }
}

/// The states of the automaton, in order.
pub(crate) fn kept_states(
    alloc: Global,
    names: &[StateID],
    groups: &GroupInfo,
    drafts: &[Draft],
) -> Result<Vec<State>, AllocError>
    requires named { All (λ draft. All (λ q. q < length names.now) (names_of draft)) (map draft_of drafts.now) }
    requires known { All (λ draft. is_known groups.now draft ≡ true) (map draft_of drafts.now) }
    ensures { IfOk result (λ states. map node_of states.items ≡
        map (renamed (name_in names.now) groups.now) (kept (map draft_of drafts.now))) }
{
    let mut states = Vec::new(alloc);
    for draft in drafts {
        if draft.stands_for().is_some() {
            continue;
        }
        states.push(kept_state(alloc, names, groups, draft)?)?;
    }
    Ok(states)
}
