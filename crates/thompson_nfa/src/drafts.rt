//! The single steps of a compile: a state is added, or one is led on.
ghost use Rattle.std.specs.Prelude.{◌≡◌, ◌<◌, ◌≤◌, true, false, length, map, MatchResult, IfOk};
ghost use Rattle.std.specs.Prelude.{IfErr, string_bytes, [], ◌∷◌, if◌then◌else◌};
ghost use Rattle.std.specs.Option.{option_map};
ghost use Rattle.nfa_core.specs.BuilderStates.{capture_start_draft, capture_end_draft, with_group, empty_draft, range_draft, look_draft};
ghost use Rattle.nfa_core.specs.BuilderStates.{fail_draft, union_draft, union_reverse_draft, draft_at, is_sparse};
ghost use Rattle.thompson_nfa.specs.Added.{AddsDraft, Led};
ghost use Rattle.thompson_nfa.specs.Choice.{no_choice};
ghost use Rattle.thompson_nfa.specs.Refusals.{Stays, StaysAt, QuitsGroup};

use look_core::Look;
use nfa_core::{BuildError, Builder, Transition};
use search_core::StateID;
use std::alloc::Global;

/// Adds a state that stands for another, which is named later.
#[tactic(auto, using(crate::proofs::Steps::StepLemmas::added_of, crate::proofs::Steps::StepLemmas::add_refused))]
pub(crate) fn add_empty(builder: &mut Builder) -> Result<StateID, BuildError>
    ensures { MatchResult result (λ id. AddsDraft builder.old builder.new id (empty_draft 0) builder.old.groups)
        (λ e. Stays builder.old builder.new 1 24 e) }
{
    builder.add_empty()
}

/// Adds a state that leads nowhere.
#[tactic(auto, using(crate::proofs::Steps::StepLemmas::added_of, crate::proofs::Steps::StepLemmas::add_refused))]
pub(crate) fn add_fail(builder: &mut Builder) -> Result<StateID, BuildError>
    ensures { MatchResult result (λ id. AddsDraft builder.old builder.new id fail_draft builder.old.groups)
        (λ e. Stays builder.old builder.new 1 24 e) }
{
    builder.add_fail()
}

/// Adds a state that reads one byte from the first to the last.
#[tactic(auto, using(crate::proofs::Steps::StepLemmas::added_of, crate::proofs::Steps::StepLemmas::add_refused))]
pub(crate) fn add_range(builder: &mut Builder, start: u8, end: u8) -> Result<StateID, BuildError>
    requires { start ≤ end }
    ensures { MatchResult result (λ id. AddsDraft builder.old builder.new id (range_draft start end 0) builder.old.groups)
        (λ e. Stays builder.old builder.new 1 24 e) }
{
    let next = StateID::ZERO;
    builder.add_range(Transition { start, end, next })
}

/// Adds a state that leads on where the look holds.
#[tactic(auto, using(crate::proofs::Steps::StepLemmas::added_of, crate::proofs::Steps::StepLemmas::add_refused))]
pub(crate) fn add_look(builder: &mut Builder, look: Look) -> Result<StateID, BuildError>
    ensures { MatchResult result (λ id. AddsDraft builder.old builder.new id (look_draft look 0) builder.old.groups)
        (λ e. Stays builder.old builder.new 1 24 e) }
{
    builder.add_look(StateID::ZERO, look)
}

/// Adds a choice that has no ways yet. The state to which it is led on first comes first if the choice is
/// greedy, and last if it is lazy.
#[tactic(auto, using(crate::proofs::Steps::StepLemmas::added_of, crate::proofs::Steps::StepLemmas::add_refused))]
pub(crate) fn add_choice(
    builder: &mut Builder,
    alloc: Global,
    greedy: bool,
) -> Result<StateID, BuildError>
    ensures { MatchResult result (λ id. AddsDraft builder.old builder.new id (no_choice greedy) builder.old.groups)
        (λ e. Stays builder.old builder.new 1 24 e) }
{
    if greedy {
        builder.add_union(Vec::new(alloc))
    } else {
        builder.add_union_reverse(Vec::new(alloc))
    }
}

/// Lets the state `from` lead to `to`. If `from` is a choice, `to` comes after the states to which it leads
/// already.
#[tactic(auto, using(crate::proofs::Steps::StepLemmas::led_of, crate::proofs::Steps::StepLemmas::lead_refused))]
pub(crate) fn lead(builder: &mut Builder, from: StateID, to: StateID) -> Result<(), BuildError>
    requires from { from < length builder.old.drafts }
    requires to { to < length builder.old.drafts }
    requires kind { is_sparse (draft_at builder.old.drafts from) ≡ false }
    ensures { MatchResult result (λ _. Led builder.old builder.new from to) (λ e. StaysAt builder.old builder.new from e) }
{
    builder.patch(from, to)?;
    Ok(())
}

/// Adds a state that notes where a group starts, and notes the group.
#[tactic(auto, using(crate::proofs::Fragments::CaptureLemmas::start_added, crate::proofs::Fragments::CaptureLemmas::start_refused))]
pub(crate) fn start_group(
    builder: &mut Builder,
    index: u32,
    name: Option<String>,
) -> Result<StateID, BuildError>
    requires { builder.old.is_open ≡ true }
    ensures added { IfOk result (λ id. AddsDraft builder.old builder.new id (capture_start_draft (length builder.old.starts) index 0)
        (with_group builder.old.groups (length builder.old.starts) index (option_map string_bytes name))) }
    ensures refused { IfErr result (λ e. QuitsGroup builder.old builder.new index e) }
{
    let id = builder.add_capture_start(StateID::ZERO, index, name)?;
    Ok(id)
}

/// Adds a state that notes where a group ends.
#[tactic(auto, using(crate::proofs::Fragments::CaptureLemmas::end_added, crate::proofs::Fragments::CaptureLemmas::end_refused))]
pub(crate) fn end_group(builder: &mut Builder, index: u32) -> Result<StateID, BuildError>
    requires { builder.old.is_open ≡ true }
    ensures added { IfOk result (λ id. AddsDraft builder.old builder.new id
        (capture_end_draft (length builder.old.starts) index 0) builder.old.groups) }
    ensures refused { IfErr result (λ e. QuitsGroup builder.old builder.new index e) }
{
    let id = builder.add_capture_end(StateID::ZERO, index)?;
    Ok(id)
}
