//! The numbers of states that a depth-first search has still to visit: a list that ends with the one on top.
//! ```rust
//! pub fn push_both(states: &mut Vec<StateID>, a: StateID, b: StateID) -> Result<(), AllocError> {
//!     stack::push(states, a)?;
//!     stack::push(states, b)
//! }
//! ```
ghost use Rattle.std.specs.Prelude.{◌≡◌, ℕ, ◌+◌, ◌<◌, ◌≤◌, ◌∷◌, ◌++◌, [], length, reverse, drop, All, OnOk, OnErr, IfSome, MatchOption};
ghost use Rattle.std.specs.Bool.{nat_eq};
ghost use Rattle.std.specs.List.{IsDistinct};
ghost use Rattle.nfa_core.specs.Reached.{AreBelow, Meets};

use crate::name_sets::name_set::NameSet;
use crate::steps::Steps;
use search_core::StateID;
use std::alloc::AllocError;
use std::sync::ledger::Ledger;

/// Puts a number on top. If an allocation fails, the stack stays as it was.
#[tactic(auto, using(crate::proofs::StackedLemmas::reverse_pushed))]
pub fn push(stack: &mut Vec<StateID>, id: StateID) -> Result<(), AllocError>
    ensures ok { OnOk result (reverse stack.new.items ≡ id ∷ reverse stack.old.items) }
    ensures err { OnErr result (stack.new.items ≡ stack.old.items) }
{
    stack.push(id)?;
    Ok(())
}

/// Pops the number on top.
#[tactic(auto, using(crate::proofs::StackedLemmas::reverse_pushed))]
pub fn pop(stack: &mut Vec<StateID>) -> Option<StateID>
    ensures top { MatchOption result ((reverse stack.old.items ≡ []) × (reverse stack.new.items ≡ []))
        (λ id. reverse stack.old.items ≡ id ∷ reverse stack.new.items) }
    ensures len { MatchOption result (length stack.old.items ≡ length stack.new.items)
        (λ id. length stack.old.items ≡ length stack.new.items + 1) }
{
    stack.pop()
}

/// Puts numbers on top, the first one at the very top. If an allocation fails, the stack has only the last of them on top, fewer than all.
/// So the call can't fail for an empty list.
pub fn push_all(stack: &mut Vec<StateID>, ids: &[StateID]) -> Result<(), AllocError>
    ensures ok { OnOk result (reverse stack.new.items ≡ ids.now ++ reverse stack.old.items) }
    ensures err { OnErr result ((k : ℕ) × (0 < k) × (reverse stack.new.items ≡ drop k ids.now ++ reverse stack.old.items)) }
    ensures fewer { OnErr result (length (reverse stack.new.items) < length ids.now + length (reverse stack.old.items)) }
{
    for i in (0..ids.len()).rev() {
        push(stack, ids[i])?;
    }
    Ok(())
}

/// Pops numbers until one isn't in the set, and inserts that one into the set.
pub fn next_fresh<S: NameSet, L: Ledger>(
    stack: &mut Vec<StateID>,
    set: &mut S,
    steps: &mut Steps<L>,
) -> Option<StateID>
    requires below { AreBelow (S.bound set.old) (reverse stack.old.items) }
    requires fits { length (S.names set.old) ≤ S.bound set.old }
    ensures bound { S.bound set.new ≡ S.bound set.old }
    ensures below { AreBelow (S.bound set.old) (reverse stack.new.items) }
    ensures inside { IfSome result (λ q. q < S.bound set.old) }
    ensures fits { length (S.names set.new) ≤ S.bound set.new }
    ensures once { IsDistinct nat_eq (S.names set.new) }
    ensures all_below { All (λ q. q < S.bound set.new) (S.names set.new) }
    ensures meets { Meets (reverse stack.old.items) (S.names set.old) (reverse stack.new.items) (S.names set.new) result }
    ensures cost { steps.new + length (reverse stack.new.items) ≡ steps.old + length (reverse stack.old.items) }
{
    while let Some(id) = pop(stack) {
        if set.insert(id, steps) {
            // A set has each of its numbers once, and below its bound.
            let _ = set.len();
            return Some(id);
        }
    }
    let _ = set.len();
    None
}
