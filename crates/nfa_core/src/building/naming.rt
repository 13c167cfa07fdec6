ghost use Rattle.std.specs.Prelude.{◌≡◌, ℕ, ◌+◌, ◌*◌, ◌<◌, ◌≤◌, true, length, map, get_or, IfOk, None, unwrap_or};
ghost use Rattle.search_core.specs.Index.{greatest_index};
ghost use Rattle.nfa_core.specs.Drafts.{draft_of};
ghost use Rattle.nfa_core.specs.Pasts.{HasPasts, IsNaming, IsRanking, name_in};

use crate::building::draft::Draft;
use crate::building::pasts::{Pasts, settle_all};
use crate::steps::Steps;
use search_core::StateID;
use std::alloc::{AllocError, Global};
use std::sync::ledger::Ledger;

/// For each state how many before it are kept.
fn rank_all(alloc: Global, drafts: &[Draft]) -> Result<Vec<StateID>, AllocError>
    requires { length drafts.now ≤ greatest_index + 1 }
    ensures { IfOk result (λ ranks. IsRanking (map draft_of drafts.now) ranks.items) }
{
    let mut ranks = Vec::new(alloc);
    let mut count = 0;
    for draft in drafts {
        ranks.push(StateID::must(count))?;
        count += draft.kept_len();
    }
    Ok(ranks)
}

/// For each state the rank of the one past it.
fn rank_pasts(alloc: Global, pasts: &Pasts, ranks: &[StateID]) -> Result<Vec<StateID>, AllocError>
    requires numbered { length ranks.now ≤ greatest_index + 1 }
    requires len { length pasts.now.table.items ≡ length ranks.now }
    requires inside { (q : ℕ) → q < length ranks.now → unwrap_or (get_or pasts.now.table.items q None) q < length ranks.now }
    ensures len { IfOk result (λ names. length names.items ≡ length ranks.now) }
    ensures right { IfOk result (λ names. (q : ℕ) → q < length ranks.now →
        name_in names.items q ≡ name_in ranks.now (unwrap_or (get_or pasts.now.table.items q None) q)) }
{
    let mut names = Vec::new(alloc);
    for index in 0..ranks.len() {
        let past = pasts.known(StateID::must(index));
        names.push(ranks[past.as_usize()])?;
    }
    Ok(names)
}

/// The names that the states get in the automaton. Each way past a state that stands for another is followed at most twice.
pub(crate) fn name_all<L: Ledger>(
    alloc: Global,
    drafts: &[Draft],
    steps: &mut Steps<L>,
) -> Result<Vec<StateID>, AllocError>
    requires reached { HasPasts (map draft_of drafts.now) }
    requires numbered { length drafts.now ≤ greatest_index + 1 }
    ensures names { IfOk result (λ names. IsNaming (map draft_of drafts.now) names.items) }
    ensures moves { steps.new ≤ steps.old + 2 * length drafts.now }
{
    let pasts = settle_all(alloc, drafts, steps)?;
    let ranks = rank_all(alloc, drafts)?;
    let names = rank_pasts(alloc, &pasts, &ranks)?;
    Ok(names)
}
