ghost use Rattle.std.specs.Prelude.{◌≡◌, ℕ, ◌+◌, ◌*◌, ◌<◌, ◌≤◌, true, false, length, map, set};
ghost use Rattle.std.specs.Prelude.{get_or, IfOk, Some, None, MatchOption, unwrap_or};
ghost use Rattle.search_core.specs.Index.{greatest_index};
ghost use Rattle.nfa_core.specs.BuilderStates.{draft_at};
ghost use Rattle.nfa_core.specs.Drafts.{draft_of};
ghost use Rattle.nfa_core.specs.Renaming.{stands_for, past};
ghost use Rattle.nfa_core.specs.Pasts.{HasPasts, IsPastTable, IsOpen, EndsWay, is_settled, settled_count};

use crate::building::draft::Draft;
use crate::steps::Steps;
use search_core::StateID;
use std::alloc::{AllocError, Global};
use std::sync::ledger::Ledger;

/// For each state of a builder the first one past it that stands for itself, as far as that is known.
#[derive(Drop)]
pub(crate) struct Pasts {
    pub(crate) table: Vec<Option<StateID>>,
}

/// A way past states that stand for others.
#[derive(Clone, Copy)]
struct Way {
    /// The state that stands for itself.
    end: StateID,
    /// How many states without an entry in the table were passed.
    len: usize,
}

/// The state for which this one stands. Going there is a move, and is counted.
#[tactic(auto, using(crate::proofs::BuilderLemmas::view_at))]
fn next_of<L: Ledger>(drafts: &[Draft], q: StateID, steps: &mut Steps<L>) -> Option<StateID>
    requires { q < length drafts.now }
    ensures value { result ≡ stands_for (draft_at (map draft_of drafts.now) q) }
    ensures moves { MatchOption result (steps.new ≡ steps.old) (λ _. steps.new ≡ steps.old + 1) }
{
    let next = drafts[q.as_usize()].stands_for();
    if next.is_some() {
        steps.tick();
    }
    next
}

impl Pasts {
    /// A table without entries.
    fn new(alloc: Global, len: usize) -> Result<Pasts, AllocError>
        ensures len { IfOk result (λ p. length p.table.items ≡ len) }
        ensures none { IfOk result (λ p. (q : ℕ) → is_settled p.table.items q ≡ false) }
    {
        let mut table = Vec::new(alloc);
        table.resize(len, None)?;
        Ok(Pasts { table })
    }

    /// Records what a state leads past to.
    fn settle(&mut self, q: StateID, end: StateID)
        requires { q < length self.old.table.items }
        ensures { self.new.table.items ≡ set self.old.table.items q (Some end) }
    {
        self.table[q.as_usize()] = Some(end);
    }

    /// The state for which this one stands, unless the table has an entry for this one. Going there is counted.
    fn next_open<L: Ledger>(
        &self,
        drafts: &[Draft],
        at: StateID,
        steps: &mut Steps<L>,
    ) -> Option<StateID>
        requires table { at < length self.now.table.items }
        requires inside { at < length drafts.now }
        ensures value { MatchOption result (EndsWay (map draft_of drafts.now) self.now.table.items at)
            (λ next. (is_settled self.now.table.items at ≡ false) × (stands_for (draft_at (map draft_of drafts.now) at) ≡ Some next)) }
        ensures moves { MatchOption result (steps.new ≡ steps.old) (λ _. steps.new ≡ steps.old + 1) }
    {
        if self.table[at.as_usize()].is_some() {
            return None;
        }
        next_of(drafts, at, steps)
    }

    /// The table's entry for the state, or the state itself if there is none.
    pub(crate) fn known(&self, at: StateID) -> StateID
        requires { at < length self.now.table.items }
        ensures { result ≡ unwrap_or (get_or self.now.table.items at None) at }
    {
        self.table[at.as_usize()].unwrap_or(at)
    }

    /// Follows the states from `q` on to one that stands for itself or has an entry in the table.
    #[tactic(auto, using(crate::proofs::PastLemmas::known_end))]
    fn find_end<L: Ledger>(&self, drafts: &[Draft], q: StateID, steps: &mut Steps<L>) -> Way
        requires reached { HasPasts (map draft_of drafts.now) }
        requires numbered { length drafts.now ≤ greatest_index + 1 }
        requires table { IsPastTable (map draft_of drafts.now) self.now.table.items }
        requires inside { q < length drafts.now }
        ensures end { result.end ≡ past (map draft_of drafts.now) q }
        ensures opened { IsOpen (map draft_of drafts.now) self.now.table.items result.len q }
        ensures moves { steps.new ≡ steps.old + result.len }
    {
        let mut at = q;
        let mut len = 0;
        while let Some(next) = self.next_open(drafts, at, steps) {
            at = next;
            len += 1;
        }
        Way {
            end: self.known(at),
            len,
        }
    }

    /// Records where a way from `q` ends, for all states that it passed.
    fn settle_path<L: Ledger>(
        &mut self,
        drafts: &[Draft],
        q: StateID,
        end: StateID,
        len: usize,
        steps: &mut Steps<L>,
    )
        requires reached { HasPasts (map draft_of drafts.now) }
        requires table { IsPastTable (map draft_of drafts.now) self.old.table.items }
        requires inside { q < length drafts.now }
        requires end { end ≡ past (map draft_of drafts.now) q }
        requires opened { IsOpen (map draft_of drafts.now) self.old.table.items len q }
        ensures table { IsPastTable (map draft_of drafts.now) self.new.table.items }
        ensures kept { (r : ℕ) → is_settled self.old.table.items r ≡ true → is_settled self.new.table.items r ≡ true }
        ensures count { settled_count self.new.table.items ≡ settled_count self.old.table.items + len }
        ensures moves { steps.new ≡ steps.old + len }
    {
        let mut at = q;
        for passed in 0..len {
            let Some(next) = next_of(drafts, at, steps) else {
                return;
            };
            self.settle(at, end);
            at = next;
        }
    }

    /// Records what `q` leads past to, and with it all states that are met before one with an entry in the table.
    fn settle_from<L: Ledger>(&mut self, drafts: &[Draft], q: StateID, steps: &mut Steps<L>)
        requires reached { HasPasts (map draft_of drafts.now) }
        requires numbered { length drafts.now ≤ greatest_index + 1 }
        requires table { IsPastTable (map draft_of drafts.now) self.old.table.items }
        requires inside { q < length drafts.now }
        ensures table { IsPastTable (map draft_of drafts.now) self.new.table.items }
        ensures there { is_settled self.new.table.items q ≡ true }
        ensures kept { (r : ℕ) → is_settled self.old.table.items r ≡ true → is_settled self.new.table.items r ≡ true }
        ensures moves { steps.new + 2 * settled_count self.old.table.items ≤ steps.old + 2 * settled_count self.new.table.items }
    {
        let way = self.find_end(drafts, q, steps);
        self.settle_path(drafts, q, way.end, way.len, steps);
        self.settle(q, way.end);
    }
}

/// Finds what all states lead past to. Each way past a state that stands for another is followed at most twice.
pub(crate) fn settle_all<L: Ledger>(
    alloc: Global,
    drafts: &[Draft],
    steps: &mut Steps<L>,
) -> Result<Pasts, AllocError>
    requires reached { HasPasts (map draft_of drafts.now) }
    requires numbered { length drafts.now ≤ greatest_index + 1 }
    ensures table { IfOk result (λ p. IsPastTable (map draft_of drafts.now) p.table.items) }
    ensures there { IfOk result (λ p. (q : ℕ) → q < length drafts.now → is_settled p.table.items q ≡ true) }
    ensures moves { steps.new ≤ steps.old + 2 * length drafts.now }
{
    let mut pasts = Pasts::new(alloc, drafts.len())?;
    for index in 0..drafts.len() {
        pasts.settle_from(drafts, StateID::must(index), steps);
    }
    Ok(pasts)
}
