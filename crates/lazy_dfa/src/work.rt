ghost use Rattle.std.specs.Prelude.{◌≡◌, ◌<◌};

use nfa_core::Steps;
use std::sync::ledger::{Blank, Ledger};

/// The amount of work that was done: how many powerset states were built, and how many NFA state IDs were put into sets for them.
/// It takes no bytes, so the built program has no trace of it. Contracts use it to state what a call costs.
#[derive(Drop)]
pub struct Work<L: Ledger, M: Ledger> {
    /// The number of states that were built: one for each step or start state that wasn't known.
    pub determinized: Steps<L>,
    /// The number of NFA state IDs that were put into a set, or tried to be.
    pub inserted: Steps<M>,
}

impl<L: Ledger, M: Ledger> Work<L, M> {
    /// Returns a count of nothing. A caller that counts nothing lets a function that is generic in `L` and `M` create it. It
    /// calls that function at [`Brand`](std::marker::Brand) with `Blank::new(1)` twice.
    pub fn new(determinized: Blank, inserted: Blank) -> Work<L, M>
        requires name1 { determinized.name ≡ L.name }
        requires parts1 { determinized.parts ≡ L.parts }
        requires some1 { 0 < determinized.parts }
        requires name2 { inserted.name ≡ M.name }
        requires parts2 { inserted.parts ≡ M.parts }
        requires some2 { 0 < inserted.parts }
        ensures determinized { result.determinized ≡ 0 }
        ensures inserted { result.inserted ≡ 0 }
    {
        Work {
            determinized: Steps::new(determinized),
            inserted: Steps::new(inserted),
        }
    }
}
