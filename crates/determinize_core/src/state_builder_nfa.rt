ghost use Rattle.std.specs.Prelude.{◌≡◌, ℕ, ◌∷◌, [], ◌++◌, IfOk, OnOk, OnErr, ◌≤◌, length};
ghost use Rattle.search_core.specs.Index.{greatest_index};
ghost use Rattle.determinize_core.specs.States.{StateValue, IsState};
ghost use Rattle.determinize_core.specs.StateBytes.{encoded, IsEncoded, decoded, zigzag};

use crate::positions::Positions;
use crate::state::State;
use crate::state_builder::StateBuilderEmpty;
use crate::state_bytes::{number_at, push_groups, write_number};
use look_core::LookSet;
use search_core::StateID;
use std::alloc::{AllocError, Global};
use std::marker::Model;

/// A powerset state while its states of the NFA are added, as `StateBuilderNFA` of `regex_automata`. A contract sees it
/// as the state that it is so far.
#[derive(Drop)]
pub struct StateBuilderNFA {
    bytes: Vec<u8>,
    // The state that was added last.
    previous: StateID,
    // Kept for the next state.
    positions: Positions,
}

impl Model for StateBuilderNFA {
    ghost use Rattle.std.specs.Prelude.{◌≡◌};
    ghost use Rattle.determinize_core.specs.States.{StateValue, last_id};
    ghost use Rattle.determinize_core.specs.StateBytes.{decoded, IsEncoded};

    ghost Value = { StateValue };

    ghost view = { λ b. decoded b.bytes.items };

    ghost invariant = { λ b. IsEncoded b.bytes.items × (b.previous ≡ last_id 0 (decoded b.bytes.items).ids) };
}

impl StateBuilderNFA {
    /// A builder of the state that bytes stand for, which has no states of the NFA.
    pub(crate) fn from_bytes(bytes: Vec<u8>, positions: Positions) -> StateBuilderNFA
        requires encoded { IsEncoded bytes.items }
        requires empty { (decoded bytes.items).ids ≡ [] }
        ensures { result ≡ decoded bytes.items }
    {
        StateBuilderNFA {
            bytes,
            previous: StateID::ZERO,
            positions,
        }
    }

    /// The bytes of the state that it is so far.
    pub fn as_bytes(&self) -> &[u8]
        ensures value { result.now ≡ encoded self.now }
        ensures state { IsState self.now }
    {
        self.bytes.as_slice()
    }

    /// The state that it is so far.
    pub fn to_state(&self, alloc: Global) -> Result<State, AllocError>
        ensures { IfOk result (λ state. state ≡ self.now) }
    {
        let state = State::from_bytes(Vec::from_slice(alloc, self.as_bytes())?)?;
        Ok(state)
    }

    /// Drops what was built, and keeps the memory: the next state has room for at least as many bytes as this one took. Like every empty
    /// builder, it begins with the dead state.
    pub fn clear(self) -> StateBuilderEmpty
        ensures { length (encoded self) ≤ result }
    {
        StateBuilderEmpty::from_bytes(self.bytes, self.positions)
    }

    /// The looks that are known to hold at the offset.
    pub fn look_have(&self) -> LookSet
        ensures { result ≡ self.now.look_have }
    {
        LookSet::from_bits(number_at(self.as_bytes(), 1))
    }

    /// The looks of the states.
    pub fn look_need(&self) -> LookSet
        ensures { result ≡ self.now.look_need }
    {
        LookSet::from_bits(number_at(self.as_bytes(), 5))
    }

    /// Changes the looks that are known to hold.
    pub fn set_look_have<F: FnOnce(LookSet) -> LookSet>(&mut self, set: F)
        requires { F.IsAlwaysCallable set }
        ensures { (looks : ℕ) × F.post set self.old.look_have looks × (self.new ≡ record self.old { look_have = looks }) }
    {
        let looks = set(self.look_have());
        self.write_have(looks);
    }

    /// Changes the looks of the states.
    pub fn set_look_need<F: FnOnce(LookSet) -> LookSet>(&mut self, set: F)
        requires { F.IsAlwaysCallable set }
        ensures { (looks : ℕ) × F.post set self.old.look_need looks × (self.new ≡ record self.old { look_need = looks }) }
    {
        let looks = set(self.look_need());
        self.write_need(looks);
    }

    /// Writes the looks that are known to hold.
    pub(crate) fn write_have(&mut self, looks: LookSet)
        ensures { self.new ≡ record self.old { look_have = looks } }
    {
        write_number(&mut self.bytes, 1, looks.bits());
    }

    /// Writes the looks of the states.
    pub(crate) fn write_need(&mut self, looks: LookSet)
        ensures { self.new ≡ record self.old { look_need = looks } }
    {
        write_number(&mut self.bytes, 5, looks.bits());
    }

    /// Adds a state of the NFA after the others. If an allocation fails, everything stays as it was.
    #[inline(always)]
    pub fn add_nfa_state_id(&mut self, id: StateID) -> Result<(), AllocError>
        ensures ok { OnOk result (self.new ≡ record self.old { ids = self.old.ids ++ id ∷ [] }) }
        ensures err { OnErr result (self.new ≡ self.old) }
    {
        let way = zigzag(self.previous.as_u32(), id.as_u32());
        push_groups(&mut self.bytes, way)?;
        self.previous = id;
        Ok(())
    }
}

/// The difference from one state to the next: even numbers for steps up, odd ones for steps down.
fn zigzag(from: u32, to: u32) -> u32
    requires from_is_small { from ≤ greatest_index }
    requires to_is_small { to ≤ greatest_index }
    ensures { result ≡ zigzag from to }
{
    if from <= to {
        2 * (to - from)
    } else {
        2 * (from - to) - 1
    }
}
