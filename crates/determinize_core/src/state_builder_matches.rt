ghost use Rattle.std.specs.Prelude.{◌≡◌, ℕ, true, false, [], ◌∷◌, ◌++◌, length, IsOk, OnOk, OnErr};
ghost use Rattle.std.specs.Bool.{nat_eq};
ghost use Rattle.std.specs.List.{list_any};
ghost use Rattle.determinize_core.specs.States.{StateValue};
ghost use Rattle.determinize_core.specs.StateBytes.{IsUnfinished, decoded_unfinished, is_listed};
ghost use Rattle.determinize_core.specs.Positions.{stands_at};
ghost use Rattle.determinize_core.specs.Added.{with_match};

use crate::positions::Positions;
use crate::state_builder_nfa::StateBuilderNFA;
use crate::state_bytes::{
    FROM_WORD, HALF_CRLF, LISTED, MATCHES, has_flag, number_at, push_behind_eight,
    push_behind_four, push_number, set_flag, write_number,
};
use look_core::LookSet;
use search_core::PatternID;
use std::alloc::AllocError;
use std::marker::Model;

/// A powerset state while what matches in it is added, as `StateBuilderMatches` of `regex_automata`. A contract sees it
/// as the state that it is so far, which has no states of the NFA.
#[derive(Drop)]
pub struct StateBuilderMatches {
    bytes: Vec<u8>,
    // The position of each listed pattern except the first one.
    positions: Positions,
}

impl Model for StateBuilderMatches {
    ghost use Rattle.determinize_core.specs.States.{StateValue};
    ghost use Rattle.determinize_core.specs.StateBytes.{decoded_unfinished, IsUnfinished};
    ghost use Rattle.determinize_core.specs.Positions.{ArePositions};

    ghost Value = { StateValue };

    ghost view = { λ b. decoded_unfinished b.bytes.items };

    ghost invariant = { λ b. IsUnfinished b.bytes.items × ArePositions b.positions.noted.items (decoded_unfinished b.bytes.items).matches };
}

impl StateBuilderMatches {
    /// A builder of the state that bytes stand for, in which no pattern matches.
    pub(crate) fn from_bytes(bytes: Vec<u8>, positions: Positions) -> StateBuilderMatches
        requires form { IsUnfinished bytes.items }
        requires none { (decoded_unfinished bytes.items).matches ≡ [] }
        ensures { result ≡ decoded_unfinished bytes.items }
    {
        StateBuilderMatches { bytes, positions }
    }

    /// Continues with the states of the NFA.
    pub fn into_nfa(self) -> StateBuilderNFA
        ensures { result ≡ self }
    {
        let mut bytes = self.bytes;
        if has_flag(&bytes, LISTED) {
            let count = (bytes.len() - 13) / 4;
            write_number(&mut bytes, 9, count as u32);
            return StateBuilderNFA::from_bytes(bytes, self.positions);
        }
        StateBuilderNFA::from_bytes(bytes, self.positions)
    }

    /// Records that the byte before the offset is a word byte.
    pub fn set_is_from_word(&mut self)
        ensures { self.new ≡ record self.old { is_from_word = true } }
    {
        set_flag(&mut self.bytes, FROM_WORD);
    }

    /// Records that the offset is inside what may be a CRLF.
    pub fn set_is_half_crlf(&mut self)
        ensures { self.new ≡ record self.old { is_half_crlf = true } }
    {
        set_flag(&mut self.bytes, HALF_CRLF);
    }

    /// The looks that are known to hold at the offset.
    pub fn look_have(&self) -> LookSet
        ensures { result ≡ self.now.look_have }
    {
        LookSet::from_bits(number_at(&self.bytes, 1))
    }

    /// Changes the looks that are known to hold.
    pub fn set_look_have<F: FnOnce(LookSet) -> LookSet>(&mut self, set: F)
        requires { F.IsAlwaysCallable set }
        ensures { (looks : ℕ) × F.post set self.old.look_have looks × (self.new ≡ record self.old { look_have = looks }) }
    {
        let looks = set(self.look_have());
        self.write_have(looks);
    }

    /// Writes the looks that are known to hold.
    pub(crate) fn write_have(&mut self, looks: LookSet)
        ensures { self.new ≡ record self.old { look_have = looks } }
    {
        write_number(&mut self.bytes, 1, looks.bits());
    }
}

/// The patterns that match.
impl StateBuilderMatches {
    /// Whether the pattern is one of those that match so far.
    pub fn has_match_pattern_id(&self, pid: PatternID) -> bool
        ensures { result ≡ list_any (nat_eq pid) self.now.matches }
    {
        if has_flag(&self.bytes, LISTED) {
            return self.lists(pid);
        }
        has_flag(&self.bytes, MATCHES) && pid == PatternID::ZERO
    }

    /// Whether the pattern is one of those that are listed: it is the first one, or is at the position that was recorded.
    fn lists(&self, pid: PatternID) -> bool
        requires { is_listed self.now.matches ≡ true }
        ensures { result ≡ list_any (nat_eq pid) self.now.matches }
    {
        self.lists_at(0, pid) || self.lists_at(self.positions.position(pid), pid)
    }

    /// Whether the pattern is the one at a position of the list.
    fn lists_at(&self, position: u32, pid: PatternID) -> bool
        requires { is_listed self.now.matches ≡ true }
        ensures { result ≡ stands_at self.now.matches position pid }
    {
        if position >= self.count() {
            return false;
        }
        number_at(&self.bytes, 13 + 4 * position as usize) == pid.as_u32()
    }

    /// How many patterns match so far.
    fn count(&self) -> u32
        ensures { result ≡ length self.now.matches }
    {
        if has_flag(&self.bytes, LISTED) {
            return ((self.bytes.len() - 13) / 4) as u32;
        }
        if has_flag(&self.bytes, MATCHES) { 1 } else { 0 }
    }

    /// Adds a pattern that matches, after the others. If an allocation fails, everything stays as it was.
    ///
    /// A second pattern and each later one take four bytes for each number up to their own. They take these once for all states that are
    /// built one by one. Pattern 0 as the first pattern takes none.
    pub fn add_match_pattern_id(&mut self, pid: PatternID) -> Result<(), AllocError>
        requires { list_any (nat_eq pid) self.old.matches ≡ false }
        ensures ok { OnOk result (self.new ≡ record self.old { matches = self.old.matches ++ pid ∷ [] }) }
        ensures err { OnErr result (self.new ≡ self.old) }
        ensures first { self.old.matches ≡ [] → pid ≡ 0 → IsOk result }
    {
        let count = self.count();
        self.positions.note(pid, count)?;
        add_pattern(&mut self.bytes, pid)?;
        Ok(())
    }
}

/// Adds a pattern to the bytes of a state, after the others. If an allocation fails, the bytes stay as they were.
#[tactic(auto, using(crate::proofs::AddLemmas::not_listed, crate::proofs::AddLemmas::not_matching))]
fn add_pattern(bytes: &mut Vec<u8>, pid: PatternID) -> Result<(), AllocError>
    requires form { IsUnfinished bytes.old.items }
    requires absent { list_any (nat_eq pid) (decoded_unfinished bytes.old.items).matches ≡ false }
    ensures ok { OnOk result (IsUnfinished bytes.new.items ×
        (decoded_unfinished bytes.new.items ≡ with_match (decoded_unfinished bytes.old.items) pid)) }
    ensures err { OnErr result (bytes.new.items ≡ bytes.old.items) }
    ensures first { (decoded_unfinished bytes.old.items).matches ≡ [] → pid ≡ 0 → IsOk result }
{
    if has_flag(bytes, LISTED) {
        push_number(bytes, pid.as_u32())?;
        return Ok(());
    }
    if has_flag(bytes, MATCHES) {
        push_behind_eight(bytes, pid.as_u32())?;
        set_flag(bytes, LISTED);
        return Ok(());
    }
    if pid == PatternID::ZERO {
        set_flag(bytes, MATCHES);
        return Ok(());
    }
    push_behind_four(bytes, pid.as_u32())?;
    set_flag(bytes, MATCHES | LISTED);
    Ok(())
}
