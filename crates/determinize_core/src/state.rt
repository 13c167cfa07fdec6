ghost use Rattle.std.specs.Prelude.{◌≡◌, ◌<◌, ◌≤◌, ◌∷◌, ◌++◌, ℕ, List, length, slice_index, IfOk, IsOk, MatchOption, true, [], Some, refl};
ghost use Rattle.look_core.specs.LookSets.{IsLookSet};
ghost use Rattle.determinize_core.specs.States.{dead, IsState};
ghost use Rattle.determinize_core.specs.StateBytes.{encoded, decoded, IsEncoded, is_match, has_same_bytes};
ghost use Rattle.std.proofs.Common.{ap};
ghost use Rattle.std.proofs.lemmas.Slice.Eq.{bytes_eq-Decides};
ghost use Rattle.std.specs.Ordering.{nat_cmp};
ghost use Rattle.std.specs.Cmp.{on_equiv, on_per, on_po, on_total, partial_equiv_from_equiv};
ghost use Rattle.std.specs.Cmp.Lexicographic.{nat_list_cmp_total, nat_list_eq_equiv, slice_cmp, texts_po, texts_ties};
ghost use Rattle.std.specs.Hash as fed;

use crate::state_bytes::{FROM_WORD, HALF_CRLF, LISTED, MATCHES, has_flag, ids_start, number_at};
use crate::state_ids::StateIds;
use look_core::LookSet;
use search_core::PatternID;
use std::alloc::{AllocError, Global};
use std::cmp::Ordering;
use std::hash::{Hash, Hasher};
use std::marker::Model;
use std::rc::RcSlice;

/// A powerset state, as `regex_automata::util::determinize::State`: the states of the NFA that a search is in, in order of preference, with
/// what is known of the offset. It is kept as bytes, which its clones share. A contract sees it as these parts.
#[derive(Drop)]
pub struct State {
    bytes: RcSlice<u8>,
}

impl Model for State {
    ghost use Rattle.std.specs.Rc.{rc_slice_items};
    ghost use Rattle.determinize_core.specs.States.{StateValue};
    ghost use Rattle.determinize_core.specs.StateBytes.{decoded, IsEncoded};

    ghost Value = { StateValue };

    ghost view = { λ s. decoded (rc_slice_items s.bytes) };

    ghost invariant = { λ s. IsEncoded (rc_slice_items s.bytes) };
}

impl State {
    /// The state of no states, from which no search continues.
    pub fn dead(alloc: Global) -> Result<State, AllocError>
        ensures { IfOk result (λ state. state ≡ dead) }
    {
        State::from_bytes(vec![in alloc; 0; 9]?)
    }

    /// The state that bytes stand for.
    pub(crate) fn from_bytes(bytes: Vec<u8>) -> Result<State, AllocError>
        requires { IsEncoded bytes.items }
        ensures { IfOk result (λ state. state ≡ decoded bytes.items) }
    {
        Ok(State {
            bytes: RcSlice::from_vec(bytes)?,
        })
    }

    /// The bytes, by which states are distinguished.
    pub fn as_bytes(&self) -> &[u8]
        ensures value { result.now ≡ encoded self.now }
        ensures state { IsState self.now }
    {
        self.bytes.as_slice()
    }

    /// How many bytes the state takes in memory in addition to its own size.
    pub fn memory_usage(&self) -> usize
        ensures { result ≡ length (encoded self.now) }
    {
        self.as_bytes().len()
    }

    /// Whether a pattern matches.
    pub fn is_match(&self) -> bool
        ensures { result ≡ is_match self.now.matches }
    {
        has_flag(self.as_bytes(), MATCHES)
    }

    /// Whether the byte before the offset is a word byte.
    pub fn is_from_word(&self) -> bool
        ensures { result ≡ self.now.is_from_word }
    {
        has_flag(self.as_bytes(), FROM_WORD)
    }

    /// Whether the offset is inside what may be a CRLF.
    pub fn is_half_crlf(&self) -> bool
        ensures { result ≡ self.now.is_half_crlf }
    {
        has_flag(self.as_bytes(), HALF_CRLF)
    }

    /// The looks that are known to hold at the offset.
    pub fn look_have(&self) -> LookSet
        ensures { result ≡ self.now.look_have }
    {
        LookSet::from_bits(number_at(self.as_bytes(), 1))
    }

    /// The looks of the states.
    pub fn look_need(&self) -> LookSet
        ensures { result ≡ self.now.look_need }
    {
        LookSet::from_bits(number_at(self.as_bytes(), 5))
    }
}

impl Clone for State {
    ghost is_clone = { λ state copy. copy ≡ state };

    fn clone(&self) -> Result<State, AllocError> {
        Ok(State {
            bytes: self.bytes.clone()?,
        })
    }
}

/// The patterns that match and the states.
impl State {
    /// How many patterns match.
    pub fn match_len(&self) -> usize
        ensures { result ≡ length self.now.matches }
    {
        let bytes = self.as_bytes();
        if has_flag(bytes, LISTED) {
            return number_at(bytes, 9) as usize;
        }
        if has_flag(bytes, MATCHES) { 1 } else { 0 }
    }

    /// The pattern at an index among those that match, in order of preference.
    pub fn match_pattern(&self, index: usize) -> PatternID
        requires { index < length self.now.matches }
        ensures { result ≡ slice_index self.now.matches index }
    {
        let bytes = self.as_bytes();
        if has_flag(bytes, LISTED) {
            return PatternID::must(number_at(bytes, 13 + 4 * index) as usize);
        }
        PatternID::ZERO
    }

    /// The patterns that match, in order of preference; `None` if there is none, which takes no memory.
    pub fn match_pattern_ids(&self, alloc: Global) -> Result<Option<Vec<PatternID>>, AllocError>
        ensures value { IfOk result (λ ids. MatchOption ids (self.now.matches ≡ [])
            (λ ps. (ps.items ≡ self.now.matches) × (is_match self.now.matches ≡ true))) }
        ensures none { self.now.matches ≡ [] → IsOk result }
    {
        if !self.is_match() {
            return Ok(None);
        }
        Ok(Some(self.patterns(alloc)?))
    }

    /// The patterns that match.
    fn patterns(&self, alloc: Global) -> Result<Vec<PatternID>, AllocError>
        ensures { IfOk result (λ ps. ps.items ≡ self.now.matches) }
    {
        let mut ids = Vec::new(alloc);
        for index in 0..self.match_len() {
            ids.push(self.match_pattern(index))?;
        }
        Ok(ids)
    }

    /// The states of the NFA, in order of preference.
    pub fn iter_nfa_state_ids(&self) -> StateIds<'_>
        ensures { result ≡ self.now.ids }
    {
        let bytes = self.as_bytes();
        let start = ids_start(bytes);
        StateIds::new(&bytes[start..])
    }
}

// ---- States are equal, ordered and hashed by their bytes.

impl PartialEq for State {
    ghost eq = { has_same_bytes };

    ghost laws = { on_per encoded (partial_equiv_from_equiv nat_list_eq_equiv) };

    fn eq(&self, other: &State) -> bool {
        self.as_bytes() == other.as_bytes()
    }
}

impl Eq for State {
    ghost laws = { on_equiv encoded nat_list_eq_equiv };
}

impl PartialOrd for State {
    ghost partial_cmp = { λ a b. Some (slice_cmp nat_cmp (encoded a) (encoded b)) };

    ghost laws = { on_po encoded texts_po };

    fn partial_cmp(&self, other: &State) -> Option<Ordering> {
        Some(self.cmp(other))
    }
}

impl Ord for State {
    ghost cmp = { λ a b. slice_cmp nat_cmp (encoded a) (encoded b) };

    ghost total = { on_total encoded nat_list_cmp_total };

    ghost matches_partial_cmp = { λ a b. refl };

    ghost matches_eq = { λ a b. texts_ties (encoded a) (encoded b) };

    fn cmp(&self, other: &State) -> Ordering {
        self.as_bytes().cmp(other.as_bytes())
    }
}

impl Hash for State {
    ghost hash_input = { λ s. fed.usize (length (encoded s)) ++ encoded s ∷ [] };

    ghost respects_eq = { λ x y h. ap (λ (bytes : List ℕ). fed.usize (length bytes) ++ bytes ∷ [])
        ((bytes_eq-Decides (encoded x) (encoded y)).0 h) };

    // All bytes in one write, as the Rust crate does it. A hasher takes sixteen bytes of one write at once, but only one byte of single
    // writes.
    fn hash<H: Hasher>(&self, state: &mut H) {
        let bytes = self.as_bytes();
        state.write_usize(bytes.len());
        state.write(bytes);
    }
}
