ghost use Rattle.std.specs.Prelude.{◌≡◌, map};
ghost use Rattle.std.specs.Option.{option_and_then};
ghost use Rattle.search_core.specs.Text.{byte_at};
ghost use Rattle.search_core.specs.Units.{unit_byte};
ghost use Rattle.nfa_core.specs.Transitions.{range_of, sparse_next};

use crate::transition::Transition;
use search_core::{StateID, Unit};

/// Ranges of bytes, each with the state to which it leads. The builder makes them ascending, with no byte in two of them. In a list whose
/// ranges overlap, the first range that has a byte decides where it leads. As `regex_automata::nfa::thompson::SparseTransitions`.
#[derive(Clone, PartialEq, Eq, Debug, Drop)]
pub struct SparseTransitions {
    pub transitions: Vec<Transition>,
}

impl SparseTransitions {
    /// Where the byte at the offset `at` of the haystack leads, if there is one.
    pub fn matches(&self, haystack: &[u8], at: usize) -> Option<StateID>
        ensures { result ≡ option_and_then (sparse_next (map range_of self.now.transitions.items)) (byte_at haystack.now at) }
    {
        self.matches_byte(*haystack.get(at)?)
    }

    /// Where the unit leads. The end of the input leads nowhere.
    pub fn matches_unit(&self, unit: Unit) -> Option<StateID>
        ensures { result ≡ option_and_then (sparse_next (map range_of self.now.transitions.items)) (unit_byte unit) }
    {
        self.matches_byte(unit.as_u8()?)
    }

    /// Where the byte leads: the state of the first range that has it.
    pub fn matches_byte(&self, byte: u8) -> Option<StateID>
        ensures { result ≡ sparse_next (map range_of self.now.transitions.items) byte }
    {
        for transition in &self.transitions {
            if transition.matches_byte(byte) {
                return Some(transition.next);
            }
        }
        None
    }
}
