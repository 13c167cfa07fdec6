ghost use Rattle.std.specs.Prelude.{◌≡◌, map};
ghost use Rattle.std.specs.Option.{option_and_then};
ghost use Rattle.search_core.specs.Text.{byte_at};
ghost use Rattle.search_core.specs.Units.{unit_byte};
ghost use Rattle.nfa_core.specs.Transitions.{dense_next};

use search_core::{StateID, Unit};

/// A table with the state to which each byte leads. [`StateID::ZERO`] means that the byte leads nowhere.
#[derive(Clone, PartialEq, Eq, Debug, Drop)]
pub struct DenseTransitions {
    pub transitions: Box<[StateID; 256]>,
}

impl DenseTransitions {
    /// Where the byte at the offset `at` of the haystack leads, if there is one.
    pub fn matches(&self, haystack: &[u8], at: usize) -> Option<StateID>
        ensures { result ≡ option_and_then (dense_next self.now.transitions.value) (byte_at haystack.now at) }
    {
        self.matches_byte(*haystack.get(at)?)
    }

    /// Where the unit leads. The end of the input leads nowhere.
    pub fn matches_unit(&self, unit: Unit) -> Option<StateID>
        ensures { result ≡ option_and_then (dense_next self.now.transitions.value) (unit_byte unit) }
    {
        self.matches_byte(unit.as_u8()?)
    }

    /// Where the byte leads. It leads nowhere if the table has state 0 for it.
    #[inline]
    pub fn matches_byte(&self, byte: u8) -> Option<StateID>
        ensures { result ≡ dense_next self.now.transitions.value byte }
    {
        let next = self.transitions[usize::from(byte)];
        if next == StateID::ZERO {
            return None;
        }
        Some(next)
    }
}
