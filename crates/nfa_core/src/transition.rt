ghost use Rattle.std.specs.Prelude.{◌≡◌};
ghost use Rattle.std.specs.Int.{is_in_range};
ghost use Rattle.search_core.specs.Text.{byte_at};
ghost use Rattle.search_core.specs.Units.{unit_byte};
ghost use Rattle.nfa_core.specs.Transitions.{has_byte};

use search_core::{StateID, Unit};

/// A range of bytes, from `start` to `end`, and the state to which each of them leads. A range whose start
/// is above its end has no byte. As `regex_automata::nfa::thompson::Transition`.
#[derive(Clone, Copy, PartialEq, Eq, Debug)]
pub struct Transition {
    pub start: u8,
    pub end: u8,
    pub next: StateID,
}

impl Transition {
    /// Whether there is a byte at the offset `at` of the haystack and it lies in the range.
    pub fn matches(&self, haystack: &[u8], at: usize) -> bool
        ensures { result ≡ has_byte self.now.start self.now.end (byte_at haystack.now at) }
    {
        match haystack.get(at) {
            None => false,
            Some(byte) => self.matches_byte(*byte),
        }
    }

    /// Whether the unit is a byte of the range. The end of the input never is.
    pub fn matches_unit(&self, unit: Unit) -> bool
        ensures { result ≡ has_byte self.now.start self.now.end (unit_byte unit) }
    {
        match unit.as_u8() {
            None => false,
            Some(byte) => self.matches_byte(byte),
        }
    }

    /// Whether the byte lies in the range.
    pub fn matches_byte(&self, byte: u8) -> bool
        ensures { result ≡ is_in_range self.now.start self.now.end byte }
    {
        self.start <= byte && byte <= self.end
    }
}
