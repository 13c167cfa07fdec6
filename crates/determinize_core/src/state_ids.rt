ghost use Rattle.std.specs.Prelude.{◌≡◌, ◌≤◌, All};
ghost use Rattle.std.specs.Iterator.{YieldsFirst, item_count};
ghost use Rattle.search_core.specs.Index.{greatest_index};
ghost use Rattle.determinize_core.specs.StateBytes.{ids_read, moved};

use search_core::StateID;
use std::marker::Model;

/// What the fifth group of seven bits is worth, which is the last of a number.
const LAST_WEIGHT: u64 = 268_435_456;

/// The states of a powerset state, in order of preference. A contract sees it as the list of those that are left.
#[derive(Drop)]
pub struct StateIds<'a> {
    bytes: &'a [u8],
    // The state before. The next one is stored as its difference from this one.
    previous: StateID,
}

impl<'a> Model for StateIds<'a> {
    ghost use Rattle.std.specs.Prelude.{◌≤◌, List, ℕ, All};
    ghost use Rattle.search_core.specs.Index.{greatest_index};
    ghost use Rattle.determinize_core.specs.StateBytes.{ids_read};

    ghost Value = { List ℕ };

    ghost view = { λ it. ids_read it.previous 0 1 it.bytes.now };

    ghost invariant = { λ it. All (λ q. q ≤ greatest_index) (ids_read it.previous 0 1 it.bytes.now) };
}

impl<'a> StateIds<'a> {
    pub(crate) fn new(bytes: &'a [u8]) -> StateIds<'a>
        requires { All (λ q. q ≤ greatest_index) (ids_read 0 0 1 bytes.now) }
        ensures { result ≡ ids_read 0 0 1 bytes.now }
    {
        StateIds {
            bytes,
            previous: StateID::ZERO,
        }
    }

    /// The states that are left, once more.
    pub(crate) fn rest(&self) -> StateIds<'a>
        ensures { result ≡ self.now }
    {
        StateIds {
            bytes: self.bytes,
            previous: self.previous,
        }
    }

    /// The next state, whose difference may have several groups.
    fn next_of_groups(&mut self) -> Option<StateID>
        ensures { YieldsFirst (λ rest. rest) self.old result self.new }
    {
        let mut part = 0;
        let mut weight = 1;
        while let Some((byte, rest)) = self.bytes.split_first() {
            let group = u64::from(*byte);
            self.bytes = rest;
            if group < 128 || weight >= LAST_WEIGHT {
                let id = StateID::must(
                    moved(self.previous.as_u64(), part + group * weight) as usize,
                );
                self.previous = id;
                return Some(id);
            }
            part += (group - 128) * weight;
            weight *= 128;
        }
        None
    }
}

impl<'a> Iterator for StateIds<'a> {
    type Item = StateID;

    ghost next_gives = { YieldsFirst (λ rest. rest) };

    ghost remaining = { item_count (λ rest. rest) };

    // Most differences have one group.
    #[inline(always)]
    fn next(&mut self) -> Option<StateID> {
        let Some((byte, rest)) = self.bytes.split_first() else {
            return None;
        };
        let group = u64::from(*byte);
        if group >= 128 {
            return self.next_of_groups();
        }
        let id = StateID::must(moved(self.previous.as_u64(), group) as usize);
        self.bytes = rest;
        self.previous = id;
        Some(id)
    }
}

/// Where a step leads: up for an even number, down for an odd one.
fn moved(from: u64, way: u64) -> u64
    requires { from ≤ greatest_index }
    ensures { result ≡ moved from way }
{
    if way % 2 == 0 {
        from + way / 2
    } else {
        from.saturating_sub((way - 1) / 2 + 1)
    }
}
