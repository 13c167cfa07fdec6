ghost use Rattle.std.specs.Prelude.{◌≡◌, ℕ, ◌-◌, ◌^◌, ◌<◌};
ghost use Rattle.std.specs.Option.{SomeIff};

use std::fmt;
use std::marker::Model;

/// A `usize` other than the greatest. A contract sees it as the number. As `regex_automata::util::primitives::NonMaxUsize`.
#[derive(Clone, Copy, PartialEq, Eq, PartialOrd, Ord, Hash)]
pub struct NonMaxUsize(usize);

impl Model for NonMaxUsize {
    ghost Value = { ℕ };

    ghost view = { λ value. value.0 };

    ghost invariant = { λ value. value.0 < 2 ^ 64 - 1 };

    ghost inverse = { λ n. record { 0 = n } };
}

impl NonMaxUsize {
    /// The number, unless it is `usize::MAX`.
    pub fn new(value: usize) -> Option<NonMaxUsize>
        ensures { SomeIff result (value < usize.MAX) value }
    {
        if value == usize::MAX {
            return None;
        }
        Some(NonMaxUsize(value))
    }

    /// The number.
    pub fn get(self) -> usize
        ensures value { result ≡ self }
        ensures below { result < usize.MAX }
    {
        self.0
    }
}

impl fmt::Debug for NonMaxUsize {
    fn fmt<W: fmt::Write>(&self, f: &mut fmt::Formatter<W>) -> fmt::Result {
        f.debug_tuple("NonMaxUsize").field(&self.0).finish()
    }
}
