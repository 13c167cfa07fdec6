ghost use Rattle.std.specs.Prelude.{◌≡◌};
ghost use Rattle.std.specs.Iterator.{YieldsFirst, item_count};
ghost use Rattle.look_core.specs.LookSets.{members};

use crate::look::Look;
use crate::look_set::LookSet;
use std::marker::Model;

/// The members of a set, ascending by their numbers. As `regex_automata::util::look::LookSetIter`.
#[derive(Drop)]
pub struct LookSetIter {
    set: LookSet,
}

impl Model for LookSetIter {
    ghost use Rattle.std.specs.Prelude.{List};
    ghost use Rattle.look_core.specs.declared.look.Look.{Look as TheLook};
    ghost use Rattle.look_core.specs.LookSets.{members};

    ghost Value = { List TheLook };

    ghost view = { λ s. members s.set };
}

impl LookSetIter {
    pub(crate) fn new(set: LookSet) -> LookSetIter
        ensures { result ≡ members set }
    {
        LookSetIter { set }
    }
}

impl Iterator for LookSetIter {
    type Item = Look;

    ghost next_gives = { YieldsFirst (λ rest. rest) };

    ghost remaining = { item_count (λ rest. rest) };

    fn next(&mut self) -> Option<Look> {
        let look = self.set.first()?;
        self.set.set_remove(look);
        Some(look)
    }
}
