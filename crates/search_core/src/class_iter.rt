ghost use Rattle.std.specs.Prelude.{◌≡◌, ◌≤◌, ◌+◌, slice_index};
ghost use Rattle.std.specs.Iterator.{YieldsFirst, item_count};
ghost use Rattle.search_core.specs.Classes.{units_from, elements_of, representatives_of};

use crate::classes::ByteClasses;
use crate::unit::Unit;
use std::marker::Model;

/// The classes, each once as a unit with its number, ascending, and then the end of the input.
/// As `regex_automata::util::alphabet::ByteClassIter`.
#[derive(Drop)]
pub struct ByteClassIter {
    end: usize,
    next: usize,
}

impl Model for ByteClassIter {
    ghost use Rattle.std.specs.Prelude.{List, ◌≤◌};
    ghost use Rattle.search_core.specs.declared.unit.Unit.{Unit as InputUnit};
    ghost use Rattle.search_core.specs.Classes.{units_from};

    ghost Value = { List InputUnit };

    ghost view = { λ s. units_from s.end s.next };

    ghost invariant = { λ s. s.end ≤ 256 };
}

impl ByteClassIter {
    pub(crate) fn new(end: usize) -> ByteClassIter
        requires { end ≤ 256 }
        ensures { result ≡ units_from end 0 }
    {
        ByteClassIter { end, next: 0 }
    }
}

impl Iterator for ByteClassIter {
    type Item = Unit;

    ghost next_gives = { YieldsFirst (λ rest. rest) };

    ghost remaining = { item_count (λ rest. rest) };

    fn next(&mut self) -> Option<Unit> {
        let number = self.next;
        if number > self.end {
            return None;
        }
        self.next = number + 1;
        if number == self.end {
            return Some(Unit::eoi(number));
        }
        Some(Unit::u8(number as u8))
    }
}

/// The units of a class: its bytes, ascending, or the end of the input. As `regex_automata::util::alphabet::ByteClassElements`.
#[derive(Drop)]
pub struct ByteClassElements<'a> {
    classes: &'a ByteClasses,
    class: Unit,
    from: usize,
}

impl<'a> Model for ByteClassElements<'a> {
    ghost use Rattle.std.specs.Prelude.{List};
    ghost use Rattle.search_core.specs.declared.unit.Unit.{Unit as InputUnit};
    ghost use Rattle.search_core.specs.Classes.{elements_from};

    ghost Value = { List InputUnit };

    ghost view = { λ s. elements_from s.classes.now s.class s.from };
}

impl<'a> ByteClassElements<'a> {
    pub(crate) fn new(classes: &'a ByteClasses, class: Unit) -> ByteClassElements<'a>
        ensures { result ≡ elements_of classes.now class }
    {
        ByteClassElements {
            classes,
            class,
            from: 0,
        }
    }
}

impl<'a> Iterator for ByteClassElements<'a> {
    type Item = Unit;

    ghost next_gives = { YieldsFirst (λ rest. rest) };

    ghost remaining = { item_count (λ rest. rest) };

    fn next(&mut self) -> Option<Unit> {
        match self.class {
            Unit::Byte(class) => {
                let byte = self.classes.next_in_class(class, self.from)?;
                self.from = usize::from(byte) + 1;
                Some(Unit::u8(byte))
            }
            Unit::End(number) => {
                if self.from > 256 {
                    return None;
                }
                self.from = 257;
                Some(Unit::End(number))
            }
        }
    }
}

/// The first unit of each class that a range of bytes meets. As `regex_automata::util::alphabet::ByteClassRepresentatives`.
#[derive(Drop)]
pub struct ByteClassRepresentatives<'a> {
    classes: &'a ByteClasses,
    lo: u8,
    hi: Option<u8>,
    from: usize,
}

impl<'a> Model for ByteClassRepresentatives<'a> {
    ghost use Rattle.std.specs.Prelude.{List};
    ghost use Rattle.search_core.specs.declared.unit.Unit.{Unit as InputUnit};
    ghost use Rattle.search_core.specs.Classes.{first_units};

    ghost Value = { List InputUnit };

    ghost view = { λ s. first_units s.classes.now s.lo s.hi s.from };
}

impl<'a> ByteClassRepresentatives<'a> {
    pub(crate) fn new(
        classes: &'a ByteClasses,
        lo: u8,
        hi: Option<u8>,
    ) -> ByteClassRepresentatives<'a>
        ensures { result ≡ representatives_of classes.now lo hi }
    {
        ByteClassRepresentatives {
            classes,
            lo,
            hi,
            from: usize::from(lo),
        }
    }
}

impl<'a> Iterator for ByteClassRepresentatives<'a> {
    type Item = Unit;

    ghost next_gives = { YieldsFirst (λ rest. rest) };

    ghost remaining = { item_count (λ rest. rest) };

    fn next(&mut self) -> Option<Unit> {
        match self.classes.next_first(self.lo, self.hi, self.from) {
            Some(byte) => {
                self.from = usize::from(byte) + 1;
                Some(Unit::u8(byte))
            }
            None => match self.hi {
                Some(_) => None,
                None if self.from > 256 => None,
                None => {
                    self.from = 257;
                    Some(self.classes.eoi())
                }
            },
        }
    }
}
