//! The parts of a glob.
ghost use Rattle.std.specs.Prelude.{◌≡◌};
ghost use Rattle.std.specs.List.{list_any};
ghost use Rattle.globs.specs.Matching.{class_of, is_folded_within, is_in, is_in_any_range, is_slash, is_within, is_within_any, item_of, takes};

/// A set of characters: those in one of the ranges, or, if it is negated, the others. If `slash` is false, a slash isn't in it.
#[derive(Drop)]
pub struct Class {
    pub negated: bool,
    pub slash: bool,
    /// A letter of ASCII is in a range if it is in the other case.
    pub folds: bool,
    /// The first and the last character of each range.
    pub ranges: Vec<(char, char)>,
}

/// A part of a glob.
#[derive(Drop)]
pub enum Item {
    /// This character.
    One(char),
    /// One character of a set.
    Set(Class),
    /// Any number of characters but slashes.
    Star,
    /// Any number of characters.
    Anything,
    /// Nothing, or characters of which the last one is a slash.
    Folders,
}

pub fn is_slash(c: char) -> bool
    ensures { result ≡ is_slash c }
{
    c == '/'
}

fn is_within_any(ranges: &[(char, char)], c: char) -> bool
    ensures { result ≡ is_within_any ranges.now c }
{
    ranges.iter().any(|range| range.0 <= c && c <= range.1)
}

fn is_folded_within(ranges: &[(char, char)], c: char) -> bool
    ensures { result ≡ is_folded_within ranges.now c }
{
    is_within_any(ranges, c.to_ascii_lowercase()) || is_within_any(ranges, c.to_ascii_uppercase())
}

impl Class {
    fn has_in_ranges(&self, c: char) -> bool
        ensures { result ≡ is_in_any_range (class_of self.now) c }
    {
        is_within_any(&self.ranges, c) || self.folds && is_folded_within(&self.ranges, c)
    }

    /// Whether this character is in the set.
    pub fn has(&self, c: char) -> bool
        ensures { result ≡ is_in (class_of self.now) c }
    {
        if !self.slash && is_slash(c) {
            return false;
        }
        self.has_in_ranges(c) != self.negated
    }
}

impl Item {
    /// Whether the item takes this character.
    pub fn takes(&self, c: char) -> bool
        ensures { result ≡ takes (item_of self.now) c }
    {
        match self {
            Item::One(x) => c == *x,
            Item::Set(class) => class.has(c),
            Item::Star => !is_slash(c),
            Item::Anything => true,
            Item::Folders => false,
        }
    }
}
