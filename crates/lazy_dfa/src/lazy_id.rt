ghost use Rattle.std.specs.Prelude.{◌≡◌, ◌↔◌, ℕ, ◌+◌, ◌*◌, ◌<◌, ◌≤◌, nat_le, true};
ghost use Rattle.lazy_dfa.specs.Ids.{tag, has_tag, unknown_tag, dead_tag, quit_tag, start_tag, match_tag, unknown_id, dead_id, quit_id};
ghost use Rattle.lazy_dfa.specs.Ids.{is_sentinel, tagged};

use std::marker::Model;

/// The ID of a state in a cache, as `regex_automata::hybrid::LazyStateID`. It is the index of the state's first transition, with
/// tags in the five highest bits. In contracts, an ID is this number. [`holds_id`](crate::automaton::dfa::DFA::holds_id) reports whether it
/// is an ID of a cache. The default, 0, is never held.
#[derive(Clone, Copy, PartialEq, Eq, PartialOrd, Ord, Hash)]
pub struct LazyStateID(u32);

impl Model for LazyStateID {
    ghost Value = { ℕ };

    ghost view = { λ id. id.0 };

    ghost inverse = { λ n. record { 0 = n } };
}

pub(crate) const UNKNOWN: u32 = 0x8000_0000;

pub(crate) const DEAD: u32 = 0x4000_0000;

pub(crate) const QUIT: u32 = 0x2000_0000;

pub(crate) const START: u32 = 0x1000_0000;

pub(crate) const MATCH: u32 = 0x800_0000;

/// The number of sentinels: for a step that isn't known, for the dead state, and for a quit byte. The first rows of a table
/// belong to them.
pub(crate) const SENTINELS: usize = 3;

impl LazyStateID {
    /// Whether the ID has a tag. Sentinels, states that match, and tagged start states have one.
    #[inline(always)]
    pub fn is_tagged(&self) -> bool
        ensures { result ≡ nat_le tag self.now }
    {
        self.0 >= MATCH
    }

    /// Whether the ID has the tag of steps that aren't known yet.
    pub fn is_unknown(&self) -> bool
        ensures { result ≡ has_tag unknown_tag self.now }
    {
        self.0 / UNKNOWN % 2 == 1
    }

    /// Whether the ID has the tag of the dead state, from which no search goes on.
    pub fn is_dead(&self) -> bool
        ensures { result ≡ has_tag dead_tag self.now }
    {
        self.0 / DEAD % 2 == 1
    }

    /// Whether the ID has the tag of searches that gave up at a quit byte.
    pub fn is_quit(&self) -> bool
        ensures { result ≡ has_tag quit_tag self.now }
    {
        self.0 / QUIT % 2 == 1
    }

    /// Whether the ID has the tag of states in which searches start.
    pub fn is_start(&self) -> bool
        ensures { result ≡ has_tag start_tag self.now }
    {
        self.0 / START % 2 == 1
    }

    /// Whether the ID has the tag of states that match.
    pub fn is_match(&self) -> bool
        ensures { result ≡ has_tag match_tag self.now }
    {
        self.0 / MATCH % 2 == 1
    }
}

impl Default for LazyStateID {
    ghost is_default = { λ id. id ≡ 0 };

    fn default() -> LazyStateID {
        LazyStateID(0)
    }
}

/// Functions that only this crate uses.
impl LazyStateID {
    /// The ID of these bits.
    pub(crate) fn from_bits(bits: u32) -> LazyStateID
        ensures { result ≡ bits }
    {
        LazyStateID(bits)
    }

    /// The bits.
    #[inline(always)]
    pub(crate) fn bits(self) -> u32
        ensures { result ≡ self }
    {
        self.0
    }

    /// The sentinel of steps that aren't known yet, in row 0.
    pub(crate) fn unknown() -> LazyStateID
        ensures { result ≡ unknown_id }
    {
        LazyStateID(UNKNOWN)
    }

    /// The sentinel of the dead state, in row 1.
    pub(crate) fn dead(stride: usize) -> LazyStateID
        requires { stride ≤ 512 }
        ensures { result ≡ dead_id stride }
    {
        LazyStateID(DEAD + stride as u32)
    }

    /// The sentinel of searches that gave up, in row 2.
    pub(crate) fn quit(stride: usize) -> LazyStateID
        requires { stride ≤ 512 }
        ensures { result ≡ quit_id stride }
    {
        LazyStateID(QUIT + 2 * stride as u32)
    }

    /// Whether the ID has one of the tags of sentinels.
    pub(crate) fn is_sentinel(self) -> bool
        ensures { result ≡ is_sentinel self }
    {
        self.0 >= QUIT
    }

    /// Whether the ID is that of a row, with the tag of a match or none.
    #[inline(always)]
    pub(crate) fn is_of_row(self) -> bool
        ensures { (result ≡ true) ↔ (self < start_tag) }
    {
        self.0 < START
    }

    /// Whether the ID is the dead sentinel, for an ID that is stored in a cache.
    #[inline(always)]
    pub(crate) fn is_dead_cell(self) -> bool
        ensures { result ≡ true → (self < unknown_id) × (has_tag dead_tag self ≡ true) }
    {
        self.0 / DEAD == 1
    }

    /// Whether the ID is the unknown sentinel, for an ID that is stored in a cache.
    #[inline(always)]
    pub(crate) fn is_not_known(self) -> bool
        ensures { result ≡ nat_le unknown_id self }
    {
        self.0 >= UNKNOWN
    }
}

/// The ID of the row that starts at an index.
pub(crate) fn id_of(place: u32, is_start: bool, is_match: bool) -> LazyStateID
    requires { place ≤ tag }
    ensures { result ≡ tagged is_start is_match place }
{
    let matching = if is_match { MATCH } else { 0 };
    let start = if is_start { START } else { 0 };
    LazyStateID::from_bits(start + (matching + place))
}
