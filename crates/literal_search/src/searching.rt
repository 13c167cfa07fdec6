//! A search for the first of several literals.
ghost use Rattle.std.specs.Prelude.{◌≡◌, ◌≤◌, length, IfOk, IfSome};
ghost use Rattle.literal_search.specs.Searches.{IsLiteralStop};

use crate::literals::Literals;
use crate::pair::{Near, PairSearch};
use regex_literal::{Bounded, Prefilter};
use std::alloc::{AllocError, Global};
use std::marker::Model;

/// Where a search for literals stops.
#[derive(Clone, Copy, PartialEq, Eq, Debug)]
pub enum Stop {
    /// The first offset at which one of the literals begins.
    At(usize),
    /// A later offset, before which none begins: many offsets close together looked as if one did.
    Tired(usize),
    /// None begins up to the end of the haystack.
    Missing,
}

/// A search for several literals, by vectors. A contract sees it as the list of the literals.
#[derive(Drop)]
pub struct LiteralSearch {
    filter: Prefilter,
    /// A search for the only literal by two of its bytes. It takes less to begin than the other one.
    pair: Option<PairSearch>,
}

impl Model for LiteralSearch {
    ghost use Rattle.std.specs.Prelude.{◌≡◌, ◌∷◌, [], ℕ, IfSome, List};

    ghost Value = { List (List ℕ) };

    ghost view = { λ s. s.filter };

    ghost invariant = { λ s. IfSome s.pair (λ p. s.filter ≡ p.literal.items ∷ []) };
}

impl LiteralSearch {
    /// A search for the literals. If it returns `None`, there is no fast search for these: a literal is empty, or too many begin alike. The
    /// only error is a failed allocation.
    pub fn new(alloc: Global, literals: Literals) -> Result<Option<LiteralSearch>, AllocError>
        ensures { IfOk result (λ made. IfSome made (λ s. s ≡ literals)) }
    {
        let pair = PairSearch::new(alloc, &literals)?;
        match Prefilter::new(alloc, literals.into_items())? {
            Some(filter) => Ok(Some(LiteralSearch { filter, pair })),
            None => Ok(None),
        }
    }

    /// A search for the first literal by the toolchain's filter.
    #[inline(always)]
    fn filter_at(&self, haystack: &[u8], from: usize) -> Stop
        requires { from ≤ length haystack.now }
        ensures { IsLiteralStop self.now haystack.now from result }
    {
        match self.filter.find_bounded(haystack, from) {
            Bounded::Found(at, _) => Stop::At(at),
            Bounded::Missing => Stop::Missing,
            Bounded::Tired(at) => Stop::Tired(at),
        }
    }

    /// The first offset from `from` on at which one of the literals begins. A search that meets many offsets where one almost does returns
    /// the offset up to which it came.
    #[inline(always)]
    pub fn find_at(&self, haystack: &[u8], from: usize) -> Stop
        requires { from ≤ length haystack.now }
        ensures { IsLiteralStop self.now haystack.now from result }
    {
        let Some(pair) = &self.pair else {
            return self.filter_at(haystack, from);
        };
        match pair.find(haystack, from) {
            Near::At(at) => Stop::At(at),
            Near::Passed(at) => self.filter_at(haystack, at),
        }
    }

    /// About how many nanoseconds a search takes for a million bytes of typical text.
    pub fn cost(&self) -> u64 {
        self.filter.scan_cost()
    }
}
