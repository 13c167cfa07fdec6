//! Skips the parts of a haystack in which a tree has no match.
ghost use Rattle.std.specs.Prelude.{◌≡◌, ◌≤◌, length, true, IfOk, IfSome};
ghost use Rattle.hir_core.specs.Tree.{Tree, alternation};
ghost use Rattle.literal_search.specs.Searches.{IsBegunBy, IsContainedIn, IsNextEnd, IsNextStart, AdvancesToStop};

use crate::literals::Literals;
use crate::required::{literals_of_all, required_literals};
use crate::searching::{LiteralSearch, Stop};
use crate::sets::{cost, or_shared_prefix};
use hir_core::Hir;
use std::alloc::{AllocError, Global};
use std::marker::Model;

/// A search that costs more than this for a million bytes of typical text, in nanoseconds, isn't made.
const MAX_COST: u64 = 500_000;

/// How many bytes a search is ahead when it begins, and after it gave up for a time.
const CREDIT: usize = 4096;

/// How many bytes a search can be ahead.
const MOST_CREDIT: usize = 1 << 16;

/// How many skipped bytes make up for a candidate.
const CANDIDATE: usize = 1024;

/// How many skipped bytes make up for a search that stops since many offsets looked as if a literal began there.
const MISSES: usize = 4096;

/// At least how many bytes are searched without literals after these have given up.
const REST: usize = 1 << 16;

/// For each byte of the cost at which literals have given up, so many are searched without literals.
const REST_FOR_EACH: usize = 16;

/// Whether a search for literals pays. It is kept from call to call. It counts bytes, so it may be kept from haystack to haystack too.
#[derive(Clone, Copy, Debug)]
pub struct Effort {
    /// How many bytes the search is ahead.
    credit: usize,
    /// How many bytes are still to be searched without literals.
    rest: usize,
    /// How many skipped bytes make up for a candidate.
    candidate: usize,
}

impl Effort {
    /// A search that hasn't begun, for callers that search a line for each candidate.
    pub fn new() -> Effort {
        Effort::with_price(CANDIDATE)
    }

    /// A search that hasn't begun. So many skipped bytes make up for a candidate.
    pub fn with_price(candidate: usize) -> Effort {
        Effort {
            credit: CREDIT,
            rest: 0,
            candidate,
        }
    }

    /// Whether a search for literals is worthwhile now.
    pub fn pays(&self) -> bool {
        self.rest == 0
    }

    /// Records that a search for literals skipped this many bytes, and how many make up for what it costs.
    fn record(&mut self, skipped: usize, price: usize) {
        let ahead = self.credit.saturating_add(skipped).min(MOST_CREDIT);
        if ahead > price {
            self.credit = ahead - price;
            return;
        }
        self.credit = CREDIT;
        self.rest = price.saturating_mul(REST_FOR_EACH).max(REST);
    }

    /// Records that what was done at a candidate cost as much as a search of this many bytes.
    pub fn charge(&mut self, bytes: usize) {
        self.record(0, bytes);
    }

    /// Records that a candidate saved as much as a search of this many bytes costs.
    pub fn gain(&mut self, bytes: usize) {
        self.record(bytes, 0);
    }

    /// Records that this many bytes were searched without literals.
    pub fn pass(&mut self, bytes: usize) {
        self.rest = self.rest.saturating_sub(bytes);
    }
}

/// Finds where the next match of a tree may be, by the literals that each match contains.
#[derive(Drop)]
pub struct CandidateFinder {
    search: LiteralSearch,
}

impl Model for CandidateFinder {
    ghost use Rattle.std.specs.Prelude.{ℕ, List};

    ghost Value = { List (List ℕ) };

    ghost view = { λ f. f.search };
}

/// The finder of the literals, if there is a fast search for these.
fn finder_of(alloc: Global, literals: Literals) -> Result<Option<CandidateFinder>, AllocError>
    ensures { IfOk result (λ made. IfSome made (λ f. f ≡ literals)) }
{
    if literals.is_empty() || cost(&literals) > MAX_COST {
        return Ok(None);
    }
    let Some(search) = LiteralSearch::new(alloc, literals)? else {
        return Ok(None);
    };
    if search.cost() > MAX_COST {
        return Ok(None);
    }
    Ok(Some(CandidateFinder { search }))
}

impl CandidateFinder {
    /// A finder of literals of which each match of the tree contains one. It returns `None` if no such literals are known, or if they are too
    /// common. The only error is a failed allocation.
    pub fn inside(alloc: Global, tree: &Hir) -> Result<Option<CandidateFinder>, AllocError>
        ensures { IfOk result (λ made. IfSome made (λ f. IsContainedIn f tree.now)) }
    {
        let required = required_literals(alloc, tree)?;
        match finder_of(alloc, required.inside)? {
            Some(finder) => Ok(Some(finder)),
            None => Ok(None),
        }
    }

    /// A finder of literals with which each match of the tree begins, as [`CandidateFinder::inside`].
    pub fn beginnings(alloc: Global, tree: &Hir) -> Result<Option<CandidateFinder>, AllocError>
        ensures { IfOk result (λ made. IfSome made (λ f. IsBegunBy f tree.now)) }
    {
        let required = required_literals(alloc, tree)?;
        match finder_of(alloc, or_shared_prefix(alloc, required.begins)?)? {
            Some(finder) => Ok(Some(finder)),
            None => Ok(None),
        }
    }

    /// A finder of literals with which each match of one of the trees begins, as [`CandidateFinder::beginnings`].
    pub fn beginnings_of_all(
        alloc: Global,
        trees: &[Hir],
    ) -> Result<Option<CandidateFinder>, AllocError>
        ensures { IfOk result (λ made. IfSome made (λ f. IsBegunBy f (alternation trees.now))) }
    {
        let all = literals_of_all(alloc, trees)?;
        match finder_of(alloc, or_shared_prefix(alloc, all.begins)?)? {
            Some(finder) => Ok(Some(finder)),
            None => Ok(None),
        }
    }

    /// Searches for the literals from an offset on, unless that didn't pay before.
    #[inline(always)]
    fn stop_from(&self, effort: &mut Effort, haystack: &[u8], from: usize) -> Stop
        requires { from ≤ length haystack.now }
        ensures { AdvancesToStop self.now haystack.now from result }
    {
        if !effort.pays() {
            return Stop::Tired(from);
        }
        let stop = self.search.find_at(haystack, from);
        match stop {
            Stop::At(at) => effort.record(at.saturating_sub(from), effort.candidate),
            Stop::Tired(at) => effort.record(at.saturating_sub(from), MISSES),
            Stop::Missing => effort.record(haystack.len() - from, 0),
        }
        stop
    }

    /// The next offset by which a match may end, for a finder of literals of which each match contains one: no match that starts at `from` or
    /// after it ends before that offset. If it returns `None`, no match starts at `from` or after it.
    pub fn next_end(&self, effort: &mut Effort, haystack: &[u8], from: usize) -> Option<usize>
        requires { from ≤ length haystack.now }
        ensures { (x : Tree) → IsContainedIn self.now x → IsNextEnd x haystack.now from result }
    {
        match self.stop_from(effort, haystack, from) {
            Stop::At(at) => Some(at),
            Stop::Tired(at) => Some(at),
            Stop::Missing => None,
        }
    }

    /// The next offset at which a match may start, for a finder of literals with which each match begins: no match starts between `from` and
    /// that offset. If it returns `None`, no match starts at `from` or after it.
    pub fn next_start(&self, effort: &mut Effort, haystack: &[u8], from: usize) -> Option<usize>
        requires { from ≤ length haystack.now }
        ensures { (x : Tree) → IsBegunBy self.now x → IsNextStart x haystack.now from result }
    {
        match self.stop_from(effort, haystack, from) {
            Stop::At(at) => Some(at),
            Stop::Tired(at) => Some(at),
            Stop::Missing => None,
        }
    }
}
