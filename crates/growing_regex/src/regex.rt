//! A regex whose caches are enlarged if they are cleared too soon, and its searches.
ghost use Rattle.std.specs.Prelude.{◌≡◌, ◌≤◌, ◌<◌, ◌⊎◌, ℕ, Bool, List, Err, IfErr, IfOk, IfSome, false, length};
ghost use Rattle.hir_core.specs.Tree.{Tree};
ghost use Rattle.look_core.specs.Looks.{IsWordSet};
ghost use Rattle.search_types.specs.declared.match_error.MatchErrorKind.TheVariants.{NoMemory};
ghost use Rattle.regex_pair.specs.Finding.{search_at};
ghost use Rattle.regex_pair.specs.Pairs.{AreCachesOf};
ghost use Rattle.hir_regex.specs.declared.settings.Settings.{Settings};
ghost use Rattle.hir_regex.specs.Built.{IsBuilt, FindsFirst};
ghost use Rattle.growing_regex.specs.Earliest.{IsEarliestEnd, IsEarliestError, looks_by};
ghost use Rattle.growing_regex.specs.Growing.{AddsBy, AnswersBy, AreGrown, ListsBy, largest_for};

use crate::earliest_search::{end_of, search_counted, search_from};
use crate::laws::calls_report_the_least_end;
use crate::listing::list;
use crate::overlapping_search::add_counted;
use crate::resizing::resized;
use crate::size::Size;
use hir_regex::{find, see_bytes};
use regex_pair::regex::{Cache, Regex};
use search_types::{Input, Match, MatchError, MatchErrorKind, PatternSet};
use std::alloc::{AllocError, Global};
use std::marker::{Brand, Model};
use std::sync::Arc;
use std::sync::ledger::Blank;

/// The largest capacity in bytes to which caches are enlarged if nobody asks for another one: 256 MiB.
pub const LARGEST: usize = 1 << 28;

/// The largest capacity in bytes to which caches are enlarged if options set this capacity, or none. Caches of a capacity that is set are
/// never enlarged, so it is 0 then.
pub fn largest_for(set: Option<usize>) -> usize
    ensures { result ≡ largest_for set }
{
    match set {
        Some(_) => 0,
        None => LARGEST,
    }
}

/// A regex with its caches. If these are cleared too soon, it goes on with copies of its automata that have larger caches, up to a largest
/// capacity. Nothing is parsed or compiled for that, and no answer depends on it. If memory doesn't suffice, the caches stay as they are.
///
/// The regex may be shared with others, of which each has caches of its own.
#[derive(Drop)]
pub struct GrowingRegex {
    /// The automata as they were made.
    origin: Arc<Regex>,
    /// The automata that search, with the present caches.
    regex: Arc<Regex>,
    cache: Cache,
    size: Size,
    /// The largest capacity in bytes to which caches are enlarged.
    largest: usize,
    alloc: Global,
}

impl Model for GrowingRegex {
    ghost use Rattle.regex_pair.specs.Pairs.{AreCachesOf};
    ghost use Rattle.growing_regex.specs.Growing.{AreGrown, Growing};

    ghost Value = { Growing };

    ghost view = { λ g. record { pair = g.origin.value; largest = g.largest } };

    ghost invariant = { λ g. AreGrown (record { pair = g.origin.value; largest = g.largest }) g.regex.value × AreCachesOf g.regex.value g.cache };
}

/// How many bytes a search examined to find this.
#[inline(always)]
fn searched_len(found: &Option<Match>, input: &Input<'_>) -> usize {
    match found {
        Some(it) => it.end().saturating_sub(input.start()),
        None => input.end().saturating_sub(input.start()),
    }
}

/// The offset up to which a search of the block went: the end that it found, a byte at which it gave up, or the end of the block.
#[inline(always)]
fn searched_to(found: &Result<Option<usize>, MatchError>, block: &[u8]) -> usize {
    match found {
        Ok(Some(end)) => *end,
        Ok(None) => block.len(),
        Err(e) => match e.kind() {
            MatchErrorKind::Quit { offset, .. } => *offset,
            _ => 0,
        },
    }
}

/// The capacity in bytes of caches of the regex, as it is set.
fn capacity_of(re: &Regex) -> usize {
    re.forward().get_config().get_cache_capacity()
}

impl GrowingRegex {
    /// A regex with empty caches, which are enlarged to at most this capacity in bytes. If it is 0, or no more than the capacity that the
    /// regex was made with, they are never enlarged.
    pub fn new(alloc: Global, regex: Arc<Regex>, largest: usize) -> Result<GrowingRegex, AllocError>
        ensures { IfOk result (λ g. g ≡ record { pair = regex.value; largest = largest }) }
    {
        let cache = Cache::new(alloc, &regex)?;
        let origin = Arc::try_clone(&regex)?;
        let size = Size::of(capacity_of(&regex));
        Ok(GrowingRegex {
            origin,
            regex,
            cache,
            size,
            largest,
            alloc,
        })
    }

    /// The regex as it was made, to be shared.
    pub fn regex(&self) -> Result<Arc<Regex>, AllocError>
        ensures { IfOk result (λ re. re.value ≡ self.now.pair) }
    {
        let regex = Arc::try_clone(&self.origin)?;
        Ok(regex)
    }

    /// How often the present caches were cleared.
    #[inline(always)]
    fn clears(&self) -> usize {
        let forward = self.cache.forward().clear_count();
        forward.saturating_add(self.cache.reverse().clear_count())
    }

    /// How often caches were cleared, those included that have been replaced. The greatest number stands for any number above it.
    pub fn clear_count(&self) -> usize {
        self.size.clear_count(self.clears())
    }

    /// The bytes that both caches are estimated to need.
    pub fn memory_usage(&self) -> usize {
        self.cache.memory_usage()
    }

    /// How many bytes the automaton that reads forward searched since its cache was last cleared or replaced.
    #[inline(always)]
    pub fn search_total_len(&self) -> usize {
        self.cache.forward().search_total_len()
    }

    /// Replaces the automata and their caches by larger ones.
    fn replace(&mut self, regex: Arc<Regex>, cache: Cache, capacity: usize)
        requires grown { AreGrown self.old regex.value }
        requires own { AreCachesOf regex.value cache }
        ensures { self.new ≡ self.old }
    {
        self.size = self.size.enlarged(capacity, self.clears());
        self.regex = regex;
        self.cache = cache;
    }

    /// Copies of the automata with caches of this capacity in bytes, if memory suffices.
    fn copied(&self, capacity: usize) -> Option<Arc<Regex>>
        requires some { 0 < capacity }
        requires within { capacity ≤ self.now.largest }
        ensures { IfSome result (λ regex. AreGrown self.now regex.value) }
    {
        let Some(regex) = resized(self.alloc, &self.regex, capacity) else {
            return None;
        };
        Some(regex)
    }

    /// Records that the caches were cleared. If that was too soon, it enlarges them, as far as that is allowed and memory suffices. It isn't
    /// inlined, since it is called rarely.
    #[inline(never)]
    fn enlarge(&mut self)
        ensures { self.new ≡ self.old }
    {
        let clears = self.clears();
        let Some(capacity) = self.size.larger(clears, self.largest) else {
            return;
        };
        let Some(regex) = self.copied(capacity) else {
            return;
        };
        let Ok(cache) = Cache::new(self.alloc, &regex) else {
            return;
        };
        self.replace(regex, cache, capacity);
    }

    /// Records that this many bytes were searched.
    #[inline(always)]
    fn note(&mut self, bytes: usize)
        ensures { self.new ≡ self.old }
    {
        self.size.pass(bytes);
        if self.clears() != self.size.clears {
            self.enlarge();
        }
    }

    /// One search, as [`find`](hir_regex::find).
    #[inline(always)]
    pub fn find(&mut self, input: &Input<'_>) -> Result<Option<Match>, MatchError>
        ensures same { self.new ≡ self.old }
        ensures answer { AnswersBy self.old input.now result }
    {
        match find(&self.regex, &mut self.cache, input) {
            Ok(found) => {
                self.note(searched_len(&found, input));
                Ok(found)
            }
            Err(e) => Err(e),
        }
    }

    /// All matches, one after the other. An error is that of the search at which the list ends, or memory ran out.
    pub fn find_all(&mut self, alloc: Global, input: Input<'_>) -> Result<Vec<Match>, MatchError>
        ensures same { self.new ≡ self.old }
        ensures all { IfOk result (λ all. ListsBy self.old input.entry all.items) }
        ensures refused { IfErr result (λ e. (e ≡ NoMemory) ⊎ ((k : ℕ) × AnswersBy self.old (search_at input.entry k) (Err e))) }
    {
        let bytes = input.end().saturating_sub(input.start());
        match list(alloc, &self.regex, &mut self.cache, input) {
            Ok(all) => {
                self.note(bytes);
                Ok(all)
            }
            Err(e) => Err(e),
        }
    }

    /// Adds the patterns of all match ends in a span to a set, as `DFA::try_which_overlapping_matches`. If the regex finds all matches, these
    /// are the patterns that match. If the call fails, the patterns of the ends that were found before stay in the set.
    pub fn try_which_overlapping_matches(
        &mut self,
        input: &Input<'_>,
        set: &mut PatternSet,
    ) -> Result<(), MatchError>
        ensures same { self.new ≡ self.old }
        ensures added { AddsBy self.old input.now set.old set.new result }
    {
        let first = Blank::new(1);
        let second = Blank::new(1);
        match add_counted::<Brand, Brand>(&self.regex, &mut self.cache, input, set, first, second) {
            Ok(()) => {
                self.note(input.end().saturating_sub(input.start()));
                Ok(())
            }
            Err(e) => Err(e),
        }
    }

    /// The least end of the matches of a block that start at an offset or later, or none. It is one half search forward.
    ///
    /// If the regex is built of trees, finds the leftmost-first match and isn't in UTF-8 mode, this is the least end of all spans that any
    /// of the trees matches. It holds for every set of word characters at once, and for trees with empty loops, too. A search that reads a
    /// quit byte fails; then no such span ends before that byte. A search also fails if it is out of memory or gives up. It never gives up if
    /// no minimum number of clears is set.
    pub fn find_earliest_end(
        &mut self,
        block: &[u8],
        at: usize,
    ) -> Result<Option<usize>, MatchError>
        requires within { at ≤ length block.now }
        ensures same { self.new ≡ self.old }
        ensures found { (xs : List Tree) (s : Settings) → IsBuilt xs s self.old.pair → FindsFirst s → s.utf8 ≡ false →
            (words : ℕ → Bool) → IsWordSet words →
            IfOk result (λ o. IsEarliestEnd xs (looks_by words s block.now) block.now at (length block.now) o) }
        ensures refused { (xs : List Tree) (s : Settings) → IsBuilt xs s self.old.pair → FindsFirst s → s.utf8 ≡ false →
            (words : ℕ → Bool) → IsWordSet words → IfErr result (λ e. IsEarliestError words xs s block.now at e) }
    {
        see_bytes(block);
        calls_report_the_least_end();
        let input = search_from(block, at);
        let first = Blank::new(1);
        let second = Blank::new(1);
        let half = search_counted::<Brand, Brand>(
            &self.regex,
            &mut self.cache,
            &input,
            first,
            second,
        );
        let found = end_of(half);
        self.note(searched_to(&found, block).saturating_sub(at));
        found
    }
}
