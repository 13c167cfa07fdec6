//! Searches that try the offsets at which a match may start, one after the other.
ghost use Rattle.std.specs.Prelude.{◌≡◌, ◌≤◌, ℕ, Bool, List, length, true};
ghost use Rattle.regex_syntax.specs.declared.Config.{Config as TextConfig};
ghost use Rattle.search_core.specs.Utf8.{IsValidText};
ghost use Rattle.meta_regex.specs.Caches.{IsCacheOf};
ghost use Rattle.meta_regex.specs.Regexes.{config_by};
ghost use Rattle.meta_regex.specs.Starts.{NoneStartsAt, SeeksFrom, StepsFrom, TriesAt, anchored_search, tried_of};

use crate::cache::Cache;
use crate::compiled::Regex;
use crate::found_match::FoundMatch;
use hir_regex::headline::{
    searches_answer_leftmost_whatever_the_loops, searches_answer_what_trees_define,
};
use hir_regex::see_bytes;
use search_types::{Anchored, Input, Match};

/// A match that is found by a try at a literal saves as much as a search of this many bytes costs. The literal costs a little more, so tries
/// at literals pay only if these are some bytes apart.
const LITERAL_GAIN: usize = 120;

/// A match that is found by a try at a byte saves as much as a search of this many bytes costs.
const BYTE_GAIN: usize = 64;

/// A try in vain costs as much as a search of so many bytes.
const FAILED: usize = 64;

/// For each byte that a try read in vain, it costs as much as a search of so many bytes.
const PRICE: usize = 2;

/// What a search finds that may start at one offset alone.
#[derive(Clone, Copy)]
pub(crate) enum Tried {
    /// The match that starts there.
    Here(FoundMatch),
    /// No match starts there.
    NotHere,
    /// The automata gave up, or memory ran out.
    GaveUp,
}

/// What comes after one try.
#[derive(Clone, Copy)]
pub(crate) enum Step {
    /// The search is over.
    Done(Sought),
    /// The next try is from this offset on.
    Next(usize),
}

/// What is found by trying several offsets.
#[derive(Clone, Copy)]
pub(crate) enum Sought {
    /// The leftmost match.
    Found(FoundMatch),
    /// There is no match.
    Missing,
    /// No match starts before this offset.
    From(usize),
}

/// A search of the haystack that may start at this offset alone.
fn search_there(haystack: &[u8], at: usize) -> Input<'_>
    requires { at ≤ length haystack.now }
    ensures { result ≡ anchored_search haystack.now at }
{
    Input::new(haystack)
        .range(at..haystack.len())
        .anchored(Anchored::Yes)
}

/// The result of a search that may start at one offset alone.
fn result_of(found: Option<Match>) -> Tried
    ensures { result ≡ tried_of found }
{
    match found {
        Some(it) => Tried::Here(FoundMatch::of(&it)),
        None => Tried::NotHere,
    }
}

/// How many bytes a try saved at a literal, or else at a byte.
fn saved_by(tried: &Tried, is_literal: bool) -> usize {
    match tried {
        Tried::Here(_) => { if is_literal { LITERAL_GAIN } else { BYTE_GAIN } }
        _ => 0,
    }
}

/// How many bytes a try cost that read so many.
fn price_of(tried: &Tried, read: usize) -> usize {
    match tried {
        Tried::Here(_) => 0,
        _ => read.saturating_mul(PRICE).saturating_add(FAILED),
    }
}

/// What comes after a try at this offset, at which no match starts.
fn step_after(haystack: &[u8], start: usize) -> Step
    requires { start ≤ length haystack.now }
    ensures { (config : TextConfig) (texts : List (List ℕ)) (loops : Bool) → NoneStartsAt config texts haystack.now start →
        StepsFrom config texts loops haystack.now start result }
{
    if start == haystack.len() {
        return Step::Done(Sought::Missing);
    }
    Step::Next(start + 1)
}

/// What comes after a try at this offset.
pub(crate) fn step_of(tried: Tried, haystack: &[u8], start: usize) -> Step
    requires { start ≤ length haystack.now }
    ensures { (config : TextConfig) (texts : List (List ℕ)) (loops : Bool) → TriesAt config texts loops haystack.now start tried →
        StepsFrom config texts loops haystack.now start result }
{
    match tried {
        Tried::Here(found) => Step::Done(Sought::Found(found)),
        Tried::NotHere => step_after(haystack, start),
        Tried::GaveUp => Step::Done(Sought::From(start)),
    }
}

impl Regex {
    /// A search by the automata for a match that starts at this offset.
    fn find_there(&self, cache: &mut Cache, haystack: &[u8], at: usize) -> Tried
        requires own { IsCacheOf self.now cache.old }
        requires within { at ≤ length haystack.now }
        requires valid { (config_by self.now).utf8 ≡ true → IsValidText haystack.now }
        ensures own { IsCacheOf self.now cache.new }
        ensures tries { TriesAt (config_by self.now) self.now.texts self.now.loops haystack.now at result }
    {
        see_bytes(haystack);
        searches_answer_leftmost_whatever_the_loops();
        searches_answer_what_trees_define();
        let found = match cache.automata.find(&search_there(haystack, at)) {
            Ok(found) => found,
            Err(_) => return Tried::GaveUp,
        };
        result_of(found)
    }

    /// [`find_there`](Regex::find_there), which records what it cost.
    pub(crate) fn try_there(&self, cache: &mut Cache, haystack: &[u8], at: usize) -> Tried
        requires own { IsCacheOf self.now cache.old }
        requires within { at ≤ length haystack.now }
        requires valid { (config_by self.now).utf8 ≡ true → IsValidText haystack.now }
        ensures own { IsCacheOf self.now cache.new }
        ensures tries { TriesAt (config_by self.now) self.now.texts self.now.loops haystack.now at result }
    {
        let before = cache.automata.search_total_len();
        let tried = self.find_there(cache, haystack, at);
        let after = cache.automata.search_total_len();
        cache
            .effort
            .gain(saved_by(&tried, self.begins_with_literal()));
        cache
            .effort
            .charge(price_of(&tried, after.saturating_sub(before)));
        tried
    }

    /// Tries the next offset at which a match may start by its literals or first bytes.
    fn try_next(&self, cache: &mut Cache, haystack: &[u8], at: usize) -> Step
        requires own { IsCacheOf self.now cache.old }
        requires within { at ≤ length haystack.now }
        requires valid { (config_by self.now).utf8 ≡ true → IsValidText haystack.now }
        ensures own { IsCacheOf self.now cache.new }
        ensures steps { StepsFrom (config_by self.now) self.now.texts self.now.loops haystack.now at result }
    {
        let Some(start) = self.next_literal(cache, haystack, at) else {
            return Step::Done(Sought::Missing);
        };
        let tried = self.try_there(cache, haystack, start);
        step_of(tried, haystack, start)
    }

    /// Tries the offsets at which a match may start by its literals or first bytes, as long as that pays.
    pub(crate) fn try_starts(&self, cache: &mut Cache, haystack: &[u8], from: usize) -> Sought
        requires own { IsCacheOf self.now cache.old }
        requires within { from ≤ length haystack.now }
        requires valid { (config_by self.now).utf8 ≡ true → IsValidText haystack.now }
        ensures own { IsCacheOf self.now cache.new }
        ensures seeks { SeeksFrom (config_by self.now) self.now.texts self.now.loops haystack.now from result }
    {
        let mut at = from;
        while cache.effort.pays() {
            match self.try_next(cache, haystack, at) {
                Step::Done(sought) => return sought,
                Step::Next(next) => at = next,
            }
        }
        Sought::From(at)
    }
}
