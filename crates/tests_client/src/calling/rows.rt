// The results of the examples, found by hand.
ghost use Rattle.std.specs.Prelude.{◌≡◌, false};
ghost use Rattle.lazy_dfa.specs.Caches.{IsCacheOf};
ghost use Rattle.regex_pair.specs.Pairs.{AreCachesOf};

use crate::calling::building::{NoRegex, of_texts, of_trees};
use crate::calling::capacity::{bytes_of_ends, clears, is_too_small, settings_with_room};
use crate::calling::promised::first_match;
use crate::calling::refusals::{Then, of_build, of_search, of_text};
use crate::calling::searching::{count, first_range, match_at};
use crate::calling::trees::time_of_day;
use crate::calling::walking::{add_patterns, first_ends, walking_settings};
use hir_core::Hir;
use hir_regex::{Settings, build};
use lazy_dfa::dfa;
use lazy_dfa::dfa::DFA;
use pattern_search::parse_all;
use pattern_text::Config;
use regex_pair::regex::{Cache, Regex};
use search_types::{HalfMatch, Input, PatternSet, Span};
use std::alloc::Global;

/// A haystack with times of day.
fn times() -> &'static [u8] {
    b"at 12:30 or 12:45"
}

/// Drops a value. If it has many parts, a call is cheaper to prove than the drop of each of them.
fn give_up<T: Drop>(_value: T) {}

/// Both times of day are found, and none starts at the fourth byte.
fn finds_times(re: &Regex, cache: &mut Cache) -> bool
    requires own { AreCachesOf re.now cache.old }
    ensures own { AreCachesOf re.now cache.new }
{
    let Ok(Some(first)) = first_range(re, cache, times()) else {
        return false;
    };
    let Ok(None) = match_at(re, cache, times(), Span { start: 4, end: 17 }) else {
        return false;
    };
    let Ok(Some(same)) = first_match(re, cache, &Input::new(times())) else {
        return false;
    };
    let Ok(2) = count(re, cache, times()) else {
        return false;
    };
    first.start == 3 && first.end == 8 && same.start() == 3 && same.end() == 8
}

/// They are found by this regex.
fn is_regex_of_times(alloc: Global, re: &Regex) -> bool {
    let Ok(mut cache) = Cache::new(alloc, re) else {
        return false;
    };
    let found = finds_times(re, &mut cache);
    give_up(cache);
    found
}

fn times_by_trees(alloc: Global, trees: &[Hir]) -> bool {
    match of_trees(alloc, trees) {
        Ok(re) => is_regex_of_times(alloc, &re),
        Err(_) => false,
    }
}

fn times_by_text(alloc: Global) -> bool {
    match of_texts(alloc, &["[0-9]{2}:[0-9]{2}"]) {
        Ok(re) => is_regex_of_times(alloc, &re),
        Err(_) => false,
    }
}

#[test]
fn times_of_day(rt: HostRuntime) {
    let alloc = rt.alloc();
    let by_trees = match time_of_day(alloc) {
        Ok(tree) => times_by_trees(alloc, &[tree]),
        Err(_) => false,
    };
    assert!(rt; by_trees);
    assert!(rt; times_by_text(alloc));
}

/// The position of a group that isn't closed is shown.
fn shows_the_text(alloc: Global) -> bool {
    match of_texts(alloc, &["a", "b("]) {
        Err(NoRegex::Text(e)) => e.number == 1 && of_text(&e.error) == Then::Show(1, 2),
        _ => false,
    }
}

/// A search of a Greek letter is left to another engine.
fn leaves_a_letter(alloc: Global, re: &Regex) -> bool {
    let Ok(mut cache) = Cache::new(alloc, re) else {
        return false;
    };
    let found = first_range(re, &mut cache, b"\xCE\xB2");
    give_up(cache);
    match found {
        Err(e) => of_search(&e) == Then::AskAnother(0),
        Ok(_) => false,
    }
}

/// It is also left to another engine if words are searched for by characters.
fn leaves_letters(alloc: Global) -> bool {
    match of_texts(alloc, &["\\bx"]) {
        Ok(re) => leaves_a_letter(alloc, &re),
        Err(_) => false,
    }
}

/// Without the heuristic for such words, no regex is built.
fn changes_words(alloc: Global) -> bool {
    let Ok(trees) = parse_all(alloc, &["\\bx"], &Config::new()) else {
        return false;
    };
    match build(alloc, &trees, &Settings::new()) {
        Err(e) => of_build(&e) == Then::ChangeWords,
        Ok(_) => false,
    }
}

#[test]
fn refusals(rt: HostRuntime) {
    let alloc = rt.alloc();
    assert!(rt; shows_the_text(alloc));
    assert!(rt; leaves_letters(alloc));
    assert!(rt; changes_words(alloc));
}

fn is_at(end: Option<&HalfMatch>, pattern: usize, offset: usize) -> bool {
    match end {
        None => false,
        Some(end) => end.pattern().as_usize() == pattern && end.offset() == offset,
    }
}

/// `a+` ends after each `a` of `baa`, and `aa` after the last one.
fn tells_ends(alloc: Global, dfa: &DFA, cache: &mut dfa::Cache) -> bool
    requires own { IsCacheOf dfa.now cache.old }
    requires is_forward { dfa.now.nfa.automaton.reverse ≡ false }
    ensures own { IsCacheOf dfa.now cache.new }
{
    let Ok(ends) = first_ends(alloc, dfa, cache, &Input::new(b"baa"), 9) else {
        return false;
    };
    ends.len() == 3
        && is_at(ends.first(), 0, 2)
        && is_at(ends.get(1), 0, 3)
        && is_at(ends.get(2), 1, 3)
}

/// Of three patterns, the first two match.
fn tells_patterns(alloc: Global, dfa: &DFA, cache: &mut dfa::Cache) -> bool
    requires own { IsCacheOf dfa.now cache.old }
    requires is_forward { dfa.now.nfa.automaton.reverse ≡ false }
    ensures own { IsCacheOf dfa.now cache.new }
{
    let Ok(mut patterns) = PatternSet::new(alloc, 3) else {
        return false;
    };
    match add_patterns(dfa, cache, b"baa", &mut patterns) {
        Ok(()) => patterns.len() == 2,
        Err(_) => false,
    }
}

fn walks(alloc: Global, re: &Regex, cache: &mut Cache) -> bool
    requires own { AreCachesOf re.now cache.old }
{
    let dfa = re.forward();
    let cache = cache.forward_mut();
    tells_ends(alloc, dfa, cache) && tells_patterns(alloc, dfa, cache)
}

fn walks_by_regex(alloc: Global, re: &Regex) -> bool {
    let Ok(mut cache) = Cache::new(alloc, re) else {
        return false;
    };
    let is_walked = walks(alloc, re, &mut cache);
    give_up(cache);
    is_walked
}

fn walks_by_trees(alloc: Global, trees: &[Hir]) -> bool {
    match build(alloc, trees, &walking_settings()) {
        Ok(re) => walks_by_regex(alloc, &re),
        Err(_) => false,
    }
}

#[test]
fn walked_ends(rt: HostRuntime) {
    let alloc = rt.alloc();
    let is_walked = match parse_all(alloc, &["a+", "aa", "c"], &Config::new()) {
        Ok(trees) => walks_by_trees(alloc, &trees),
        Err(_) => false,
    };
    assert!(rt; is_walked);
}

/// A cache with room for two states is cleared, and reports this.
fn tells_its_cost(re: &Regex, cache: &mut Cache) -> bool
    requires own { AreCachesOf re.now cache.old }
    ensures own { AreCachesOf re.now cache.new }
{
    let Ok(2) = count(re, cache, times()) else {
        return false;
    };
    bytes_of_ends(re, cache) > 0 && clears(cache) > 1 && is_too_small(cache, 17, 17)
}

fn costs_by_regex(alloc: Global, re: &Regex) -> bool {
    let Ok(mut cache) = Cache::new(alloc, re) else {
        return false;
    };
    let is_reported = tells_its_cost(re, &mut cache);
    give_up(cache);
    is_reported
}

fn costs_by_trees(alloc: Global, trees: &[Hir]) -> bool {
    match build(alloc, trees, &settings_with_room(0)) {
        Ok(re) => costs_by_regex(alloc, &re),
        Err(_) => false,
    }
}

#[test]
fn costs(rt: HostRuntime) {
    let alloc = rt.alloc();
    let is_reported = match time_of_day(alloc) {
        Ok(tree) => costs_by_trees(alloc, &[tree]),
        Err(_) => false,
    };
    assert!(rt; is_reported);
}
