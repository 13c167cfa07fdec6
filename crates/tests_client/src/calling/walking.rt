ghost use Rattle.std.specs.Prelude.{◌≡◌, ◌<◌, false};
ghost use Rattle.lazy_dfa.specs.Caches.{IsCacheOf};

use hir_regex::Settings;
use lazy_dfa::Work;
use lazy_dfa::dfa::{Cache, DFA, OverlappingState};
use search_types::{HalfMatch, Input, MatchError, MatchKind, PatternSet};
use std::alloc::{AllocError, Global};
use std::marker::Brand;
use std::sync::ledger::{Blank, Ledger};

/// Settings of a regex for overlapping searches: it looks for all matches.
pub fn walking_settings() -> Settings {
    let settings = Settings::new();
    Settings {
        dfa: settings.dfa.match_kind(MatchKind::All),
        ..settings
    }
}

fn add_patterns_counted<L: Ledger, M: Ledger>(
    dfa: &DFA,
    cache: &mut Cache,
    haystack: &[u8],
    patterns: &mut PatternSet,
    first: Blank,
    second: Blank,
) -> Result<(), MatchError>
    requires own { IsCacheOf dfa.now cache.old }
    requires is_forward { dfa.now.nfa.automaton.reverse ≡ false }
    requires name1 { first.name ≡ L.name }
    requires parts1 { first.parts ≡ L.parts }
    requires some1 { 0 < first.parts }
    requires name2 { second.name ≡ M.name }
    requires parts2 { second.parts ≡ M.parts }
    requires some2 { 0 < second.parts }
    ensures own { IsCacheOf dfa.now cache.new }
{
    let mut work = Work::<L, M>::new(first, second);
    dfa.try_which_overlapping_matches(cache, &Input::new(haystack), patterns, &mut work)
}

/// Adds to a set the patterns that match somewhere in a haystack.
pub fn add_patterns(
    dfa: &DFA,
    cache: &mut Cache,
    haystack: &[u8],
    patterns: &mut PatternSet,
) -> Result<(), MatchError>
    requires own { IsCacheOf dfa.now cache.old }
    requires is_forward { dfa.now.nfa.automaton.reverse ≡ false }
    ensures own { IsCacheOf dfa.now cache.new }
{
    let first = Blank::new(1);
    let second = Blank::new(1);
    add_patterns_counted::<Brand, Brand>(dfa, cache, haystack, patterns, first, second)
}

fn push(ends: &mut Vec<HalfMatch>, end: HalfMatch) -> Result<(), AllocError> {
    ends.push(end)?;
    Ok(())
}

fn first_ends_counted<L: Ledger, M: Ledger>(
    alloc: Global,
    dfa: &DFA,
    cache: &mut Cache,
    input: &Input<'_>,
    most: usize,
    first: Blank,
    second: Blank,
) -> Result<Vec<HalfMatch>, MatchError>
    requires own { IsCacheOf dfa.now cache.old }
    requires is_forward { dfa.now.nfa.automaton.reverse ≡ false }
    requires name1 { first.name ≡ L.name }
    requires parts1 { first.parts ≡ L.parts }
    requires some1 { 0 < first.parts }
    requires name2 { second.name ≡ M.name }
    requires parts2 { second.parts ≡ M.parts }
    requires some2 { 0 < second.parts }
    ensures own { IsCacheOf dfa.now cache.new }
{
    let mut work = Work::<L, M>::new(first, second);
    let mut ends = Vec::new(alloc);
    let mut state = OverlappingState::start();
    for _ in 0..most {
        dfa.try_search_overlapping_fwd(cache, input, &mut state, &mut work)?;
        match state.get_match() {
            Some(end) => push(&mut ends, end)?,
            None => return Ok(ends),
        }
    }
    Ok(ends)
}

/// The first ends of matches, those that overlap too, and no more than so many.
pub fn first_ends(
    alloc: Global,
    dfa: &DFA,
    cache: &mut Cache,
    input: &Input<'_>,
    most: usize,
) -> Result<Vec<HalfMatch>, MatchError>
    requires own { IsCacheOf dfa.now cache.old }
    requires is_forward { dfa.now.nfa.automaton.reverse ≡ false }
    ensures own { IsCacheOf dfa.now cache.new }
{
    let first = Blank::new(1);
    let second = Blank::new(1);
    first_ends_counted::<Brand, Brand>(alloc, dfa, cache, input, most, first, second)
}
