//! Which patterns match, by automata that find all matches.
ghost use Rattle.std.specs.Prelude.{◌≡◌, ◌++◌, ◌∷◌, [], ℕ, List, false, true, IfOk, IfSome, OnOk, length, replicate};
ghost use Rattle.regex_syntax.specs.declared.Config.{Config as TextConfig};
ghost use Rattle.search_core.specs.Utf8.{IsValidText};
ghost use Rattle.search_types.specs.declared.match_kind.MatchKind.TheVariants.{All as AllMatches};
ghost use Rattle.meta_regex.specs.Regexes.{AreBuiltOf, AreWhich};
ghost use Rattle.meta_regex.specs.Wordless.{AreWordlessOf, MayMatch};

use growing_regex::GrowingRegex;
use hir_regex::see_bytes;
use hir_regex::tree_walk_laws::{built_automata_are_walked, sets_get_the_patterns_of_spans};
use line_trees::laws::a_wordless_tree_matches_as_much;
use pattern_search::regex_laws::overlapping_searches_find_which_texts_match;
use pattern_search::search_from;
use search_core::PatternID;
use search_types::{MatchError, PatternSet};
use std::alloc::{AllocError, Global};

fn push(tests: &mut Vec<bool>, test: bool) -> Result<(), AllocError>
    ensures { OnOk result (tests.new.items ≡ tests.old.items ++ test ∷ []) }
{
    tests.push(test)?;
    Ok(())
}

/// An empty set with room for this many patterns, if there can be so many and memory suffices.
fn empty_set(alloc: Global, count: usize) -> Option<PatternSet>
    ensures { IfSome result (λ set. set ≡ replicate count false) }
{
    if PatternID::LIMIT < count {
        return None;
    }
    match PatternSet::new(alloc, count) {
        Ok(set) => Some(set),
        Err(_) => None,
    }
}

/// The tests of a set, one for each pattern that it has room for.
fn tests_of(alloc: Global, set: &PatternSet) -> Result<Vec<bool>, AllocError>
    ensures { IfOk result (λ tests. tests.items ≡ set.now) }
{
    let mut tests = Vec::new(alloc);
    for number in 0..set.capacity() {
        push(&mut tests, set.contains(PatternID::must(number)))?;
    }
    Ok(tests)
}

/// Adds the patterns that match to an empty set with room for all patterns. Of automata without looks at words it adds those that may match.
fn add_matching(
    automata: &mut GrowingRegex,
    haystack: &[u8],
    set: &mut PatternSet,
) -> Result<(), MatchError>
    ensures same { automata.new ≡ automata.old }
    ensures reported { (config : TextConfig) (texts : List (List ℕ)) → AreBuiltOf config texts AllMatches automata.old.pair →
        (config.utf8 ≡ true → IsValidText haystack.now) → set.old ≡ replicate (length texts) false →
        IfOk result (λ _. AreWhich config texts haystack.now set.new) }
    ensures may { (config : TextConfig) (texts : List (List ℕ)) → AreWordlessOf config texts AllMatches automata.old.pair →
        set.old ≡ replicate (length texts) false → length set.new ≡ length texts →
        IfOk result (λ _. MayMatch config texts haystack.now set.new) }
{
    see_bytes(haystack);
    overlapping_searches_find_which_texts_match();
    a_wordless_tree_matches_as_much();
    built_automata_are_walked();
    sets_get_the_patterns_of_spans();
    let input = search_from(haystack, 0);
    match automata.try_which_overlapping_matches(&input, set) {
        Ok(()) => {}
        Err(e) => return Err(e),
    }
    Ok(())
}

/// For each of so many patterns, whether it matches, if the automata can answer. Of automata without looks at words, whether it may match.
pub(crate) fn tests_by(
    alloc: Global,
    automata: &mut GrowingRegex,
    haystack: &[u8],
    count: usize,
) -> Option<Vec<bool>>
    ensures same { automata.new ≡ automata.old }
    ensures long { IfSome result (λ tests. length tests.items ≡ count) }
    ensures reported { (config : TextConfig) (texts : List (List ℕ)) → AreBuiltOf config texts AllMatches automata.old.pair →
        (config.utf8 ≡ true → IsValidText haystack.now) → count ≡ length texts →
        IfSome result (λ tests. AreWhich config texts haystack.now tests.items) }
    ensures may { (config : TextConfig) (texts : List (List ℕ)) → AreWordlessOf config texts AllMatches automata.old.pair →
        count ≡ length texts → IfSome result (λ tests. MayMatch config texts haystack.now tests.items) }
{
    let Some(mut set) = empty_set(alloc, count) else {
        return None;
    };
    match add_matching(automata, haystack, &mut set) {
        Ok(()) => {}
        Err(_) => return None,
    }
    let tests = match tests_of(alloc, &set) {
        Ok(tests) => tests,
        Err(_) => return None,
    };
    if tests.len() != count {
        return None;
    }
    Some(tests)
}
