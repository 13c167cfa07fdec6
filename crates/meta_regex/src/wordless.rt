//! Searches for the patterns without their looks at words by characters.
ghost use Rattle.std.specs.Prelude.{◌≡◌, ◌≤◌, ℕ, List, IfOk, IfSome, length, option_map};
ghost use Rattle.regex_syntax.specs.declared.Config.{Config as TextConfig};
ghost use Rattle.search_types.specs.declared.match_kind.MatchKind.TheVariants.{LeftmostFirst};
ghost use Rattle.pattern_search.specs.Texts.{AllMean};
ghost use Rattle.meta_regex.specs.Wordless.{AreWordlessOf, MayBeginAt};

use crate::options::Options;
use growing_regex::GrowingRegex;
use hir_core::Hir;
use hir_regex::headline::searches_answer_leftmost_whatever_the_loops;
use hir_regex::{Settings, build, see_bytes};
use line_trees::all_wordless_trees;
use line_trees::laws::a_wordless_tree_matches_as_much;
use pattern_search::search_from;
use regex_pair::regex::Regex;
use search_types::{Match, MatchError, MatchKind};
use std::alloc::Global;

/// Whether one of the trees looks for words by characters. Automata of these can give up.
fn one_looks_for_words(trees: &[Hir]) -> bool {
    trees.iter().any(|tree| tree.properties().look_set().contains_word_unicode())
}

/// The trees, if one of them looks for words by characters.
pub(crate) fn if_they_look_for_words(trees: Vec<Hir>) -> Option<Vec<Hir>>
    ensures { IfSome result (λ kept. kept.items ≡ trees.items) }
{
    if one_looks_for_words(&trees) {
        Some(trees)
    } else {
        None
    }
}

/// The start of a match, if there is one.
fn start_of(found: Option<Match>) -> Option<usize>
    ensures { result ≡ option_map (λ f. f.start) found }
{
    match found {
        Some(it) => Some(it.start()),
        None => None,
    }
}

/// Builds the automata of the patterns with these trees, without their looks at words, if that is possible. They find leftmost-first matches
/// in any bytes.
pub(crate) fn wordless_pair(alloc: Global, trees: &[Hir], options: &Options) -> Option<Regex>
    ensures { IfSome result (λ pair. (config : TextConfig) (texts : List (List ℕ)) → AllMean config texts trees.now →
        AreWordlessOf config texts LeftmostFirst pair) }
{
    let Ok(wordless) = all_wordless_trees(alloc, trees) else {
        return None;
    };
    let settings = Settings {
        utf8: false,
        ..options.settings(MatchKind::LeftmostFirst)
    };
    let Ok(pair) = build(alloc, &wordless, &settings) else {
        return None;
    };
    Some(pair)
}

/// The least start of a match without looks at words, from an offset on, by automata for the patterns without such looks. A search for the
/// patterns may begin there. If there is none, the patterns have no match from the offset on.
///
/// The automata of a regex give up next to a byte above ASCII if a pattern has such looks. These don't. They match each span that the
/// patterns match, and may match more. So no match of the patterns starts before the first of theirs.
pub(crate) fn least_start(
    automata: &mut GrowingRegex,
    haystack: &[u8],
    from: usize,
) -> Result<Option<usize>, MatchError>
    requires within { from ≤ length haystack.now }
    ensures same { automata.new ≡ automata.old }
    ensures begins { (config : TextConfig) (texts : List (List ℕ)) → AreWordlessOf config texts LeftmostFirst automata.old.pair →
        IfOk result (MayBeginAt config texts haystack.now from) }
{
    see_bytes(haystack);
    a_wordless_tree_matches_as_much();
    searches_answer_leftmost_whatever_the_loops();
    let found = automata.find(&search_from(haystack, from))?;
    Ok(start_of(found))
}
