//! Searches over a regex that is built of trees, for callers that count no work.
ghost use Rattle.std.specs.Prelude.{◌≡◌, ◌<◌, ◌↔◌, ℕ, Bool, List, All, None, Ok, IfOk, IsTrue};
ghost use Rattle.std.specs.List.{list_all};
ghost use Rattle.search_core.specs.Utf8.{IsValidText};
ghost use Rattle.look_core.specs.Looks.{IsWordSet};
ghost use Rattle.hir_core.specs.Facts.{LoopsRead, is_utf8_tree};
ghost use Rattle.hir_core.specs.Tree.{Tree};
ghost use Rattle.regex_pair.specs.PairAnswers.{AnswersPair};
ghost use Rattle.regex_pair.specs.Pairs.{AreCachesOf, PairGrowsOrClears};
ghost use Rattle.hir_regex.specs.declared.settings.Settings.{Settings};
ghost use Rattle.hir_regex.specs.BrokenText.{first_broken};
ghost use Rattle.hir_regex.specs.Built.{IsBuilt, FindsFirst};
ghost use Rattle.hir_regex.specs.Headline.{answer_to};
ghost use Rattle.hir_regex.specs.Regexes.{IsSearchOf};

use hir_core::Hir;
use regex_pair::regex::{Cache, Regex, search_once};
use search_types::{Input, Match, MatchError};

/// How many bytes of the haystack are UTF-8 from its start on, or `None` if all are.
#[tactic(auto, using(crate::proofs::BrokenTextLemmas::whole_text, crate::proofs::BrokenTextLemmas::broken_text))]
pub fn first_broken(h: &[u8]) -> Option<usize>
    ensures { result ≡ first_broken h.now }
{
    match str::from_utf8(h) {
        Ok(_) => None,
        Err(e) => Some(e.valid_up_to()),
    }
}

/// A haystack consists of bytes.
pub fn see_bytes(bytes: &[u8])
    ensures { All (λ byte. byte < 256) bytes.now }
{}

/// Whether each tree is known to mean UTF-8 alone.
fn are_utf8(trees: &[Hir]) -> bool
    ensures { result ≡ list_all is_utf8_tree trees.now }
{
    trees.iter().all(|x| x.properties().is_utf8())
}

/// Whether the haystack is UTF-8.
fn is_text(h: &[u8]) -> bool
    ensures { IsTrue result ↔ IsValidText h.now }
{
    match first_broken(h) {
        None => true,
        Some(_) => false,
    }
}

/// Whether the laws of searches are about this one ([`headline`](crate::headline)): it isn't for the earliest end, and in UTF-8
/// mode the haystack is UTF-8, and so is what the trees mean.
pub fn is_search_of(trees: &[Hir], utf8: bool, input: &Input<'_>) -> bool
    ensures { IsTrue result ↔ IsSearchOf trees.now utf8 input.now }
{
    let h = input.haystack();
    see_bytes(h);
    if input.get_earliest() {
        return false;
    }
    if !utf8 {
        return true;
    }
    if !are_utf8(trees) {
        return false;
    }
    is_text(h)
}

/// One search, with the errors of [`Regex::try_search`]. Suppose that the regex is built of trees and finds the leftmost-first
/// match, and that the search is one of the laws' ([`is_search_of`], [`all_loops_read`](crate::all_loops_read)). Then an answer
/// is the one that the trees define. If the span's start is after its end, the search returns `Ok(None)` and leaves the caches as
/// they were.
pub fn find(re: &Regex, cache: &mut Cache, input: &Input<'_>) -> Result<Option<Match>, MatchError>
    requires own { AreCachesOf re.now cache.old }
    ensures own { AreCachesOf re.now cache.new }
    ensures answer { AnswersPair re.now cache.new input.now result }
    ensures done { input.now.end < input.now.start → (result ≡ Ok None) × (cache.new ≡ cache.old) }
    ensures defined { (xs : List Tree) (s : Settings) → IsBuilt xs s re.now → FindsFirst s → IsSearchOf xs s.utf8 input.now →
        All LoopsRead xs → (words : ℕ → Bool) → IsWordSet words → IfOk result (λ o. o ≡ answer_to words xs s input.now) }
    ensures kept { PairGrowsOrClears re.now cache.old cache.new }
{
    match search_once(re, cache, input) {
        Ok(found) => Ok(found),
        Err(e) => Err(e),
    }
}
