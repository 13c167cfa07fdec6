// What the client does: its last clause names only the patterns as text.
ghost use Rattle.std.specs.Prelude.{◌≡◌, ◌++◌, ◌∷◌, [], IfOk, IfSome, OnOk, map};
ghost use Rattle.look_core.specs.Terminators.{one_of};
ghost use Rattle.regex_pair.specs.Pairs.{AreCachesOf};
ghost use Rattle.regex_pair.specs.Taken.{IsWholeList};
ghost use Rattle.hir_regex.specs.Built.{FindsFirst};
ghost use Rattle.tests_client.specs.TextReports.{IsListed, AreAllMatches};

use hir_core::Hir;
use hir_regex::{Settings, all_loops_read, build, is_search_of, program_settings};
use pattern_search::regex_laws::regexes_answer_what_is_written;
use pattern_search::{PatternError, parse_all};
use pattern_text::Config;
use regex_pair::regex::{Cache, Regex};
use regex_pair::taken_laws::a_step_takes_one_more;
use search_types::{Input, Match, MatchError};
use std::alloc::{AllocError, Global};

/// Why there is no list.
#[derive(Clone, Copy, Debug, PartialEq, Eq)]
pub enum Fault {
    /// A pattern is rejected.
    Text(PatternError),
    /// No regex is built of the trees, or building it is out of memory.
    NotBuilt,
    /// A search fails.
    Search(MatchError),
}

fn push(all: &mut Vec<Match>, found: Match) -> Result<(), AllocError>
    ensures { OnOk result (all.new.items ≡ all.old.items ++ found ∷ []) }
{
    all.push(found)?;
    Ok(())
}

/// What the iterator gives.
fn list(
    alloc: Global,
    re: &Regex,
    cache: &mut Cache,
    input: Input<'_>,
) -> Result<Vec<Match>, MatchError>
    requires own { AreCachesOf re.now cache.old }
    ensures own { AreCachesOf re.now cache.new }
    ensures whole { IfOk result (λ all. IsWholeList re.now input.entry all.items) }
{
    a_step_takes_one_more();
    let mut all = Vec::new(alloc);
    for item in re.find_iter(cache, input) {
        match item {
            Ok(found) => push(&mut all, found)?,
            Err(e) => return Err(e),
        }
    }
    Ok(all)
}

/// Drops a value. If it has many parts, a call is cheaper to prove than the drop of each of them.
fn give_up<T: Drop>(_value: T) {}

/// What a regex that is built of the trees lists.
fn list_by_trees(
    alloc: Global,
    trees: &[Hir],
    settings: &Settings,
    input: Input<'_>,
) -> Result<Vec<Match>, Fault>
    ensures { IfOk result (λ all. IsListed trees.now settings.now input.entry all.items) }
{
    let re = match build(alloc, trees, settings) {
        Ok(re) => re,
        Err(e) => {
            give_up(e);
            return Err(Fault::NotBuilt);
        }
    };
    let mut cache = match Cache::new(alloc, &re) {
        Ok(cache) => cache,
        Err(_) => {
            give_up(re);
            return Err(Fault::NotBuilt);
        }
    };
    let all = list(alloc, &re, &mut cache, input);
    give_up(cache);
    give_up(re);
    match all {
        Ok(all) => Ok(all),
        Err(e) => Err(Fault::Search(e)),
    }
}

/// The program's settings, in UTF-8 mode or not.
fn settings_for(utf8: bool) -> Settings
    ensures utf8 { result.utf8 ≡ utf8 }
    ensures first { FindsFirst result }
    ensures feeds { result.line_terminator ≡ one_of 10 }
{
    program_settings(Settings {
        utf8,
        ..Settings::new()
    })
}

/// All matches of the patterns in the haystack. The result is `None` if the body of an unbounded repetition may
/// consume no byte, or if in UTF-8 mode something isn't UTF-8.
pub fn all_matches(
    alloc: Global,
    texts: &[&str],
    config: &Config,
    utf8: bool,
    haystack: &[u8],
) -> Result<Option<Vec<Match>>, Fault>
    ensures { IfOk result (λ reported. IfSome reported (λ all. AreAllMatches config.now (map (λ t. t.now) texts.now) utf8 haystack.now
        all.items)) }
{
    regexes_answer_what_is_written();
    let settings = settings_for(utf8);
    let input = Input::new(haystack);
    let trees = match parse_all(alloc, texts, config) {
        Ok(trees) => trees,
        Err(e) => return Err(Fault::Text(e)),
    };
    if !all_loops_read(&trees) {
        return Ok(None);
    }
    if !is_search_of(&trees, utf8, &input) {
        return Ok(None);
    }
    match list_by_trees(alloc, &trees, &settings, input) {
        Ok(all) => Ok(Some(all)),
        Err(e) => Err(e),
    }
}
