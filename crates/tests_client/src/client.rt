// What the client does: every clause names what the trees define.
ghost use Rattle.std.specs.Prelude.{◌≡◌, ◌++◌, ◌∷◌, [], List, IfOk, OnOk, MatchOption};
ghost use Rattle.hir_core.specs.Tree.{Tree};
ghost use Rattle.regex_pair.specs.Pairs.{AreCachesOf};
ghost use Rattle.hir_regex.specs.declared.settings.Settings.{Settings};
ghost use Rattle.hir_regex.specs.Built.{IsBuilt, FindsFirst, program_settings};
ghost use Rattle.tests_client.specs.ClientReports.{client_search, MayAsk, AreTheAnswer, IsTheList, IsClientReported};

use hir_core::Hir;
use hir_regex::headline::iterators_list_the_answers;
use hir_regex::{Settings, all_loops_read, build, find, is_search_of, program_settings};
use regex_pair::regex::{Cache, Regex};
use regex_pair::taken_laws::a_step_takes_one_more;
use search_types::{Input, Match, MatchError};
use std::alloc::{AllocError, Global};

/// Why there is no answer.
#[derive(Clone, Copy, Debug, PartialEq, Eq)]
pub enum Fault {
    /// No regex is built of the trees, or building it is out of memory.
    NotBuilt,
    /// A search fails.
    Refused(MatchError),
}

/// What the two searches found, and the list of the iterator.
#[derive(Drop)]
pub struct ProgressValue {
    pub first: Option<Match>,
    pub second: Option<Match>,
    pub all: Vec<Match>,
}

/// Makes a search twice over the same caches. In between, these are used for another search and then reset.
fn find_twice(
    re: &Regex,
    cache: &mut Cache,
    input: &Input<'_>,
    other: &Input<'_>,
) -> Result<(Option<Match>, Option<Match>), MatchError>
    requires own { AreCachesOf re.now cache.old }
    ensures own { AreCachesOf re.now cache.new }
    ensures defined { (xs : List Tree) (s : Settings) → IsBuilt xs s re.now → FindsFirst s → MayAsk xs s input.now →
        IfOk result (λ found. AreTheAnswer xs s input.now found.0 found.1) }
{
    let first = find(re, cache, input)?;
    find(re, cache, other)?;
    cache.reset(re)?;
    let second = find(re, cache, input)?;
    Ok((first, second))
}

fn push(all: &mut Vec<Match>, found: Match) -> Result<(), AllocError>
    ensures { OnOk result (all.new.items ≡ all.old.items ++ found ∷ []) }
{
    all.push(found)?;
    Ok(())
}

/// What the iterator gives.
fn list(
    alloc: Global,
    re: &Regex,
    cache: &mut Cache,
    input: Input<'_>,
) -> Result<Vec<Match>, MatchError>
    requires own { AreCachesOf re.now cache.old }
    ensures own { AreCachesOf re.now cache.new }
    ensures defined { (xs : List Tree) (s : Settings) → IsBuilt xs s re.now → FindsFirst s → MayAsk xs s input.entry →
        IfOk result (λ all. IsTheList xs s input.entry all.items) }
{
    iterators_list_the_answers();
    a_step_takes_one_more();
    let _start = input.start();
    let mut all = Vec::new(alloc);
    for item in re.find_iter(cache, input) {
        match item {
            Ok(found) => push(&mut all, found)?,
            Err(e) => return Err(e),
        }
    }
    Ok(all)
}

/// Both searches, and then the list.
fn answers(
    alloc: Global,
    re: &Regex,
    cache: &mut Cache,
    input: Input<'_>,
    other: &Input<'_>,
) -> Result<ProgressValue, Fault>
    requires own { AreCachesOf re.now cache.old }
    ensures { (xs : List Tree) (s : Settings) → IsBuilt xs s re.now → FindsFirst s → MayAsk xs s input.entry →
        IfOk result (λ reported. IsClientReported xs s input.entry reported.first reported.second reported.all.items) }
{
    let (first, second) = match find_twice(re, cache, &input, other) {
        Ok(found) => found,
        Err(e) => return Err(Fault::Refused(e)),
    };
    match list(alloc, re, cache, input) {
        Ok(all) => Ok(ProgressValue { first, second, all }),
        Err(e) => Err(Fault::Refused(e)),
    }
}

/// Drops a value. If it has many parts, a call is cheaper to prove than the drop of each of them.
fn give_up<T: Drop>(_value: T) {}

/// What a regex that is built of the trees answers.
fn ask_regex(
    alloc: Global,
    trees: &[Hir],
    settings: &Settings,
    input: Input<'_>,
    other: &Input<'_>,
) -> Result<ProgressValue, Fault>
    requires first { FindsFirst settings.now }
    requires asked { MayAsk trees.now settings.now input }
    ensures { IfOk result (λ reported. IsClientReported trees.now settings.now input.entry reported.first reported.second
        reported.all.items) }
{
    let re = match build(alloc, trees, settings) {
        Ok(re) => re,
        Err(e) => {
            give_up(e);
            return Err(Fault::NotBuilt);
        }
    };
    let mut cache = match Cache::new(alloc, &re) {
        Ok(cache) => cache,
        Err(_) => {
            give_up(re);
            return Err(Fault::NotBuilt);
        }
    };
    let reported = answers(alloc, &re, &mut cache, input, other);
    give_up(cache);
    give_up(re);
    reported
}

/// What a regex of the trees finds in the haystack, with the program's settings; `None` where the trees define no answer to that.
pub fn ask(
    alloc: Global,
    trees: &[Hir],
    said: Settings,
    haystack: &[u8],
    other: &[u8],
) -> Result<Option<ProgressValue>, Fault>
    ensures { IfOk result (λ reported. MatchOption reported (MayAsk trees.now (program_settings said) (client_search haystack.now) → ⊥)
        (λ t. IsClientReported trees.now (program_settings said) (client_search haystack.now) t.first t.second t.all.items)) }
{
    let settings = program_settings(said);
    let input = Input::new(haystack);
    if !all_loops_read(trees) {
        return Ok(None);
    }
    if !is_search_of(trees, settings.utf8, &input) {
        return Ok(None);
    }
    match ask_regex(alloc, trees, &settings, input, &Input::new(other)) {
        Ok(reported) => Ok(Some(reported)),
        Err(e) => Err(e),
    }
}
