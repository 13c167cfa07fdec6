//! All matches of a search, by the iterator.
ghost use Rattle.std.specs.Prelude.{◌≡◌, ◌++◌, ◌∷◌, ◌⊎◌, [], ℕ, Err, IfErr, IfOk, OnOk};
ghost use Rattle.search_types.specs.declared.match_error.MatchErrorKind.TheVariants.{NoMemory};
ghost use Rattle.regex_pair.specs.Finding.{search_at};
ghost use Rattle.regex_pair.specs.PairAnswers.{AnswersPair};
ghost use Rattle.regex_pair.specs.Pairs.{AreCachesOf, PairCache};
ghost use Rattle.regex_pair.specs.Taken.{IsWholeList};

use regex_pair::regex::{Cache, Regex};
use regex_pair::taken_laws::{a_step_is_refused_as_a_search_is, a_step_takes_one_more};
use search_types::{Input, Match, MatchError};
use std::alloc::{AllocError, Global};

fn push(all: &mut Vec<Match>, found: Match) -> Result<(), AllocError>
    ensures { OnOk result (all.new.items ≡ all.old.items ++ found ∷ []) }
{
    all.push(found)?;
    Ok(())
}

/// Collects the matches of the iterator.
pub(crate) fn list(
    alloc: Global,
    re: &Regex,
    cache: &mut Cache,
    input: Input<'_>,
) -> Result<Vec<Match>, MatchError>
    requires own { AreCachesOf re.now cache.old }
    ensures own { AreCachesOf re.now cache.new }
    ensures whole { IfOk result (λ all. IsWholeList re.now input.entry all.items) }
    ensures refused { IfErr result (λ e. (e ≡ NoMemory) ⊎
        ((k : ℕ) × (c : PairCache) × AnswersPair re.now c (search_at input.entry k) (Err e))) }
{
    a_step_takes_one_more();
    a_step_is_refused_as_a_search_is();
    let mut all = Vec::new(alloc);
    for item in re.find_iter(cache, input) {
        match item {
            Ok(found) => push(&mut all, found)?,
            Err(e) => return Err(e),
        }
    }
    Ok(all)
}
