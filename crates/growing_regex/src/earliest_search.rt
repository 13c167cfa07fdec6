//! One half search forward for the earliest end.
ghost use Rattle.std.specs.Prelude.{◌≡◌, ◌≤◌, ◌<◌, length};
ghost use Rattle.lazy_dfa.specs.SearchAnswers.{Answers};
ghost use Rattle.regex_pair.specs.Pairs.{AreCachesOf};
ghost use Rattle.growing_regex.specs.Earliest.{earliest_search, end_result};

use lazy_dfa::Work;
use regex_pair::regex::{Cache, Regex};
use search_types::{HalfMatch, Input, MatchError};
use std::sync::ledger::{Blank, Ledger};

/// The search of a block from an offset on.
pub(crate) fn search_from<'h>(block: &'h [u8], at: usize) -> Input<'h>
    requires { at ≤ length block.now }
    ensures { result ≡ earliest_search block.now at (length block.now) }
{
    let mut input = Input::new(block);
    input.set_start(at);
    input.set_earliest(true);
    input
}

/// A half search forward, with a count of its work that is made for this call.
pub(crate) fn search_counted<L: Ledger, M: Ledger>(
    re: &Regex,
    cache: &mut Cache,
    input: &Input<'_>,
    first: Blank,
    second: Blank,
) -> Result<Option<HalfMatch>, MatchError>
    requires own { AreCachesOf re.now cache.old }
    requires name1 { first.name ≡ L.name }
    requires parts1 { first.parts ≡ L.parts }
    requires some1 { 0 < first.parts }
    requires name2 { second.name ≡ M.name }
    requires parts2 { second.parts ≡ M.parts }
    requires some2 { 0 < second.parts }
    ensures own { AreCachesOf re.now cache.new }
    ensures untouched { cache.new.reverse ≡ cache.old.reverse }
    ensures answer { Answers re.now.forward cache.new.forward input.now result }
{
    let mut work = Work::<L, M>::new(first, second);
    re.forward()
        .try_search_fwd(cache.forward_mut(), input, &mut work)
}

/// The end alone that a search found, or its error.
pub(crate) fn end_of(
    found: Result<Option<HalfMatch>, MatchError>,
) -> Result<Option<usize>, MatchError>
    ensures { result ≡ end_result found }
{
    match found {
        Ok(Some(half)) => Ok(Some(half.offset())),
        Ok(None) => Ok(None),
        Err(e) => Err(e),
    }
}
