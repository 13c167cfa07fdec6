//! One overlapping search forward, which adds the patterns of all match ends to a set.
ghost use Rattle.std.specs.Prelude.{◌≡◌, ◌<◌};
ghost use Rattle.lazy_dfa.specs.OverlappingAnswers.{AnswersWhich};
ghost use Rattle.regex_pair.specs.Pairs.{AreCachesOf};

use lazy_dfa::Work;
use regex_pair::regex::{Cache, Regex};
use search_types::{Input, MatchError, PatternSet};
use std::sync::ledger::{Blank, Ledger};

/// An overlapping search over a whole span, with a count of its work that is made for this call.
pub(crate) fn add_counted<L: Ledger, M: Ledger>(
    re: &Regex,
    cache: &mut Cache,
    input: &Input<'_>,
    set: &mut PatternSet,
    first: Blank,
    second: Blank,
) -> Result<(), MatchError>
    requires own { AreCachesOf re.now cache.old }
    requires name1 { first.name ≡ L.name }
    requires parts1 { first.parts ≡ L.parts }
    requires some1 { 0 < first.parts }
    requires name2 { second.name ≡ M.name }
    requires parts2 { second.parts ≡ M.parts }
    requires some2 { 0 < second.parts }
    ensures own { AreCachesOf re.now cache.new }
    ensures answer { AnswersWhich re.now.forward cache.new.forward input.now set.old set.new result }
{
    let mut work = Work::<L, M>::new(first, second);
    re.forward()
        .try_which_overlapping_matches(cache.forward_mut(), input, set, &mut work)
}
