ghost use Rattle.regex_pair.specs.Pairs.{AreCachesOf};

use hir_regex::find;
use regex_pair::regex::{Cache, Regex};
use search_types::{Anchored, Input, Match, MatchError, Span};
use std::ops::Range;

/// Where the first match of a haystack stands.
pub fn first_range(
    re: &Regex,
    cache: &mut Cache,
    haystack: &[u8],
) -> Result<Option<Range<usize>>, MatchError>
    requires own { AreCachesOf re.now cache.old }
    ensures own { AreCachesOf re.now cache.new }
{
    match find(re, cache, &Input::new(haystack)) {
        Ok(Some(found)) => Ok(Some(found.range())),
        Ok(None) => Ok(None),
        Err(e) => Err(e),
    }
}

/// The match that starts where a span does and ends in it; none where the span isn't one of the haystack.
pub fn match_at(
    re: &Regex,
    cache: &mut Cache,
    haystack: &[u8],
    span: Span,
) -> Result<Option<Match>, MatchError>
    requires own { AreCachesOf re.now cache.old }
    ensures own { AreCachesOf re.now cache.new }
{
    let input = Input::new(haystack);
    if !input.fits(span) {
        return Ok(None);
    }
    find(re, cache, &input.span(span).anchored(Anchored::Yes))
}

/// How many matches a haystack has, none of which overlap.
pub fn count(re: &Regex, cache: &mut Cache, haystack: &[u8]) -> Result<usize, MatchError>
    requires own { AreCachesOf re.now cache.old }
    ensures own { AreCachesOf re.now cache.new }
{
    let mut count: usize = 0;
    for item in re.find_iter(cache, Input::new(haystack)) {
        match item {
            Ok(_) => count = count.saturating_add(1),
            Err(e) => return Err(e),
        }
    }
    Ok(count)
}
