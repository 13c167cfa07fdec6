ghost use Rattle.std.specs.Prelude.{◌≡◌, ◌≤◌, [], Some, Ok};
ghost use Rattle.search_types.specs.Found.{Found};
ghost use Rattle.search_types.specs.Inputs.{Search};
ghost use Rattle.regex_pair.specs.FindSteps.{finds_from};
ghost use Rattle.regex_pair.specs.Finding.{finding_all};
ghost use Rattle.regex_pair.specs.Joined.{joined};
ghost use Rattle.regex_pair.specs.Pairs.{Pair};
ghost use Rattle.regex_pair.specs.Taken.{AreTaken};
ghost use Rattle.regex_pair.specs.declared.find_matches.FindMatches.{FindMatches};

use regex_pair::pair_laws::matches_lie_in_their_span;
use regex_pair::regex::{Cache, Regex};
use regex_pair::taken_laws::nothing_is_taken_at_first;
use std::alloc::{AllocError, Global};

pub fn caches_of(alloc: Global, re: &Regex) -> Result<Cache, AllocError> {
    re.create_cache(alloc)
}

pub fn matches_end_within()
    ensures { (p : Pair) (q : Search) (f : Found) → joined p q ≡ Ok (Some f) → f.end ≤ q.end }
{
    matches_lie_in_their_span();
}

pub fn bytes_of_both(cache: &Cache) -> usize {
    cache.memory_usage()
}

pub fn loops_begin_with_nothing()
    ensures { (p : Pair) (q : Search) (it : FindMatches) → finds_from it ≡ finding_all q → AreTaken p q [] (finds_from it) }
{
    nothing_is_taken_at_first();
}
