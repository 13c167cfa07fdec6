ghost use Rattle.std.specs.Prelude.{◌≡◌, ℕ, Bool, true, List, All, None, IfOk, IfErr};
ghost use Rattle.look_core.specs.Looks.{IsWordSet};
ghost use Rattle.hir_core.specs.Facts.{LoopsRead};
ghost use Rattle.hir_core.specs.Tree.{Tree};
ghost use Rattle.search_types.specs.declared.match_error.MatchErrorKind.TheVariants.{NoMemory};
ghost use Rattle.search_types.specs.Modes.{is_supported};
ghost use Rattle.lazy_dfa.specs.ConfigValue.{clears_of, starts_each_of};
ghost use Rattle.regex_pair.specs.Pairs.{AreCachesOf};
ghost use Rattle.hir_regex.specs.declared.settings.Settings.{Settings};
ghost use Rattle.hir_regex.specs.Built.{IsBuilt, FindsFirst, quit_bytes_for};
ghost use Rattle.hir_regex.specs.Headline.{answer_to, IsQuiet};
ghost use Rattle.hir_regex.specs.Regexes.{IsSearchOf};

use hir_regex::find;
use hir_regex::headline::searches_answer_where_no_byte_quits;
use regex_pair::regex::{Cache, Regex};
use search_types::{Input, Match, MatchError};

/// The first match. If the body of every unbounded repetition consumes at least one byte, it is the one that the trees define. If no byte
/// quits, no limit of clears is set and the mode is supported, the only error is out of memory.
pub fn first_match(
    re: &Regex,
    cache: &mut Cache,
    input: &Input<'_>,
) -> Result<Option<Match>, MatchError>
    requires own { AreCachesOf re.now cache.old }
    ensures own { AreCachesOf re.now cache.new }
    ensures defined { (xs : List Tree) (s : Settings) → IsBuilt xs s re.now → FindsFirst s → IsSearchOf xs s.utf8 input.now →
        All LoopsRead xs → (words : ℕ → Bool) → IsWordSet words → IfOk result (λ o. o ≡ answer_to words xs s input.now) }
    ensures sure { (xs : List Tree) (s : Settings) → IsBuilt xs s re.now → FindsFirst s → IsSearchOf xs s.utf8 input.now →
        clears_of s.dfa ≡ None → is_supported (starts_each_of s.dfa) input.now.anchored ≡ true →
        IsQuiet (quit_bytes_for xs s.dfa) input.now → IfErr result (λ e. e ≡ NoMemory) }
{
    searches_answer_where_no_byte_quits();
    match find(re, cache, input) {
        Ok(found) => Ok(found),
        Err(e) => Err(e),
    }
}
