ghost use Rattle.std.specs.Prelude.{◌≡◌, ℕ, List};
ghost use Rattle.regex_syntax.specs.declared.Config.{Config as Options};
ghost use Rattle.look_core.specs.Terminators.{one_of};
ghost use Rattle.hir_core.specs.Tree.{Tree};
ghost use Rattle.regex_pair.specs.Pairs.{Pair};
ghost use Rattle.hir_regex.specs.Built.{FindsFirst, IsBuilt};
ghost use Rattle.hir_regex.specs.declared.settings.Settings.{Settings};
ghost use Rattle.pattern_search.specs.Texts.{AllMean};
ghost use Rattle.pattern_search.specs.Written.{AnswersWhatIsWritten, FindsWhatIsWritten};

use hir_core::Hir;
use pattern_search::laws::searches_find_what_is_written;
use pattern_search::regex_laws::regexes_answer_what_is_written;
use pattern_search::{PatternError, parse_all};
use pattern_text::Config;
use std::alloc::Global;

pub fn trees_of(alloc: Global, texts: &[&str]) -> Result<Vec<Hir>, PatternError> {
    parse_all(alloc, texts, &Config::new())
}

pub fn trees_find_what_is_written()
    ensures { (c : Options) (texts : List (List ℕ)) (xs : List Tree) → AllMean c texts xs → FindsWhatIsWritten c texts xs }
{
    searches_find_what_is_written();
}

pub fn regexes_find_what_is_written()
    ensures { (c : Options) (texts : List (List ℕ)) (xs : List Tree) → AllMean c texts xs → (s : Settings) (p : Pair) →
        IsBuilt xs s p → FindsFirst s → s.line_terminator ≡ one_of 10 → AnswersWhatIsWritten c texts xs s p }
{
    regexes_answer_what_is_written();
}
