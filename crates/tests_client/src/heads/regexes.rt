ghost use Rattle.std.specs.Prelude.{◌≡◌, ℕ, Bool, true, List, All, Option, None, Ok};
ghost use Rattle.look_core.specs.Looks.{holds, IsWordSet};
ghost use Rattle.look_core.specs.Terminators.{Terminator};
ghost use Rattle.hir_core.specs.Facts.{LoopsRead};
ghost use Rattle.hir_core.specs.Tree.{Tree};
ghost use Rattle.search_types.specs.AllAnswers.{EndsRise};
ghost use Rattle.search_types.specs.Found.{Found};
ghost use Rattle.search_types.specs.Inputs.{Search};
ghost use Rattle.regex_pair.specs.Joined.{joined};
ghost use Rattle.regex_pair.specs.PairAnswers.{AnswersPair};
ghost use Rattle.regex_pair.specs.Pairs.{Pair, PairCache, pair_built};
ghost use Rattle.nfa_core.specs.NfaValue.{Nfa};
ghost use Rattle.lazy_dfa.specs.ConfigValue.{DfaOptions};
ghost use Rattle.hir_regex.specs.Built.{FindsFirst, IsBuilt};
ghost use Rattle.hir_regex.specs.Choices.{Query, answer_from, answers_of};
ghost use Rattle.hir_regex.specs.Headline.{answer_to};
ghost use Rattle.hir_regex.specs.ReachLaws.{HasItsClasses};
ghost use Rattle.hirscan.specs.Readers.{IsReader, number};
ghost use Rattle.hirscan.specs.Reads.{Reads};
ghost use Rattle.hir_regex.specs.Regexes.{IsRegexOf, IsSearchOf, query_of};
ghost use Rattle.hirscan.specs.Takes.{QueryValue};
ghost use Rattle.hir_regex.specs.OverlappingTrees.{IsOverlappingDfa};
ghost use Rattle.hirscan.specs.Words.{IsNumber};
ghost use Rattle.hir_regex.specs.declared.settings.Settings.{Settings as SettingsValue};

use hir_core::Hir;
use hir_regex::headline::searches_answer_what_trees_define;
use hir_regex::laws::ends_of_answers_rise;
use hir_regex::reach_laws::bytes_of_one_class_are_interchangeable;
use hir_regex::search_laws::answers_are_those_of_the_trees;
use hir_regex::tree_walk_laws::built_automata_are_walked;
use hir_regex::{Settings, build};
use hirscan::reading_laws::texts_read_in_one_way;
use hirscan::word_laws::numbers_are_read;
use lazy_dfa::BuildError;
use regex_pair::regex::Regex;
use std::alloc::Global;

pub fn regex_of(alloc: Global, trees: &[Hir]) -> Result<Regex, BuildError> {
    build(alloc, trees, &Settings::new())
}

pub fn answers_are_defined()
    ensures { (xs : List Tree) (s : SettingsValue) (p : Pair) → IsBuilt xs s p → FindsFirst s → (q : Search) →
        IsSearchOf xs s.utf8 q → All LoopsRead xs →
        (c : PairCache) (o : Option Found) → AnswersPair p c q (Ok o) → (w : ℕ → Bool) → IsWordSet w → o ≡ answer_to w xs s q }
{
    searches_answer_what_trees_define();
}

pub fn answers_rise()
    ensures { (q : Query) (s : ℕ) → EndsRise None (answers_of q s) }
{
    ends_of_answers_rise();
}

pub fn built_pairs_have_their_classes()
    ensures { (n m : Nfa) (o : DfaOptions) (p : Pair) → pair_built n m o ≡ Ok p → HasItsClasses p }
{
    bytes_of_one_class_are_interchangeable();
}

pub fn heads_read_once()
    ensures { (text : List ℕ) (p q r : QueryValue) (n m : ℕ) → Reads text p q n → Reads text p r m → q ≡ r }
{
    texts_read_in_one_way();
}

pub fn joined_answers_are_defined()
    ensures { (xs : List Tree) (u : Bool) (t : Terminator) (p : Pair) → IsRegexOf xs u t p → (q : Search) →
        IsSearchOf xs u q → (w : ℕ → Bool) →
        IsWordSet w → All LoopsRead xs → (o : Option Found) → joined p q ≡ Ok o →
        o ≡ answer_from (query_of xs u (holds w t q.haystack) q) q.start }
{
    answers_are_those_of_the_trees();
}

pub fn starts_can_be_walked()
    ensures { (xs : List Tree) (s : SettingsValue) (p : Pair) → IsBuilt xs s p →
        IsOverlappingDfa xs true s.utf8 s.line_terminator p.reverse }
{
    built_automata_are_walked();
}

pub fn readers_read_numbers()
    ensures { IsReader number IsNumber }
{
    numbers_are_read();
}
