//! The automaton of patterns for streams.
ghost use Rattle.std.specs.Prelude.{◌≡◌, IfErr, IfOk, map};
ghost use Rattle.lazy_dfa.specs.Caches.{IsCacheOf};
ghost use Rattle.stream_regex.specs.StreamRegexes.{IsNewError, IsStreamRegexOf, first_word_look, has_word_look};

use crate::errors::NewError;
use crate::options::Options;
use hir_core::Hir;
use hir_regex::build;
use lazy_dfa::dfa::{Cache, DFA};
use pattern_search::parse_all;
use regex_pair::regex::Regex;
use std::alloc::{AllocError, Global};
use std::marker::Model;

/// Patterns for input that comes in pieces, as a lazy automaton that finds all their matches. It never changes, so many streams may use it,
/// each with any of its caches. It never gives up at a byte.
#[derive(Drop)]
pub struct StreamRegex {
    pair: Regex,
}

impl Model for StreamRegex {
    ghost use Rattle.lazy_dfa.specs.Dfas.{Dfa};

    ghost Value = { Dfa };

    ghost view = { λ r. r.pair.forward };
}

/// Whether the tree has a Unicode word look.
fn has_word_look(tree: &Hir) -> bool
    ensures { result ≡ has_word_look tree.now }
{
    tree.properties().look_set().contains_word_unicode()
}

/// The number of the first pattern with a Unicode word look.
fn first_word_look(trees: &[Hir]) -> Option<usize>
    ensures { result ≡ first_word_look trees.now }
{
    trees.iter().position(|x| has_word_look(x))
}

impl StreamRegex {
    /// Makes the automaton of patterns. Looks at word boundaries by Unicode are rejected, since an automaton gives up at the first byte above
    /// 7F that it reads next to one.
    pub fn new(alloc: Global, texts: &[&str], options: &Options) -> Result<StreamRegex, NewError>
        ensures made { IfOk result (IsStreamRegexOf options.now (map (λ t. t.now) texts.now)) }
        ensures refused { IfErr result (IsNewError options.now (map (λ t. t.now) texts.now)) }
    {
        let trees = match parse_all(alloc, texts, &options.syntax) {
            Ok(trees) => trees,
            Err(e) => return Err(NewError::Text(e)),
        };
        if let Some(number) = first_word_look(&trees) {
            return Err(NewError::WordLook(number));
        }
        let settings = options.settings();
        match build(alloc, &trees, &settings) {
            Ok(pair) => Ok(StreamRegex { pair }),
            Err(e) => Err(NewError::Build(e)),
        }
    }

    /// The automaton, which [`Stream::feed`](streams::Stream::feed) and `close` need.
    pub fn automaton(&self) -> &DFA
        ensures { result.now ≡ self.now }
    {
        self.pair.forward()
    }

    /// A cache for this automaton, which holds no states. Many streams may share it.
    pub fn create_cache(&self, alloc: Global) -> Result<Cache, AllocError>
        ensures { IfOk result (IsCacheOf self.now) }
    {
        let cache = Cache::new(alloc, self.automaton())?;
        Ok(cache)
    }
}
