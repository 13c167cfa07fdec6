ghost use Rattle.std.specs.Prelude.{◌≡◌, Some};
ghost use Rattle.thompson_nfa.specs.Configs.{no_options, changed_by, utf8_of, reverse_of, limit_of, shrink_of, captures_of, terminator_of};
ghost use Rattle.thompson_nfa.specs.Configs.{is_any, is_shrunk, all_or_none};

use crate::which_captures::WhichCaptures;
use look_core::{AsciiWord, LineTerm, LookMatcher};
use std::marker::Model;

/// How a [`Compiler`](crate::Compiler) makes automata. An option that isn't set has its default.
///
/// As `regex_automata::nfa::thompson::Config`.
#[derive(Clone, Copy, Debug)]
pub struct Config {
    utf8: Option<bool>,
    reverse: Option<bool>,
    nfa_size_limit: Option<Option<usize>>,
    shrink: Option<bool>,
    which_captures: Option<WhichCaptures>,
    /// What a look matcher has in addition to ASCII words: the line terminator.
    line_terminator: Option<LineTerm>,
}

impl Model for Config {
    ghost use Rattle.thompson_nfa.specs.Configs.{Options};

    ghost Value = { Options };

    ghost view = { λ c. record {
      utf8 = c.utf8;
      reverse = c.reverse;
      size_limit = c.nfa_size_limit;
      shrink = c.shrink;
      captures = c.which_captures;
      terminator = c.line_terminator;
    } };

    ghost inverse = { λ o. record {
      utf8 = o.utf8;
      reverse = o.reverse;
      nfa_size_limit = o.size_limit;
      shrink = o.shrink;
      which_captures = o.captures;
      line_terminator = o.terminator;
    } };
}

impl Config {
    /// No option is set.
    pub fn new() -> Config
        ensures { result ≡ no_options }
    {
        Config {
            utf8: None,
            reverse: None,
            nfa_size_limit: None,
            shrink: None,
            which_captures: None,
            line_terminator: None,
        }
    }

    /// Whether an empty match counts only between characters of UTF-8. On by default.
    pub fn utf8(self, yes: bool) -> Config
        ensures { result ≡ record self { utf8 = Some yes } }
    {
        Config {
            utf8: Some(yes),
            ..self
        }
    }

    /// Whether the automaton reads from the end of a text to its start. Off by default.
    pub fn reverse(self, yes: bool) -> Config
        ensures { result ≡ record self { reverse = Some yes } }
    {
        Config {
            reverse: Some(yes),
            ..self
        }
    }

    /// How many bytes the states may take, as [`Builder`](nfa_core::Builder) counts them. `None`, the
    /// default, means any number.
    pub fn nfa_size_limit(self, bytes: Option<usize>) -> Config
        ensures { result ≡ record self { size_limit = Some bytes } }
    {
        Config {
            nfa_size_limit: Some(bytes),
            ..self
        }
    }

    /// Whether an automaton that reads in reverse is made smaller, at the cost of the time that this takes.
    /// Off by default.
    pub fn shrink(self, yes: bool) -> Config
        ensures { result ≡ record self { shrink = Some yes } }
    {
        Config {
            shrink: Some(yes),
            ..self
        }
    }

    /// Whether there are states for all groups or for none.
    #[deprecated(note = "which_captures tells apart the whole match")]
    pub fn captures(self, yes: bool) -> Config
        ensures { result ≡ record self { captures = Some (all_or_none yes) } }
    {
        if yes {
            return self.which_captures(WhichCaptures::All);
        }
        self.which_captures(WhichCaptures::None)
    }

    /// For which groups there are states. By default for all.
    pub fn which_captures(self, which_captures: WhichCaptures) -> Config
        ensures { result ≡ record self { captures = Some which_captures } }
    {
        Config {
            which_captures: Some(which_captures),
            ..self
        }
    }

    /// The matcher that decides where looks hold. If none is set, lines end at the line feed.
    pub fn look_matcher(self, matcher: LookMatcher<AsciiWord>) -> Config
        ensures { result ≡ record self { terminator = Some matcher.terminator } }
    {
        Config {
            line_terminator: Some(matcher.get_line_terminator()),
            ..self
        }
    }

    /// See [`utf8`](Config::utf8).
    pub fn get_utf8(&self) -> bool
        ensures { result ≡ utf8_of self.now }
    {
        self.utf8.unwrap_or(true)
    }

    /// See [`reverse`](Config::reverse).
    pub fn get_reverse(&self) -> bool
        ensures { result ≡ reverse_of self.now }
    {
        self.reverse.unwrap_or(false)
    }

    /// See [`nfa_size_limit`](Config::nfa_size_limit).
    pub fn get_nfa_size_limit(&self) -> Option<usize>
        ensures { result ≡ limit_of self.now }
    {
        self.nfa_size_limit.unwrap_or(None)
    }

    /// See [`shrink`](Config::shrink).
    pub fn get_shrink(&self) -> bool
        ensures { result ≡ shrink_of self.now }
    {
        self.shrink.unwrap_or(false)
    }

    /// Whether classes of characters are made smaller.
    pub(crate) fn is_shrunk(&self) -> bool
        ensures { result ≡ is_shrunk self.now }
    {
        self.get_reverse() && self.get_shrink()
    }

    /// Whether there are states for some group.
    #[deprecated(note = "get_which_captures tells apart the whole match")]
    pub fn get_captures(&self) -> bool
        ensures { result ≡ is_any (captures_of self.now) }
    {
        self.get_which_captures().is_any()
    }

    /// See [`which_captures`](Config::which_captures).
    pub fn get_which_captures(&self) -> WhichCaptures
        ensures { result ≡ captures_of self.now }
    {
        self.which_captures.unwrap_or(WhichCaptures::All)
    }

    /// See [`look_matcher`](Config::look_matcher).
    pub fn get_look_matcher(&self) -> LookMatcher<AsciiWord>
        ensures { result.terminator ≡ terminator_of self.now }
    {
        let mut matcher = LookMatcher::new(AsciiWord);
        if let Some(terminator) = self.line_terminator {
            matcher.set_line_terminator(terminator);
        }
        matcher
    }

    /// This configuration with each option that the other one has set.
    pub(crate) fn overwrite(self, other: Config) -> Config
        ensures { result ≡ changed_by self other }
    {
        Config {
            utf8: other.utf8.or(self.utf8),
            reverse: other.reverse.or(self.reverse),
            nfa_size_limit: other.nfa_size_limit.or(self.nfa_size_limit),
            shrink: other.shrink.or(self.shrink),
            which_captures: other.which_captures.or(self.which_captures),
            line_terminator: other.line_terminator.or(self.line_terminator),
        }
    }
}

impl Default for Config {
    fn default() -> Config
        ensures { result ≡ no_options }
    {
        Config::new()
    }
}
