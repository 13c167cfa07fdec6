ghost use Rattle.std.specs.Prelude.{◌≡◌};
ghost use Rattle.regex_syntax.specs.Verdict.{default_config};

use std::marker::Model;

/// How a pattern is read, by the names that `regex::RegexBuilder` gives its options. A flag in the pattern,
/// as `(?i)`, overrides the option from there on.
///
/// A line ends at a line feed, or as [`crlf`](Config::crlf) says: the grammar knows no other terminator.
#[derive(Clone, Copy, Debug)]
pub struct Config {
    options: regex_syntax::Config,
}

impl Model for Config {
    ghost use Rattle.regex_syntax.specs.declared.Config.{Config as Options};

    ghost Value = { Options };

    ghost view = { λ c. c.options };

    ghost inverse = { λ o. record { options = o } };
}

impl Config {
    /// Each option has its default.
    pub fn new() -> Config
        ensures { result ≡ default_config }
    {
        Config {
            options: regex_syntax::Config::default(),
        }
    }

    /// The options as the toolchain's parser takes them.
    pub fn options(&self) -> regex_syntax::Config
        ensures { result ≡ self.now }
    {
        self.options
    }

    /// Whether a letter matches in either case, as the flag `i`. Off where it isn't set.
    pub fn case_insensitive(mut self, yes: bool) -> Config
        ensures { result ≡ record self { flags = record (self.flags) { case_insensitive = yes } } }
    {
        self.options.flags.case_insensitive = yes;
        self
    }

    /// Whether `^` and `$` hold at the ends of lines, as the flag `m`. Off where it isn't set.
    pub fn multi_line(mut self, yes: bool) -> Config
        ensures { result ≡ record self { flags = record (self.flags) { multi_line = yes } } }
    {
        self.options.flags.multi_line = yes;
        self
    }

    /// Whether `.` matches a line feed, as the flag `s`. Off where it isn't set.
    pub fn dot_matches_new_line(mut self, yes: bool) -> Config
        ensures { result ≡ record self { flags = record (self.flags) { dot_matches_new_line = yes } } }
    {
        self.options.flags.dot_matches_new_line = yes;
        self
    }

    /// Whether a carriage return ends a line too, as the flag `R`. Off where it isn't set.
    pub fn crlf(mut self, yes: bool) -> Config
        ensures { result ≡ record self { flags = record (self.flags) { crlf = yes } } }
    {
        self.options.flags.crlf = yes;
        self
    }

    /// Whether `a*` is lazy and `a*?` is greedy, as the flag `U`. Off where it isn't set.
    pub fn swap_greed(mut self, yes: bool) -> Config
        ensures { result ≡ record self { flags = record (self.flags) { swap_greed = yes } } }
    {
        self.options.flags.swap_greed = yes;
        self
    }

    /// Whether white space and comments in the pattern are ignored, as by the flag `x`. Off where it isn't
    /// set.
    pub fn ignore_whitespace(mut self, yes: bool) -> Config
        ensures { result ≡ record self { flags = record (self.flags) { ignore_whitespace = yes } } }
    {
        self.options.flags.ignore_whitespace = yes;
        self
    }

    /// Whether classes, words and the folding of case are Unicode's, as the flag `u`. On where it isn't set.
    pub fn unicode(mut self, yes: bool) -> Config
        ensures { result ≡ record self { flags = record (self.flags) { unicode = yes } } }
    {
        self.options.flags.unicode = yes;
        self
    }

    /// Whether a pattern is rejected that may match bytes which aren't UTF-8, as the builder for `&str`
    /// rejects it. On where it isn't set; off is the builder for bytes.
    pub fn utf8(mut self, yes: bool) -> Config
        ensures { result ≡ record self { utf8 = yes } }
    {
        self.options.utf8 = yes;
        self
    }

    /// Whether a backslash and digits, as `\141`, are a character by its number in base eight. Off where it
    /// isn't set.
    pub fn octal(mut self, yes: bool) -> Config
        ensures { result ≡ record self { octal = yes } }
    {
        self.options.octal = yes;
        self
    }

    /// How deep groups, classes and repetitions may nest. 250 where it isn't set. Calls nest as deep as the
    /// pattern does, so a higher limit needs a larger stack.
    pub fn nest_limit(mut self, limit: u32) -> Config
        ensures { result ≡ record self { nest_limit = limit } }
    {
        self.options.nest_limit = limit;
        self
    }
}

impl Default for Config {
    ghost use Rattle.std.specs.Prelude.{◌≡◌};
    ghost use Rattle.regex_syntax.specs.Verdict.{default_config};

    ghost is_default = { λ config. config ≡ default_config };

    fn default() -> Config {
        Config::new()
    }
}
