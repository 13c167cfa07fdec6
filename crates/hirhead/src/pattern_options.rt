ghost use Rattle.std.specs.Prelude.{◌≡◌};
ghost use Rattle.hirhead.specs.PatternOptions.{config_of};

use pattern_text::Config;

/// How patterns are parsed: some options of a [`Config`]. Its other options have their defaults.
#[derive(Clone, Copy, Debug, PartialEq, Eq)]
pub struct PatternOptions {
    /// Whether a letter matches in either case.
    pub ignore_case: bool,
    /// Whether `^` and `$` hold at the ends of lines.
    pub multi_line: bool,
    /// Whether `.` matches a line feed.
    pub dot_matches_new_line: bool,
    /// Whether `a*` is lazy and `a*?` is greedy.
    pub swap_greed: bool,
    /// Whether a carriage return ends a line too.
    pub crlf: bool,
    /// Whether classes, words and the folding of case are Unicode's.
    pub unicode: bool,
    /// Whether UTF-8 mode is on. If so, a pattern that may match bytes which are no UTF-8 is rejected.
    pub utf8: bool,
    /// How deep groups, classes and repetitions may nest.
    pub nest_limit: u32,
}

impl PatternOptions {
    /// The options as the parser takes them.
    pub(crate) fn config(&self) -> Config
        ensures { result ≡ config_of self.now }
    {
        Config::new()
            .case_insensitive(self.ignore_case)
            .multi_line(self.multi_line)
            .dot_matches_new_line(self.dot_matches_new_line)
            .swap_greed(self.swap_greed)
            .crlf(self.crlf)
            .unicode(self.unicode)
            .utf8(self.utf8)
            .nest_limit(self.nest_limit)
    }
}
