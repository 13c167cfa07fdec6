//! How patterns are interpreted: in which form each is parsed, and under which options.
ghost use Rattle.std.specs.Prelude.{◌≡◌, IfOk, string_bytes};
ghost use Rattle.line_search.specs.Meant.{line_config, written};

use pattern_text::Config;
use std::alloc::{AllocError, Global};

/// How patterns are interpreted.
#[derive(Clone, Copy, Debug, PartialEq, Eq)]
pub struct PatternOptions {
    /// Each pattern is a fixed string, which matches itself.
    pub fixed: bool,
    /// Letters match in either case.
    pub ignore_case: bool,
    /// A match is a whole line, or with `text` it starts where a line starts and ends where one ends.
    pub lines: bool,
    /// A match neither starts nor ends inside a word. With `lines` this has no effect.
    pub words: bool,
    /// A carriage return before the line feed belongs to the end of a line.
    pub crlf: bool,
    /// What is searched is a text of any number of lines. `^` and `$` match at the edges of each, and a match may span several lines. With
    /// `crlf`, a carriage return, or one with a line feed, ends a line for `^`, `$` and `.`.
    pub text: bool,
    /// `.` matches a line feed, too, since zero bytes end lines.
    pub null: bool,
}

/// The options under which each pattern is parsed, by itself. Any bytes can match, whether they are UTF-8 or not.
pub fn config_of(how: &PatternOptions) -> Config
    ensures { result ≡ line_config how.now }
{
    Config::new()
        .utf8(false)
        .case_insensitive(how.ignore_case)
        .multi_line(how.text)
        .crlf(how.text && how.crlf)
        .dot_matches_new_line(how.null)
}

/// The pattern in the syntax that is parsed. It is the pattern itself, or if that is a fixed string, a pattern that matches this string.
pub fn pattern_source(alloc: Global, fixed: bool, pattern: &str) -> Result<String, AllocError>
    ensures { IfOk result (λ t. string_bytes t ≡ written fixed pattern.now) }
{
    if fixed {
        regex_syntax::escape(alloc, pattern)
    } else {
        String::from_str(alloc, pattern)
    }
}
