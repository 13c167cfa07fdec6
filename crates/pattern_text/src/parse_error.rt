ghost use Rattle.std.specs.Prelude.{◌≡◌, ℕ, List};
ghost use Rattle.regex_syntax.specs.declared.Config.{Config as Options};
ghost use Rattle.regex_syntax.specs.declared.error.ErrorKind.TheVariants.{OutOfMemory};
ghost use Rattle.regex_syntax.specs.Verdict.{Refuses};
ghost use Rattle.pattern_text.specs.declared.parse_error.ParseError.TheVariants.{NoMemory};
ghost use Rattle.pattern_text.specs.Patterns.{LiesIn, IsFault};

use regex_syntax::{ErrorKind, Span};
use std::error::Error;
use std::fmt;

/// Why a pattern has no tree.
#[derive(Clone, Copy, Debug, PartialEq, Eq)]
pub enum ParseError {
    /// An allocation failed.
    NoMemory,
    /// The text isn't a pattern, or it nests too deep.
    Refused {
        /// What is wrong with it.
        kind: ErrorKind,
        /// Where in the text, by the offsets of bytes.
        span: Span,
    },
}

impl ParseError {
    /// The error for one of the toolchain's parser.
    pub(crate) fn of_parser(error: regex_syntax::Error) -> ParseError
        ensures memory { result ≡ NoMemory → error.kind ≡ OutOfMemory }
        ensures fault { (config : Options) (text : List ℕ) → Refuses config text error.kind → LiesIn text error.span →
            IsFault config text result }
    {
        match error.kind {
            ErrorKind::OutOfMemory => ParseError::NoMemory,
            _ => ParseError::Refused {
                kind: error.kind,
                span: error.span,
            },
        }
    }
}

impl fmt::Display for ParseError {
    fn fmt<W: fmt::Write>(&self, f: &mut fmt::Formatter<W>) -> fmt::Result {
        match self {
            ParseError::NoMemory => f.write_str("out of memory"),
            ParseError::Refused { kind, span } => {
                let start = span.start;
                let end = span.end;
                let message = kind.message();
                write!(f, "no pattern, at {start}..{end}: {message}")
            }
        }
    }
}

impl Error for ParseError {}
