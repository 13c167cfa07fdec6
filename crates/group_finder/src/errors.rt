//! Why no finder of groups is made.
ghost use Rattle.std.specs.Prelude.{◌≡◌, ℕ, List};
ghost use Rattle.regex_syntax.specs.declared.Config.{Config as TextConfig};
ghost use Rattle.regex_syntax.specs.Verdict.{Refuses};
ghost use Rattle.group_finder.specs.Errors.{IsNewError, bytes_allowed};

use regex_syntax::ErrorKind;

/// The greatest limit on the bytes of an automaton: 16 GiB. The toolchain compiles every pattern that takes no more.
const MOST: usize = 1 << 34;

/// Why no finder of groups is made.
#[derive(Clone, Copy, Debug)]
pub enum NewError {
    /// Memory ran out.
    NoMemory,
    /// The pattern can't be parsed.
    Syntax(regex_syntax::Error),
    /// The automaton of the pattern, or the work of making it, would take more than this many bytes. Or the pattern has 2³¹ groups or more.
    TooLarge(usize),
}

/// The bytes that a limit allows.
pub(crate) fn allowed(size_limit: usize) -> usize
    ensures { result ≡ bytes_allowed size_limit }
{
    size_limit.min(MOST)
}

/// The cause of an error of the parser.
pub(crate) fn cause_of(error: regex_syntax::Error) -> NewError
    ensures { (config : TextConfig) → (text : List ℕ) → (limit : ℕ) → Refuses config text error.kind → IsNewError config text limit result }
{
    match error.kind {
        ErrorKind::OutOfMemory => NewError::NoMemory,
        _ => NewError::Syntax(error),
    }
}
