//! Why no match is returned with its groups.
ghost use Rattle.std.specs.Prelude.{◌≡◌, ℕ, List};
ghost use Rattle.regex_syntax.specs.declared.Config.{Config as TextConfig};
ghost use Rattle.meta_regex.specs.declared.options.Options.{Options};
ghost use Rattle.group_finder.specs.Errors.{IsNewError, bytes_allowed};
ghost use Rattle.group_finder.specs.Patterns.{IsPattern};
ghost use Rattle.captures.specs.Groups.{limit_of};
ghost use Rattle.captures.specs.Errors.{IsCapturesError};

use group_finder::NewError;
use meta_regex::SearchError;

/// Why no match is returned with its groups.
#[derive(Clone, Copy, Debug)]
pub enum CapturesError {
    /// The search for a match failed.
    Search(SearchError),
    /// Memory ran out.
    NoMemory,
    /// What finds the groups of a pattern would take more than this many bytes: the limit of the options, or 16 GiB.
    TooLarge(usize),
}

/// The cause of an error of making a finder of a pattern. It isn't about the syntax, since the names of the groups were read in the pattern.
pub(crate) fn of_new(error: NewError) -> CapturesError
    ensures { (o : Options) (config : TextConfig) → (text : List ℕ) (limit : ℕ) → (h : List ℕ) → IsPattern config text →
        IsNewError config text limit error → bytes_allowed limit ≡ limit_of o → IsCapturesError o h result }
{
    match error {
        NewError::NoMemory => CapturesError::NoMemory,
        NewError::TooLarge(most) => CapturesError::TooLarge(most),
        NewError::Syntax(_) => CapturesError::NoMemory,
    }
}
