ghost use Rattle.std.specs.Prelude.{◌≡◌, Ok};

use std::error::Error;
use std::fmt;

/// The error that a request for Unicode's word boundaries would return if the table of word characters were left out. Here the
/// table is always there, so nothing returns this error. As `regex_automata::util::look::UnicodeWordBoundaryError`.
#[derive(Clone, Copy, Debug, PartialEq, Eq)]
pub struct UnicodeWordBoundaryError(());

impl UnicodeWordBoundaryError {
    /// Always `Ok`: the table of word characters is there.
    pub fn check() -> Result<(), UnicodeWordBoundaryError>
        ensures { result ≡ Ok tt }
    {
        Ok(())
    }
}

impl fmt::Display for UnicodeWordBoundaryError {
    ghost use Rattle.std.specs.Prelude.{Some};
    ghost use Rattle.look_core.specs.ErrorTexts.{word_boundary_text};

    ghost output = { λ _. Some word_boundary_text };

    fn fmt<W: fmt::Write>(&self, f: &mut fmt::Formatter<W>) -> fmt::Result {
        f.write_str(
            "the table of word characters, which \\b and \\B need for Unicode text, was left out",
        )
    }
}

impl Error for UnicodeWordBoundaryError {}
