//! Which inputs count as binary, and what is asked for of those.
ghost use Rattle.std.specs.Prelude.{◌≡◌, codes};
ghost use Rattle.clap.specs.Words.{first_value, found_of};
ghost use Rattle.grep_options.specs.Options.{is_set};
ghost use Rattle.grep_cli.specs.Inputs.{binary_by};

use clap::ArgMatches;
use grep_options::is_set;

/// What is printed of an input with a zero byte among its first bytes.
#[derive(Clone, Copy, PartialEq, Eq)]
pub enum Binary {
    /// What is printed of other inputs.
    AsText,
    /// That it has a selected line, instead of its lines or matches. Zero bytes end lines.
    Notice,
    /// What is printed of an input without lines.
    NoMatch,
}

/// What is printed of an input with a zero byte. Of `-a`, `-I` and `--binary-files` the last one has turned off the others.
pub fn binary_of(matches: &ArgMatches<'_>) -> Binary
    ensures { result ≡ binary_by (first_value (found_of matches.now) (codes "binary-files"))
        (is_set (found_of matches.now) (codes "skip-binary")) }
{
    match matches.get_str("binary-files") {
        Some("binary") => Binary::Notice,
        Some("without-match") => Binary::NoMatch,
        _ => if is_set(matches, "skip-binary") {
            Binary::NoMatch
        } else {
            Binary::AsText
        },
    }
}
