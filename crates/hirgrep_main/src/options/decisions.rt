//! What is decided from the options alone.
ghost use Rattle.std.specs.Prelude.{◌≡◌, true, false, None, map, string_bytes};
ghost use Rattle.hirgrep_main.specs.Decisions.{is_most, may_run_on, prints_all, prints_names_if_none, selects_none};
ghost use Rattle.hirgrep_main.specs.Decisions.{wants_none};
ghost use Rattle.hirgrep_main.specs.Readings.{lists_matches, prints_summary};

use crate::inputs::binary::prints_lines;
use crate::options::asked::Asked;
use grep_cli::{lists_all, prints_json};
use grep_core::{OutputOptions, Print, needs_spans};

fn prints_names_if_none(print: Print) -> bool
    ensures { result ≡ prints_names_if_none print }
{
    match print {
        Print::NameIfNone => true,
        _ => false,
    }
}

/// Whether this number is the greatest number of lines that may be selected.
fn is_most(number: u64, most: Option<u64>) -> bool
    ensures { result ≡ is_most number most }
{
    match most {
        Some(most) => most == number,
        None => false,
    }
}

/// Whether lines are printed whether any is selected or not.
fn prints_all(what: &OutputOptions<'_>) -> bool
    ensures { result ≡ prints_all what.now }
{
    match what.context {
        Some(context) => prints_lines(what.print) && context.first > 0,
        None => false,
    }
}

/// Whether reading a file that is written at the same time could go on forever. It could if lines are printed and the first isn't the last
/// one.
pub fn may_run_on(asked: &Asked) -> bool
    ensures { result ≡ may_run_on asked.now.what }
{
    prints_lines(asked.what.print) && !is_most(1, asked.what.most) || prints_all(&asked.what)
}

/// Whether these patterns select no line, whatever it is: there is no pattern, or with `-v` the only one is empty. With `-w` and `-x` an
/// empty pattern doesn't match in every line.
fn wants_none(asked: &Asked, patterns: &[String]) -> bool
    ensures { result ≡ wants_none asked.now.what asked.now.how (map string_bytes patterns.now) }
{
    match patterns {
        [] => !asked.what.invert,
        [only] => asked.what.invert
            && only.as_str().is_empty()
            && !(asked.how.lines || asked.how.words),
        _ => false,
    }
}

/// Whether no line can be selected, and nothing is printed whatever the inputs are, or counts of 0 alone. With `--json` the patterns don't
/// decide it, since what is searched is counted.
pub fn selects_none(asked: &Asked, patterns: &[String]) -> bool
    ensures { result ≡ selects_none asked.now (map string_bytes patterns.now) }
{
    let never = is_most(0, asked.what.most)
        || !prints_json(asked.reading) && wants_none(asked, patterns);
    never && !(prints_names_if_none(asked.what.print) || prints_all(&asked.what))
}

/// Whether the finder is asked where matches are, and not only whether there are any.
pub fn lists_matches(asked: &Asked) -> bool
    ensures { result ≡ lists_matches asked.now }
{
    lists_all(asked.reading) || needs_spans(&asked.what)
}

/// Whether the sum of what was searched is printed at the end.
pub fn prints_summary(asked: &Asked) -> bool
    ensures { result ≡ prints_summary asked.now }
{
    prints_json(asked.reading) && prints_lines(asked.what.print)
}
