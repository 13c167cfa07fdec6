//! Inputs with zero bytes, under `--binary-files` and `-I`.
ghost use Rattle.std.specs.Prelude.{◌≡◌};
ghost use Rattle.grep_core.specs.Reporting.{prints_lines};
ghost use Rattle.hirgrep_main.specs.Binaries.{is_noticed, options_by};

use grep_cli::Binary;
use grep_core::{OutputOptions, Print};
use line_search::Fault;

/// Whether lines or matches are printed.
pub fn prints_lines(print: Print) -> bool
    ensures { result ≡ prints_lines print }
{
    match print {
        Print::Lines | Print::Matches => true,
        _ => false,
    }
}

/// The output options for an input, given whether it has a zero byte among its first bytes.
pub fn options_by<'a>(binary: Binary, zero: bool, what: OutputOptions<'a>) -> OutputOptions<'a>
    ensures { result ≡ options_by binary zero what.entry }
{
    if binary == Binary::Notice && zero && prints_lines(what.print) {
        return OutputOptions {
            print: Print::Nothing,
            ..what
        };
    }
    what
}

/// Whether it is reported that an input with a zero byte has a selected line, instead of its lines.
pub fn is_noticed(binary: Binary, print: Print, zero: bool, reported: Result<u64, Fault>) -> bool
    ensures { result ≡ is_noticed binary print zero reported }
{
    match reported {
        Ok(lines) => binary == Binary::Notice && zero && prints_lines(print) && lines > 0,
        Err(_) => false,
    }
}
