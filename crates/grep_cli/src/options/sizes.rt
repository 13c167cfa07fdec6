//! The sizes that options give.
ghost use Rattle.std.specs.Prelude.{◌≡◌, true, false, None, is_some};
ghost use Rattle.clap.specs.Words.{found_of};
ghost use Rattle.grep_cli.specs.Selecting.{gives_size, is_size_given, is_too_large, size_given};

use crate::results::shown::Shown;
use clap::ArgMatches;
use grep_options::size_of;
use std::rt::Runtime;

/// The greatest size of a file that is searched, if it is given.
pub fn size_given(matches: &ArgMatches<'_>) -> Option<u64>
    ensures { result ≡ size_given (found_of matches.now) }
{
    match matches.get_str("max-filesize") {
        Some(text) => size_of(text),
        None => None,
    }
}

/// Whether the option's value, if there is one, is a size. If it isn't, this is reported.
fn is_size(rt: &HostRuntime, matches: &ArgMatches<'_>, name: &str) -> bool
    ensures { result ≡ is_size_given (found_of matches.now) name.now }
{
    let Some(text) = matches.get_str(name) else {
        return true;
    };
    let is_size = size_of(text).is_some();
    if !is_size {
        let text = Shown(text);
        let _ = eprintln!(rt;
            "hirgrep: size {text}: this isn't digits, and then at most one of K, M and G, for less than 2^64 bytes"
        );
    }
    is_size
}

/// Whether no size is given that can't be read. If one is, this is reported.
pub fn gives_size(rt: &HostRuntime, matches: &ArgMatches<'_>) -> bool
    ensures { result ≡ gives_size (found_of matches.now) }
{
    is_size(rt, matches, "max-filesize") && is_size(rt, matches, "max-size")
}

/// Whether a file has more bytes than a file may have.
pub fn is_too_large(most: Option<u64>, size: Option<u64>) -> bool
    ensures { result ≡ is_too_large most size }
{
    match (most, size) {
        (Some(most), Some(size)) => most < size,
        _ => false,
    }
}
