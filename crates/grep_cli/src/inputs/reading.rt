//! How inputs are read: line by line, or as a whole.
ghost use Rattle.std.specs.Prelude.{◌≡◌};
ghost use Rattle.clap.specs.Words.{found_of};
ghost use Rattle.grep_cli.specs.Inputs.{dot_matches_feeds, is_by_lines, lists_all, most_given, prints_json, reading_given};

use clap::ArgMatches;
use grep_options::{is_set, size_of};

/// The greatest number of bytes of an input that is read as a whole, if no other is given.
const GIB: u64 = 0x4000_0000;

/// How an input is read.
#[derive(Clone, Copy)]
pub enum Reading {
    /// Line by line.
    Lines,
    /// As a whole, as records that end in zero bytes.
    Records,
    /// As a whole, since matches may span lines.
    Text,
    /// As a whole, and its lines are printed as JSON.
    Events,
    /// As a whole, since matches may span lines, and its lines are printed as JSON.
    TextEvents,
}

/// How inputs are read.
pub fn reading_given(matches: &ArgMatches<'_>) -> Reading
    ensures { result ≡ reading_given (found_of matches.now) }
{
    if is_set(matches, "json") && !is_set(matches, "quiet") {
        if is_set(matches, "multiline") {
            return Reading::TextEvents;
        }
        return Reading::Events;
    }
    if is_set(matches, "multiline") {
        return Reading::Text;
    }
    if is_set(matches, "null-data") {
        return Reading::Records;
    }
    Reading::Lines
}

/// Whether the dot matches line feeds.
pub fn dot_matches_feeds(matches: &ArgMatches<'_>) -> bool
    ensures { result ≡ dot_matches_feeds (found_of matches.now) }
{
    is_set(matches, "null-data")
        || is_set(matches, "multiline") && is_set(matches, "multiline-dotall")
}

/// The greatest number of bytes of an input that is read as a whole.
pub fn most_given(matches: &ArgMatches<'_>) -> u64
    ensures { result ≡ most_given (found_of matches.now) }
{
    match matches.get_str("max-size") {
        Some(text) => size_of(text).unwrap_or(GIB),
        None => GIB,
    }
}

/// Whether all matches in an input are listed, whatever is printed of it.
pub fn lists_all(reading: Reading) -> bool
    ensures { result ≡ lists_all reading }
{
    match reading {
        Reading::Lines | Reading::Records => false,
        Reading::Text | Reading::Events | Reading::TextEvents => true,
    }
}

/// Whether the lines of an input are printed as JSON.
pub fn prints_json(reading: Reading) -> bool
    ensures { result ≡ prints_json reading }
{
    match reading {
        Reading::Events | Reading::TextEvents => true,
        Reading::Lines | Reading::Records | Reading::Text => false,
    }
}

/// Whether an input is read line by line.
pub fn is_by_lines(reading: Reading) -> bool
    ensures { result ≡ is_by_lines reading }
{
    match reading {
        Reading::Lines => true,
        Reading::Records | Reading::Text | Reading::Events | Reading::TextEvents => false,
    }
}
