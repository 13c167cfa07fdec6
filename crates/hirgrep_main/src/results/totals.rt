//! The sum of what was searched, for the summary of `--json`.
ghost use Rattle.std.specs.Prelude.{◌≡◌};
ghost use Rattle.hirgrep_main.specs.Totals.{no_time, summed};
ghost use Rattle.text_report.specs.Events.{no_stats};

use json_events::{Elapsed, Stats};

/// No time. The program uses no clock.
pub fn no_time() -> Elapsed
    ensures { result ≡ no_time }
{
    Elapsed { secs: 0, nanos: 0 }
}

/// What was searched before the first input.
pub fn no_stats() -> Stats
    ensures { result ≡ no_stats }
{
    Stats {
        elapsed: no_time(),
        searches: 0,
        searches_with_match: 0,
        bytes_searched: 0,
        bytes_printed: 0,
        matched_lines: 0,
        matches: 0,
    }
}

/// The sum of two statistics. It has no time.
pub fn summed(one: Stats, other: Stats) -> Stats
    ensures { result ≡ summed one other }
{
    Stats {
        elapsed: no_time(),
        searches: one.searches.saturating_add(other.searches),
        searches_with_match: one
            .searches_with_match
            .saturating_add(other.searches_with_match),
        bytes_searched: one.bytes_searched.saturating_add(other.bytes_searched),
        bytes_printed: one.bytes_printed.saturating_add(other.bytes_printed),
        matched_lines: one.matched_lines.saturating_add(other.matched_lines),
        matches: one.matches.saturating_add(other.matches),
    }
}
