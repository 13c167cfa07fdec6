// Patterns, a haystack, and the spans of all matches.
use crate::texts::client::{Fault, all_matches};
use pattern_text::Config;
use search_types::Match;
use std::alloc::Global;

/// Patterns:
///
/// - one or more `a`, or `b`, or nothing;
/// - a Greek letter, a small letter of ASCII, or a digit;
/// - nothing;
/// - `ab` or `a`, or else `abc`;
/// - `b`, or an empty loop;
/// - a group that isn't closed, after one pattern and before another.
#[derive(Clone, Copy)]
enum Texts {
    Runs,
    Letters,
    Nothing,
    Longer,
    Loop,
    Open,
}

fn texts_of(texts: Texts) -> &'static [&'static str] {
    match texts {
        Texts::Runs => &["a+", "b", ""],
        Texts::Letters => &["\\p{Greek}", "[a-z]", "\\d"],
        Texts::Nothing => &[""],
        Texts::Longer => &["ab|a", "abc"],
        Texts::Loop => &["b", "(a*)*"],
        Texts::Open => &["a", "b(", "("],
    }
}

#[derive(Clone, Copy)]
enum Haystack {
    Xaab,
    Beta,
    Mixed,
    Abcab,
    Broken,
}

fn bytes_of(haystack: Haystack) -> &'static [u8] {
    match haystack {
        Haystack::Xaab => b"xaab",
        Haystack::Beta => b"\xCE\xB2",
        Haystack::Mixed => b"a\xCE\xB21",
        Haystack::Abcab => b"abcab",
        Haystack::Broken => b"a\xCE",
    }
}

/// What is reported.
#[derive(Clone, Copy)]
enum ProgressValue {
    /// The pattern of this number is rejected.
    Refused(usize),
    /// The laws say nothing of it.
    Undefined,
    Two(usize, usize, usize, usize),
    Three(usize, usize, usize, usize, usize, usize),
}

fn rows() -> &'static [(Texts, bool, Haystack, ProgressValue)] {
    &[
        (
            Texts::Runs,
            false,
            Haystack::Xaab,
            ProgressValue::Three(0, 0, 1, 3, 3, 4),
        ),
        (
            Texts::Letters,
            true,
            Haystack::Mixed,
            ProgressValue::Three(0, 1, 1, 3, 3, 4),
        ),
        (
            Texts::Nothing,
            true,
            Haystack::Beta,
            ProgressValue::Two(0, 0, 2, 2),
        ),
        (
            Texts::Nothing,
            false,
            Haystack::Beta,
            ProgressValue::Three(0, 0, 1, 1, 2, 2),
        ),
        (
            Texts::Longer,
            true,
            Haystack::Abcab,
            ProgressValue::Two(0, 2, 3, 5),
        ),
        (
            Texts::Longer,
            true,
            Haystack::Broken,
            ProgressValue::Undefined,
        ),
        (Texts::Loop, false, Haystack::Xaab, ProgressValue::Undefined),
        (
            Texts::Open,
            false,
            Haystack::Xaab,
            ProgressValue::Refused(1),
        ),
    ]
}

fn is_at(found: Option<&Match>, start: usize, end: usize) -> bool {
    match found {
        None => false,
        Some(found) => found.start() == start && found.end() == end,
    }
}

/// These spans are listed.
fn is_listed(all: &[Match], reported: ProgressValue) -> bool {
    match reported {
        ProgressValue::Refused(_) | ProgressValue::Undefined => false,
        ProgressValue::Two(a, b, c, d) => all.len() == 2
            && is_at(all.first(), a, b)
            && is_at(all.get(1), c, d),
        ProgressValue::Three(a, b, c, d, e, f) => {
            all.len() == 3
                && is_at(all.first(), a, b)
                && is_at(all.get(1), c, d)
                && is_at(all.get(2), e, f)
        }
    }
}

fn is_reported(
    alloc: Global,
    texts: Texts,
    utf8: bool,
    haystack: Haystack,
    reported: ProgressValue,
) -> bool {
    let config = Config::new().utf8(utf8);
    match all_matches(alloc, texts_of(texts), &config, utf8, bytes_of(haystack)) {
        Ok(Some(all)) => is_listed(&all, reported),
        Ok(None) => matches!(reported, ProgressValue::Undefined),
        Err(Fault::Text(e)) =>
            matches!(reported, ProgressValue::Refused(number) if number == e.number),
        Err(Fault::NotBuilt | Fault::Search(_)) => false,
    }
}

#[test]
fn spans_of_texts(rt: HostRuntime) {
    for (texts, utf8, haystack, reported) in rows() {
        assert!(rt; is_reported(rt.alloc(), *texts, *utf8, *haystack, *reported));
    }
}
