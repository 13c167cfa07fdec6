//! The lines of a text, one after the other, with whether matches of the text are in them.
ghost use Rattle.std.specs.Prelude.{◌≡◌, ◌+◌, ◌≤◌, [], IfNone, IfOk, IfSome, length, map};
ghost use Rattle.line_search.specs.LineMatchers.{span_pair};
ghost use Rattle.text_report.specs.LineSpans.{IsLineAt, line_of, lines_from, whole_end};
ghost use Rattle.text_report.specs.Touching.{AreBefore, StartInOrder, has_match_of};

use crate::lines::{LineSpan, line_at};
use crate::touching::{first_touching, from_index, has_one};
use line_search::Fault;
use search_types::Span;

/// Where the next line of a text begins.
#[derive(Clone, Copy)]
pub struct TextPosition {
    /// Its number, counted from 1.
    pub number: u64,
    /// Its offset.
    pub place: usize,
    /// The index of a match. Those before it are before the line.
    pub first: usize,
}

/// A line of a text, and whether a match counts for it.
#[derive(Clone, Copy)]
pub struct SeenLine {
    pub line: LineSpan,
    /// The index of a match. Those before it are before the line.
    pub first: usize,
    pub has: bool,
}

/// The first line.
pub fn first_position() -> TextPosition
    ensures { result ≡ record { number = 1; place = 0; first = 0 } }
{
    TextPosition {
        number: 1,
        place: 0,
        first: 0,
    }
}

/// The next line of a text, if there is one, and whether a match counts for it. `terminator` is the byte that ends lines. The matches of the
/// text are in order.
pub fn next_line(
    text: &[u8],
    terminator: u8,
    found: &[Span],
    begun: bool,
    at: TextPosition,
) -> Option<SeenLine>
    requires { at.place ≤ length text.now }
    ensures none { IfNone result (lines_from terminator text.now at.number at.place ≡ []) }
    ensures some { IfSome result (λ seen. IsLineAt terminator text.now at.number at.place seen.line) }
    ensures first { IfSome result (λ seen. AreBefore found.now at.first at.place → AreBefore found.now seen.first seen.line.start) }
    ensures has { IfSome result (λ seen. StartInOrder (map span_pair found.now) → AreBefore found.now at.first at.place →
        seen.has ≡ has_match_of begun (map span_pair found.now) (line_of text.now seen.line)) }
{
    let (number, place, from) = (at.number, at.place, at.first);
    let Some(line) = line_at(text, terminator, number, place) else {
        return None;
    };
    let first = first_touching(found, from, line.start);
    let has = has_one(from_index(found, first), begun, line.start, line.end);
    Some(SeenLine { line, first, has })
}

/// Where the line after this one begins.
pub fn position_after(seen: SeenLine) -> Result<TextPosition, Fault>
    requires { whole_end seen.line ≤ 0xFFFF_FFFF_FFFF_FFFF }
    ensures { IfOk result (λ next. next ≡ record { number = seen.line.number + 1; place = whole_end seen.line; first = seen.first }) }
{
    let line = seen.line;
    let Some(number) = line.number.checked_add(1) else {
        return Err(Fault::TooLong);
    };
    Ok(TextPosition {
        number,
        place: line.whole_end(),
        first: seen.first,
    })
}
