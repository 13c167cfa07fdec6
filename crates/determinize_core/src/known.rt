//! The looks that are known to hold at an offset.
ghost use Rattle.std.specs.Prelude.{◌≡◌};
ghost use Rattle.search_core.specs.Units.{unit_byte};
ghost use Rattle.look_core.specs.Looks.{word_if, is_edge_of_word, is_no_edge_of_word, is_byte, is_line_end};
ghost use Rattle.determinize_core.specs.KnownBefore.{known_words, known_lines};
ghost use Rattle.determinize_core.specs.Steps.{is_end, first_half, second_half, known_before, known_after, families, gains};

use crate::lookbehind::{Families, with_if};
use crate::state::State;
use look_core::{Look, LookSet};
use nfa_core::NFA;
use search_core::Unit;

/// The looks that are known to hold at the offset of a state, with those that the unit after it decides.
pub(crate) fn known_before(nfa: &NFA, state: &State, unit: Unit) -> LookSet
    ensures { result ≡ known_before nfa.now.automaton.reverse nfa.now.terminator state.now (unit_byte unit) }
{
    let looks = known_words(state.look_have(), state.is_from_word(), unit.is_word_byte());
    known_lines(nfa, looks, state.is_half_crlf(), unit)
}

/// Whether these looks include one that a state needs and that wasn't known to hold.
pub(crate) fn gains(state: &State, looks: LookSet) -> bool
    ensures { result ≡ gains state.now looks }
{
    let new = looks.subtract(state.look_have());
    !new.intersect(state.look_need()).is_empty()
}

/// The looks that hold after a unit whatever follows it, of the families that the automaton has.
pub(crate) fn known_after(nfa: &NFA, unit: Unit) -> LookSet
    ensures { result ≡ known_after (families nfa.now.automaton) nfa.now.automaton.reverse nfa.now.terminator (unit_byte unit) }
{
    let families = Families::of(nfa.look_set_any());
    let known = Families {
        haystack: false,
        lines: families.lines && ends_line(nfa, unit),
        crlf: families.crlf && is_byte(unit, second_half(nfa.is_reverse())),
        words: families.words && !unit.is_word_byte(),
    };
    known.starts()
}

/// The looks of words, by whether there is a word byte on each side of the offset.
#[tactic(auto, unfolding(crate::specs::KnownBefore::known_words))]
fn known_words(looks: LookSet, before: bool, after: bool) -> LookSet
    ensures { result ≡ known_words (word_if before) (word_if after) looks }
{
    let looks = with_if(looks, !after, Look::WordEndHalfUnicode);
    let looks = with_if(looks, !after, Look::WordEndHalfAscii);
    let looks = with_if(looks, before && !after, Look::WordEndUnicode);
    let looks = with_if(looks, before && !after, Look::WordEndAscii);
    let looks = with_if(looks, !before && after, Look::WordStartUnicode);
    let looks = with_if(looks, !before && after, Look::WordStartAscii);
    let looks = with_if(looks, is_no_edge(before, after), Look::WordUnicodeNegate);
    let looks = with_if(looks, is_no_edge(before, after), Look::WordAsciiNegate);
    let looks = with_if(looks, is_edge(before, after), Look::WordUnicode);
    with_if(looks, is_edge(before, after), Look::WordAscii)
}

/// Whether there is a word byte on exactly one side.
fn is_edge(before: bool, after: bool) -> bool
    ensures { result ≡ is_edge_of_word (word_if before) (word_if after) }
{
    before != after
}

/// Whether there are word bytes on both sides or on neither.
fn is_no_edge(before: bool, after: bool) -> bool
    ensures { result ≡ is_no_edge_of_word (word_if before) (word_if after) }
{
    before == after
}

/// The looks of lines and of the haystack's edge, by the unit and by whether the first half of a CRLF was read just before the offset.
#[tactic(auto, unfolding(crate::specs::KnownBefore::known_lines))]
fn known_lines(nfa: &NFA, looks: LookSet, half: bool, unit: Unit) -> LookSet
    ensures { result ≡ known_lines nfa.now.automaton.reverse nfa.now.terminator half (unit_byte unit) looks }
{
    let first = is_byte(unit, first_half(nfa.is_reverse()));
    let second = is_byte(unit, second_half(nfa.is_reverse()));
    let end = is_end(unit);
    let looks = with_if(looks, half && !second, Look::StartCRLF);
    let looks = with_if(looks, end || (first || (second && !half)), Look::EndCRLF);
    let looks = with_if(looks, end || ends_line(nfa, unit), Look::EndLF);
    with_if(looks, end, Look::End)
}

/// Whether it is the end of the input.
fn is_end(unit: Unit) -> bool
    ensures { result ≡ is_end (unit_byte unit) }
{
    match unit {
        Unit::Byte(_) => false,
        Unit::End(_) => true,
    }
}

/// Whether it is this byte.
pub(crate) fn is_byte(unit: Unit, byte: u8) -> bool
    ensures { result ≡ is_byte byte (unit_byte unit) }
{
    match unit {
        Unit::Byte(other) => byte == other,
        Unit::End(_) => false,
    }
}

/// Whether it is a byte that ends a line.
fn ends_line(nfa: &NFA, unit: Unit) -> bool
    ensures { result ≡ is_line_end nfa.now.terminator (unit_byte unit) }
{
    match unit {
        Unit::Byte(byte) => nfa.look_matcher().get_line_terminator().contains(byte),
        Unit::End(_) => false,
    }
}

/// The half of a CRLF that is read first.
pub(crate) fn first_half(reverse: bool) -> u8
    ensures { result ≡ first_half reverse }
{
    if reverse { b'\n' } else { b'\r' }
}

/// The half of a CRLF that is read last.
fn second_half(reverse: bool) -> u8
    ensures { result ≡ second_half reverse }
{
    if reverse { b'\r' } else { b'\n' }
}
