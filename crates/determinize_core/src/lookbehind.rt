ghost use Rattle.std.specs.Prelude.{◌≡◌, ◌||◌};
ghost use Rattle.nfa_core.specs.NfaValue.{looks_of};
ghost use Rattle.determinize_core.specs.LookBehind.{families_of, with_if, starts_of, after_nothing, after_line_end};
ghost use Rattle.determinize_core.specs.LookBehind.{after_byte, look_behind, with_look_behind};

use crate::start::Start;
use crate::state_builder_matches::StateBuilderMatches;
use look_core::{Look, LookSet};
use nfa_core::NFA;

/// What is known of the offset where a search starts before a byte is read.
#[derive(Clone, Copy, Debug, PartialEq, Eq)]
pub struct LookBehind {
    /// Whether a word byte comes before the offset, if the automaton has a look of words.
    pub is_from_word: bool,
    /// Whether the first half of a carriage return and a line feed comes before the offset, if the automaton has a look of such lines. In
    /// reverse the line feed is the first half.
    pub is_half_crlf: bool,
    /// The looks that hold at the offset whatever comes on its other side, of the families that the automaton has.
    pub look_have: LookSet,
}

/// The families of which an automaton has looks.
#[derive(Clone, Copy)]
pub(crate) struct Families {
    pub(crate) haystack: bool,
    pub(crate) lines: bool,
    pub(crate) crlf: bool,
    pub(crate) words: bool,
}

/// What is known of the offset where a search of the automaton starts, by what comes before the offset. For an automaton in reverse that is
/// what comes after the offset, and its looks stand for their reverse.
pub fn look_behind_of_start(nfa: &NFA, start: Start) -> LookBehind
    ensures { result ≡ look_behind (looks_of nfa.now.automaton.states) nfa.now.automaton.reverse nfa.now.terminator start }
{
    let families = Families::of(nfa.look_set_any());
    let terminator = nfa.look_matcher().get_line_terminator();
    let reverse = nfa.is_reverse();
    match start {
        Start::Text => families.after_nothing(),
        Start::LineLF => families.after_line_end(reverse, terminator.contains(b'\n')),
        Start::LineCR => families.after_line_end(!reverse, terminator.contains(b'\r')),
        Start::NonWordByte => families.after_byte(false, false),
        Start::WordByte => families.after_byte(false, true),
        Start::CustomLineTerminator => families.after_byte(true, false),
        Start::CustomWordLineTerminator => families.after_byte(true, true),
    }
}

/// Records in a state under construction what is known of the offset where a search of the automaton starts, as
/// `regex_automata::util::determinize::set_lookbehind_from_start`.
pub fn set_lookbehind_from_start(nfa: &NFA, start: &Start, builder: &mut StateBuilderMatches)
    ensures { builder.new ≡ with_look_behind
        (look_behind (looks_of nfa.now.automaton.states) nfa.now.automaton.reverse nfa.now.terminator start.now) builder.old }
{
    let behind = look_behind_of_start(nfa, *start);
    set_flags(behind.is_from_word, behind.is_half_crlf, builder);
    builder.write_have(builder.look_have().union(behind.look_have));
}

/// Sets those flags of a state under construction that are wanted, and leaves the others.
pub(crate) fn set_flags(is_from_word: bool, is_half_crlf: bool, builder: &mut StateBuilderMatches)
    ensures { builder.new ≡ record builder.old {
      is_from_word = builder.old.is_from_word || is_from_word;
      is_half_crlf = builder.old.is_half_crlf || is_half_crlf;
    } }
{
    if is_from_word {
        builder.set_is_from_word();
    }
    if is_half_crlf {
        builder.set_is_half_crlf();
    }
}

impl Families {
    /// The families of a set's members.
    pub(crate) fn of(looks: LookSet) -> Families
        ensures { result ≡ families_of looks }
    {
        Families {
            haystack: looks.contains_anchor_haystack(),
            lines: looks.contains_anchor_lf(),
            crlf: looks.contains_anchor_crlf(),
            words: looks.contains_word(),
        }
    }

    /// The looks of these families that depend only on what comes before an offset.
    pub(crate) fn starts(self) -> LookSet
        ensures { result ≡ starts_of self }
    {
        let looks = with_if(LookSet::empty(), self.haystack, Look::Start);
        let looks = with_if(looks, self.lines, Look::StartLF);
        let looks = with_if(looks, self.crlf, Look::StartCRLF);
        let looks = with_if(looks, self.words, Look::WordStartHalfAscii);
        with_if(looks, self.words, Look::WordStartHalfUnicode)
    }

    /// No byte comes before the offset.
    fn after_nothing(self) -> LookBehind
        ensures { result ≡ after_nothing self }
    {
        LookBehind {
            is_from_word: false,
            is_half_crlf: false,
            look_have: self.starts(),
        }
    }

    /// A line feed or a carriage return comes before the offset.
    fn after_line_end(self, is_first_half: bool, ends_line: bool) -> LookBehind
        ensures { result ≡ after_line_end self is_first_half ends_line }
    {
        let known = Families {
            haystack: false,
            lines: ends_line && self.lines,
            crlf: !is_first_half && self.crlf,
            words: self.words,
        };
        LookBehind {
            is_from_word: false,
            is_half_crlf: is_first_half && self.crlf,
            look_have: known.starts(),
        }
    }

    /// Another byte comes before the offset.
    fn after_byte(self, ends_line: bool, is_word: bool) -> LookBehind
        ensures { result ≡ after_byte self ends_line is_word }
    {
        let known = Families {
            haystack: false,
            lines: ends_line && self.lines,
            crlf: false,
            words: !is_word && self.words,
        };
        LookBehind {
            is_from_word: is_word && self.words,
            is_half_crlf: false,
            look_have: known.starts(),
        }
    }
}

/// The set, with the look added if it is wanted.
pub(crate) fn with_if(looks: LookSet, wanted: bool, look: Look) -> LookSet
    ensures { result ≡ with_if wanted look looks }
{
    if wanted { looks.insert(look) } else { looks }
}
