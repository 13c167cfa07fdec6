ghost use Rattle.std.specs.Prelude.{◌≡◌, ◌≤◌, ◌↔◌, IsTrue, true, length, Ok};
ghost use Rattle.search_core.specs.Marks.{recorded};
ghost use Rattle.look_core.specs.Terminators.{one_of};
ghost use Rattle.look_core.specs.Looks.{holds, by_characters};
ghost use Rattle.std.specs.List.{list_all};
ghost use Rattle.look_core.specs.LookSets.{has_look};
ghost use Rattle.look_core.specs.declared.look.Look.{Look as TheLook};
ghost use Rattle.look_core.specs.Sides.{side_of};
ghost use Rattle.look_core.specs.ToldApart.{ranges_apart, line_ends, crlf_ranges, word_ranges};

use crate::line_term::LineTerm;
use crate::look::Look;
use crate::look_set::LookSet;
use crate::look_set_iter::LookSetIter;
use crate::side::{Sides, byte_at, byte_before};
use crate::unicode_error::UnicodeWordBoundaryError;
use crate::word_class::{AsciiWord, WordClass};
use search_core::ByteClassSet;
use std::marker::Model;

/// Decides where looks hold in a haystack, as `regex_automata::util::look::LookMatcher` does, with word
/// characters by the caller's class. An offset lies between two bytes: offset `at` is right before the byte
/// with index `at`, and the last offset is the haystack's length.
#[derive(Clone, Debug, Drop)]
pub struct LookMatcher<W: WordClass> {
    words: W,
    terminator: LineTerm,
}

impl<W: WordClass> Model for LookMatcher<W> {
    ghost use Rattle.look_core.specs.Matchers.{Matcher};

    ghost Value = { Matcher W };

    ghost view = { λ m. record { words = m.words; terminator = m.terminator } };

    ghost inverse = { λ m. record { words = m.words; terminator = m.terminator } };
}

impl<W: WordClass> LookMatcher<W> {
    /// A matcher with this class of word characters. Lines end at the line feed.
    pub fn new(words: W) -> LookMatcher<W>
        ensures words { result.words ≡ words }
        ensures terminator { result.terminator ≡ one_of 0x0A }
    {
        LookMatcher {
            words,
            terminator: LineTerm::default(),
        }
    }

    /// Changes what ends a line for [`Look::StartLF`] and [`Look::EndLF`].
    pub fn set_line_terminator(&mut self, terminator: LineTerm)
        ensures { self.new ≡ record self.old { terminator = terminator } }
    {
        self.terminator = terminator;
    }

    /// The line terminator.
    pub fn get_line_terminator(&self) -> LineTerm
        ensures { result ≡ self.now.terminator }
    {
        self.terminator
    }

    /// Whether [`Look::Start`] holds.
    pub fn is_start(&self, haystack: &[u8], at: usize) -> bool
        requires { at ≤ length haystack.now }
        ensures { result ≡ holds (W.words self.now.words) self.now.terminator haystack.now Look.Start at }
    {
        at == 0
    }

    /// Whether [`Look::End`] holds.
    pub fn is_end(&self, haystack: &[u8], at: usize) -> bool
        requires { at ≤ length haystack.now }
        ensures { result ≡ holds (W.words self.now.words) self.now.terminator haystack.now Look.End at }
    {
        at == haystack.len()
    }

    /// Whether [`Look::StartLF`] holds.
    pub fn is_start_lf(&self, haystack: &[u8], at: usize) -> bool
        requires { at ≤ length haystack.now }
        ensures { result ≡ holds (W.words self.now.words) self.now.terminator haystack.now Look.StartLF at }
    {
        byte_before(haystack, at).is_none_or(|byte| self.terminator.contains(byte))
    }

    /// Whether [`Look::EndLF`] holds.
    pub fn is_end_lf(&self, haystack: &[u8], at: usize) -> bool
        requires { at ≤ length haystack.now }
        ensures { result ≡ holds (W.words self.now.words) self.now.terminator haystack.now Look.EndLF at }
    {
        byte_at(haystack, at).is_none_or(|byte| self.terminator.contains(byte))
    }

    /// Whether [`Look::StartCRLF`] holds.
    pub fn is_start_crlf(&self, haystack: &[u8], at: usize) -> bool
        requires { at ≤ length haystack.now }
        ensures { result ≡ holds (W.words self.now.words) self.now.terminator haystack.now Look.StartCRLF at }
    {
        match byte_before(haystack, at) {
            None | Some(b'\n') => true,
            Some(b'\r') => byte_at(haystack, at) != Some(b'\n'),
            Some(_) => false,
        }
    }

    /// Whether [`Look::EndCRLF`] holds.
    pub fn is_end_crlf(&self, haystack: &[u8], at: usize) -> bool
        requires { at ≤ length haystack.now }
        ensures { result ≡ holds (W.words self.now.words) self.now.terminator haystack.now Look.EndCRLF at }
    {
        match byte_at(haystack, at) {
            None | Some(b'\r') => true,
            Some(b'\n') => byte_before(haystack, at) != Some(b'\r'),
            Some(_) => false,
        }
    }

    /// Whether [`Look::WordAscii`] holds.
    pub fn is_word_ascii(&self, haystack: &[u8], at: usize) -> bool
        requires { at ≤ length haystack.now }
        ensures { result ≡ holds (W.words self.now.words) self.now.terminator haystack.now Look.WordAscii at }
    {
        Sides::by_bytes(haystack, at).is_edge()
    }

    /// Whether [`Look::WordAsciiNegate`] holds.
    pub fn is_word_ascii_negate(&self, haystack: &[u8], at: usize) -> bool
        requires { at ≤ length haystack.now }
        ensures { result ≡ holds (W.words self.now.words) self.now.terminator haystack.now Look.WordAsciiNegate at }
    {
        Sides::by_bytes(haystack, at).is_no_edge()
    }

    /// Whether [`Look::WordStartAscii`] holds.
    pub fn is_word_start_ascii(&self, haystack: &[u8], at: usize) -> bool
        requires { at ≤ length haystack.now }
        ensures { result ≡ holds (W.words self.now.words) self.now.terminator haystack.now Look.WordStartAscii at }
    {
        Sides::by_bytes(haystack, at).is_start()
    }

    /// Whether [`Look::WordEndAscii`] holds.
    pub fn is_word_end_ascii(&self, haystack: &[u8], at: usize) -> bool
        requires { at ≤ length haystack.now }
        ensures { result ≡ holds (W.words self.now.words) self.now.terminator haystack.now Look.WordEndAscii at }
    {
        Sides::by_bytes(haystack, at).is_end()
    }

    /// Whether [`Look::WordStartHalfAscii`] holds.
    pub fn is_word_start_half_ascii(&self, haystack: &[u8], at: usize) -> bool
        requires { at ≤ length haystack.now }
        ensures { result ≡ holds (W.words self.now.words) self.now.terminator haystack.now Look.WordStartHalfAscii at }
    {
        Sides::by_bytes(haystack, at).before.is_no_word()
    }

    /// Whether [`Look::WordEndHalfAscii`] holds.
    pub fn is_word_end_half_ascii(&self, haystack: &[u8], at: usize) -> bool
        requires { at ≤ length haystack.now }
        ensures { result ≡ holds (W.words self.now.words) self.now.terminator haystack.now Look.WordEndHalfAscii at }
    {
        Sides::by_bytes(haystack, at).after.is_no_word()
    }

    /// Whether [`Look::WordUnicode`] holds; never an error, since the class of words is at hand.
    pub fn is_word_unicode(
        &self,
        haystack: &[u8],
        at: usize,
    ) -> Result<bool, UnicodeWordBoundaryError>
        requires { at ≤ length haystack.now }
        ensures { result ≡ Ok (holds (W.words self.now.words) self.now.terminator haystack.now Look.WordUnicode at) }
    {
        Ok(self.sides(haystack, at).is_edge())
    }

    /// Whether [`Look::WordUnicodeNegate`] holds; never an error, since the class of words is at hand.
    pub fn is_word_unicode_negate(
        &self,
        haystack: &[u8],
        at: usize,
    ) -> Result<bool, UnicodeWordBoundaryError>
        requires { at ≤ length haystack.now }
        ensures { result ≡ Ok (holds (W.words self.now.words) self.now.terminator haystack.now Look.WordUnicodeNegate at) }
    {
        Ok(self.sides(haystack, at).is_no_edge())
    }

    /// Whether [`Look::WordStartUnicode`] holds; never an error, since the class of words is at hand.
    pub fn is_word_start_unicode(
        &self,
        haystack: &[u8],
        at: usize,
    ) -> Result<bool, UnicodeWordBoundaryError>
        requires { at ≤ length haystack.now }
        ensures { result ≡ Ok (holds (W.words self.now.words) self.now.terminator haystack.now Look.WordStartUnicode at) }
    {
        Ok(self.sides(haystack, at).is_start())
    }

    /// Whether [`Look::WordEndUnicode`] holds; never an error, since the class of words is at hand.
    pub fn is_word_end_unicode(
        &self,
        haystack: &[u8],
        at: usize,
    ) -> Result<bool, UnicodeWordBoundaryError>
        requires { at ≤ length haystack.now }
        ensures { result ≡ Ok (holds (W.words self.now.words) self.now.terminator haystack.now Look.WordEndUnicode at) }
    {
        Ok(self.sides(haystack, at).is_end())
    }

    /// Whether [`Look::WordStartHalfUnicode`] holds; never an error, since the class of words is at hand.
    pub fn is_word_start_half_unicode(
        &self,
        haystack: &[u8],
        at: usize,
    ) -> Result<bool, UnicodeWordBoundaryError>
        requires { at ≤ length haystack.now }
        ensures { result ≡ Ok (holds (W.words self.now.words) self.now.terminator haystack.now Look.WordStartHalfUnicode at) }
    {
        Ok(self.sides(haystack, at).before.is_no_word())
    }

    /// Whether [`Look::WordEndHalfUnicode`] holds; never an error, since the class of words is at hand.
    pub fn is_word_end_half_unicode(
        &self,
        haystack: &[u8],
        at: usize,
    ) -> Result<bool, UnicodeWordBoundaryError>
        requires { at ≤ length haystack.now }
        ensures { result ≡ Ok (holds (W.words self.now.words) self.now.terminator haystack.now Look.WordEndHalfUnicode at) }
    {
        Ok(self.sides(haystack, at).after.is_no_word())
    }

    fn sides(&self, haystack: &[u8], at: usize) -> Sides
        requires { at ≤ length haystack.now }
        ensures before { side_of result.before ≡ (by_characters (W.words self.now.words)).before haystack.now at }
        ensures after { side_of result.after ≡ (by_characters (W.words self.now.words)).after haystack.now at }
    {
        Sides::by_characters(&self.words, haystack, at)
    }

    /// Whether the look holds at the offset.
    pub fn matches(&self, look: Look, haystack: &[u8], at: usize) -> bool
        requires { at ≤ length haystack.now }
        ensures { result ≡ holds (W.words self.now.words) self.now.terminator haystack.now look at }
    {
        match look {
            Look::Start => self.is_start(haystack, at),
            Look::End => self.is_end(haystack, at),
            Look::StartLF => self.is_start_lf(haystack, at),
            Look::EndLF => self.is_end_lf(haystack, at),
            Look::StartCRLF => self.is_start_crlf(haystack, at),
            Look::EndCRLF => self.is_end_crlf(haystack, at),
            Look::WordAscii => self.is_word_ascii(haystack, at),
            Look::WordAsciiNegate => self.is_word_ascii_negate(haystack, at),
            Look::WordUnicode => self.sides(haystack, at).is_edge(),
            Look::WordUnicodeNegate => self.sides(haystack, at).is_no_edge(),
            Look::WordStartAscii => self.is_word_start_ascii(haystack, at),
            Look::WordEndAscii => self.is_word_end_ascii(haystack, at),
            Look::WordStartUnicode => self.sides(haystack, at).is_start(),
            Look::WordEndUnicode => self.sides(haystack, at).is_end(),
            Look::WordStartHalfAscii => self.is_word_start_half_ascii(haystack, at),
            Look::WordEndHalfAscii => self.is_word_end_half_ascii(haystack, at),
            Look::WordStartHalfUnicode => self.sides(haystack, at).before.is_no_word(),
            Look::WordEndHalfUnicode => self.sides(haystack, at).after.is_no_word(),
        }
    }

    /// Whether every look of the set holds at the offset. For the empty set the result is true.
    #[tactic(auto, using(crate::proofs::MemberLemmas::members_pass, crate::proofs::MemberLemmas::all_members_pass))]
    pub fn matches_set(&self, set: LookSet, haystack: &[u8], at: usize) -> bool
        requires { at ≤ length haystack.now }
        ensures { IsTrue result ↔ ((l : TheLook) → has_look set l ≡ true →
            holds (W.words self.now.words) self.now.terminator haystack.now l at ≡ true) }
    {
        self.matches_all(set.iter(), haystack, at)
    }

    fn matches_all(&self, looks: LookSetIter, haystack: &[u8], at: usize) -> bool
        requires { at ≤ length haystack.now }
        ensures { result ≡ list_all (λ l. holds (W.words self.now.words) self.now.terminator haystack.now l at) looks }
    {
        for look in looks {
            if !self.matches(look, haystack, at) {
                return false;
            }
        }
        true
    }

    /// Adds the ranges of bytes that the look distinguishes to the set from which byte classes are made.
    pub fn add_to_byteset(&self, look: Look, set: &mut ByteClassSet)
        ensures { set.new ≡ recorded set.old (ranges_apart self.now.terminator look) }
    {
        match look {
            Look::Start | Look::End => {}
            Look::StartLF | Look::EndLF => add_line_ends(self.terminator, set),
            Look::StartCRLF | Look::EndCRLF => add_crlf(set),
            Look::WordAscii
            | Look::WordAsciiNegate
            | Look::WordUnicode
            | Look::WordUnicodeNegate
            | Look::WordStartAscii
            | Look::WordEndAscii
            | Look::WordStartUnicode
            | Look::WordEndUnicode
            | Look::WordStartHalfAscii
            | Look::WordEndHalfAscii
            | Look::WordStartHalfUnicode
            | Look::WordEndHalfUnicode => add_words(set),
        }
    }
}

impl Default for LookMatcher<AsciiWord> {
    fn default() -> LookMatcher<AsciiWord>
        ensures { result.terminator ≡ one_of 0x0A }
    {
        LookMatcher::new(AsciiWord)
    }
}

fn add_line_ends(terminator: LineTerm, set: &mut ByteClassSet)
    ensures { set.new ≡ recorded set.old (line_ends terminator) }
{
    let first = terminator.first();
    set.set_range(first, first);
    if let Some(second) = terminator.second() {
        set.set_range(second, second);
    }
}

fn add_crlf(set: &mut ByteClassSet)
    ensures { set.new ≡ recorded set.old crlf_ranges }
{
    set.set_range(b'\n', b'\n');
    set.set_range(b'\r', b'\r');
}

fn add_words(set: &mut ByteClassSet)
    ensures { set.new ≡ recorded set.old word_ranges }
{
    set.set_range(b'0', b'9');
    set.set_range(b'A', b'Z');
    set.set_range(b'_', b'_');
    set.set_range(b'a', b'z');
}
