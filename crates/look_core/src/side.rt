ghost use Rattle.std.specs.Prelude.{◌≡◌, ◌≤◌, length};
ghost use Rattle.search_core.specs.Text.{byte_at, byte_before};
ghost use Rattle.search_core.specs.Characters.{character_at, character_before};
ghost use Rattle.look_core.specs.Looks.{is_word, is_no_word, is_edge_of_word, is_no_edge_of_word, is_start_of_word, is_end_of_word};
ghost use Rattle.look_core.specs.Looks.{word_if, byte_side, character_side};
ghost use Rattle.look_core.specs.Sides.{side_of, decoded_side};

use crate::word_class::WordClass;
use search_core::utf8::{decode, decode_last, is_word_byte};

/// What one side of an offset reads as.
#[derive(Clone, Copy)]
pub(crate) enum Side {
    /// A word.
    Word,
    /// No word, or the edge of the haystack.
    NoWord,
    /// A byte of no character that ends or begins at the offset.
    Broken,
}

impl Side {
    pub(crate) fn is_word(self) -> bool
        ensures { result ≡ is_word (side_of self) }
    {
        matches!(self, Side::Word)
    }

    pub(crate) fn is_no_word(self) -> bool
        ensures { result ≡ is_no_word (side_of self) }
    {
        matches!(self, Side::NoWord)
    }
}

/// The two sides of an offset.
#[derive(Clone, Copy)]
pub(crate) struct Sides {
    pub(crate) before: Side,
    pub(crate) after: Side,
}

impl Sides {
    /// The sides as bytes of ASCII.
    pub(crate) fn by_bytes(haystack: &[u8], at: usize) -> Sides
        requires { at ≤ length haystack.now }
        ensures before { side_of result.before ≡ byte_side (byte_before haystack.now at) }
        ensures after { side_of result.after ≡ byte_side (byte_at haystack.now at) }
    {
        Sides {
            before: byte_side(byte_before(haystack, at)),
            after: byte_side(byte_at(haystack, at)),
        }
    }

    /// The sides as characters.
    #[tactic(auto, using(crate::proofs::SideLemmas::decoded_behind, crate::proofs::SideLemmas::decoded_in_front))]
    pub(crate) fn by_characters<W: WordClass>(words: &W, haystack: &[u8], at: usize) -> Sides
        requires { at ≤ length haystack.now }
        ensures before { side_of result.before ≡
            character_side (W.words words.now) (byte_before haystack.now at) (character_before haystack.now at) }
        ensures after { side_of result.after ≡ character_side (W.words words.now) (byte_at haystack.now at) (character_at haystack.now at) }
    {
        Sides {
            before: decoded_side(words, decode_last(&haystack[..at])),
            after: decoded_side(words, decode(&haystack[at..])),
        }
    }

    /// A word on one side alone.
    pub(crate) fn is_edge(self) -> bool
        ensures { result ≡ is_edge_of_word (side_of self.before) (side_of self.after) }
    {
        self.before.is_word() != self.after.is_word()
    }

    /// Two words or none; a broken side is neither.
    pub(crate) fn is_no_edge(self) -> bool
        ensures { result ≡ is_no_edge_of_word (side_of self.before) (side_of self.after) }
    {
        (self.before.is_word() && self.after.is_word())
            || (self.before.is_no_word() && self.after.is_no_word())
    }

    pub(crate) fn is_start(self) -> bool
        ensures { result ≡ is_start_of_word (side_of self.before) (side_of self.after) }
    {
        !self.before.is_word() && self.after.is_word()
    }

    pub(crate) fn is_end(self) -> bool
        ensures { result ≡ is_end_of_word (side_of self.before) (side_of self.after) }
    {
        self.before.is_word() && !self.after.is_word()
    }
}

/// The byte right before the offset.
pub(crate) fn byte_before(haystack: &[u8], at: usize) -> Option<u8>
    requires { at ≤ length haystack.now }
    ensures { result ≡ byte_before haystack.now at }
{
    if at == 0 {
        return None;
    }
    Some(haystack[at - 1])
}

/// The byte right after the offset.
pub(crate) fn byte_at(haystack: &[u8], at: usize) -> Option<u8>
    ensures { result ≡ byte_at haystack.now at }
{
    haystack.get(at).copied()
}

fn word_if(found: bool) -> Side
    ensures { side_of result ≡ word_if found }
{
    if found { Side::Word } else { Side::NoWord }
}

fn byte_side(byte: Option<u8>) -> Side
    ensures { side_of result ≡ byte_side byte }
{
    match byte {
        Some(byte) => word_if(is_word_byte(byte)),
        None => Side::NoWord,
    }
}

fn decoded_side<W: WordClass>(words: &W, read: Option<Result<char, u8>>) -> Side
    ensures { side_of result ≡ decoded_side (W.words words.now) read }
{
    match read {
        None => Side::NoWord,
        Some(Err(_)) => Side::Broken,
        Some(Ok(c)) => word_if(words.is_word(c)),
    }
}
