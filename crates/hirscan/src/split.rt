// The words of a line, read one after the other.
ghost use Rattle.std.specs.Prelude.{◌≡◌, ◌==◌, ◌∷◌, take, IfOk};
ghost use Rattle.std.specs.List.{position};
ghost use Rattle.std.specs.Iterator.{YieldsFirstBy, item_count};
ghost use Rattle.thompson_nfa.specs.LiteralGroups.{texts};
ghost use Rattle.hirscan.specs.Words.{words};
ghost use Rattle.hirscan.specs.QueryReports.{words_left_of, words_left};

use std::alloc::{AllocError, Global};

/// The words of a line that are still to be read, from left to right: those of what is left of it, if anything is.
#[derive(Clone, Copy)]
pub(crate) struct WordsLeft<'a> {
    left: Option<&'a [u8]>,
}

/// The offset at which a byte first occurs.
pub(crate) fn offset_of(text: &[u8], byte: u8) -> Option<usize>
    ensures { result ≡ position (λ b. b == byte) text.now }
{
    text.iter().position(|b| *b == byte)
}

/// The first word of a text, and what follows the space after it, if there is one.
#[tactic(auto, using(crate::proofs::SplitLemmas::first_of_more, crate::proofs::SplitLemmas::first_alone))]
fn split_word(text: &[u8]) -> (&[u8], Option<&[u8]>)
    ensures { words text.now ≡ result.0.now ∷ words_left_of result.1 }
{
    match offset_of(text, b' ') {
        Some(len) => (&text[..len], Some(&text[len + 1..])),
        None => (text, None),
    }
}

impl<'a> WordsLeft<'a> {
    /// All words of a line.
    pub(crate) fn of(line: &'a [u8]) -> WordsLeft<'a>
        ensures { words_left result ≡ words line.now }
    {
        WordsLeft { left: Some(line) }
    }

    /// The first of these words, as many as there are up to this number. Any failed allocation ends the call.
    pub(crate) fn at_most(self, alloc: Global, number: usize) -> Result<Vec<&'a [u8]>, AllocError>
        ensures { IfOk result (λ found. texts found.items ≡ take number (words_left self.entry)) }
    {
        let mut found = Vec::new(alloc);
        for word in self {
            if found.len() == number {
                return Ok(found);
            }
            found.push(word)?;
        }
        Ok(found)
    }
}

impl<'a> Iterator for WordsLeft<'a> {
    type Item = &'a [u8];

    ghost next_gives = { YieldsFirstBy (λ w. w.now) words_left };

    ghost remaining = { item_count words_left };

    fn next(&mut self) -> Option<&'a [u8]> {
        let (word, left) = split_word(self.left?);
        self.left = left;
        Some(word)
    }
}
