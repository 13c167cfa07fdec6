ghost use Rattle.std.specs.Prelude.{◌≡◌, ℕ, Bool};
ghost use Rattle.look_core.specs.Looks.{IsWordSet};
ghost use Rattle.look_core.specs.Words.{ascii_words};

use search_core::utf8::is_word_byte;

/// Which characters are words. It agrees with the word bytes of ASCII: digits, letters and the
/// underscore.
pub trait WordClass {
    ghost words: { Self → ℕ → Bool };

    /// Whether the character is a word.
    fn is_word(&self, c: char) -> bool
        ensures { result ≡ words self.now c };

    ghost ascii: { (w : Self) → IsWordSet (words w) };
}

/// The word bytes of ASCII, and no other character.
#[derive(Clone, Copy, Debug, PartialEq, Eq, Default)]
pub struct AsciiWord;

impl WordClass for AsciiWord {
    ghost use Rattle.std.specs.Prelude.{refl};

    ghost words = { λ _. ascii_words };

    fn is_word(&self, c: char) -> bool {
        c.is_ascii() && is_word_byte(c as u8)
    }

    ghost ascii = { λ _ c _. refl };
}
