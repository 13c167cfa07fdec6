use look_core::WordClass;
use ucd_perl::is_word_character;

/// What `\w` matches in Unicode text: the words of looks that ask for words of Unicode.
#[derive(Clone, Copy, Debug, PartialEq, Eq, Default)]
pub struct UnicodeWord;

impl WordClass for UnicodeWord {
    ghost use Rattle.ucd_perl.specs.Perl.{is_word_char};
    ghost use Rattle.pattern_text.specs.Words.{word_set};

    ghost words = { λ _. is_word_char };

    fn is_word(&self, c: char) -> bool {
        is_word_character(c)
    }

    ghost ascii = { λ _. word_set };
}
