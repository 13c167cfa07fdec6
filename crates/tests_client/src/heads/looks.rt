ghost use Rattle.std.specs.Prelude.{◌≡◌, ◌||◌, ◌==◌, ℕ, Bool, List, false};
ghost use Rattle.look_core.specs.Codes.{is_word_unicode, reversed};
ghost use Rattle.look_core.specs.Looks.{holds, holds_ascii};
ghost use Rattle.look_core.specs.Terminators.{Terminator, ends_line, two_of};
ghost use Rattle.look_core.specs.declared.look.Look.{Look as TheLook};

use look_core::laws::other_looks_read_bytes;
use look_core::look_set_laws::reversed_twice;
use look_core::matcher_laws::two_bytes_end_lines;
use look_core::{Look, LookMatcher};

pub fn is_edge_of_word(haystack: &[u8], at: usize) -> bool {
    at <= haystack.len() && LookMatcher::default().matches(Look::WordAscii, haystack, at)
}

pub fn lines_are_read_by_bytes()
    ensures { (words : ℕ → Bool) (t : Terminator) (h : List ℕ) (l : TheLook) (i : ℕ) → is_word_unicode l ≡ false →
        holds words t h l i ≡ holds_ascii t h l i }
{
    other_looks_read_bytes();
}

pub fn twice_is_not_at_all()
    ensures { (l : TheLook) → reversed (reversed l) ≡ l }
{
    reversed_twice();
}

pub fn both_end_lines()
    ensures { ends_line (two_of 13 10) 10 ≡ ((13 == 10) || (10 == 10)) }
{
    two_bytes_end_lines();
}
