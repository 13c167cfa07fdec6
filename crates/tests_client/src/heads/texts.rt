ghost use Rattle.regex_hir.specs.Re.{Re};
ghost use Rattle.hir_core.specs.Facts.{LoopsRead};
ghost use Rattle.hir_core.specs.Tree.{Tree};
ghost use Rattle.pattern_text.specs.SameEnds.{SameEnds, SameSpans};

use hir_core::Hir;
use pattern_text::laws::same_ends_are_same_spans;
use pattern_text::{Config, ParseError, parse};
use std::alloc::Global;

pub fn in_either_case(alloc: Global, text: &str) -> Result<Hir, ParseError> {
    parse(alloc, text, &Config::new().case_insensitive(true))
}

pub fn ends_tell_spans()
    ensures { (a : Re) (x : Tree) → LoopsRead x → SameEnds a x → SameSpans a x }
{
    same_ends_are_same_spans();
}
