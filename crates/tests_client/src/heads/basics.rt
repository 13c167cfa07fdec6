ghost use Rattle.std.specs.Prelude.{◌≡◌, ◌≤◌, ◌<◌, ℕ, List, slice_index};
ghost use Rattle.search_core.specs.Classes.{IsRising};
ghost use Rattle.search_core.specs.Index.{greatest_index};
ghost use Rattle.search_core.specs.Utf8.{Spells};

use search_core::class_laws::classes_that_rise_are_numbered_by_the_last;
use search_core::index_laws::pattern_id_constants;
use search_core::utf8_laws::one_spelling_for_a_scalar;
use search_core::{PatternID, PatternIDError, utf8};

pub fn second_pattern() -> Result<PatternID, PatternIDError> {
    PatternID::new(1)
}

pub fn no_class_is_above_the_last()
    ensures { (cs : List ℕ) (b : ℕ) → IsRising cs → b < 256 → slice_index cs b ≤ slice_index cs 255 }
{
    classes_that_rise_are_numbered_by_the_last();
}

pub fn last_pattern() -> PatternID
    ensures { result ≡ greatest_index }
{
    pattern_id_constants().1
}

pub fn starts_with_a_character(bytes: &[u8]) -> bool {
    matches!(utf8::decode(bytes), Some(Ok(_)))
}

pub fn scalars_are_spelled_once()
    ensures { (c : ℕ) (s t : List ℕ) → Spells c s → Spells c t → s ≡ t }
{
    one_spelling_for_a_scalar();
}
