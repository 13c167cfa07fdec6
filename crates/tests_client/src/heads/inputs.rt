ghost use Rattle.std.specs.Prelude.{◌≡◌, ◌<◌, ◌↔◌, ℕ, List, Option, Some, None, length};
ghost use Rattle.search_types.specs.AllAnswers.{AnswersWithin, EndsRise, all_answers};
ghost use Rattle.search_types.specs.CapturesValue.{first_slot};
ghost use Rattle.search_types.specs.Found.{Found};
ghost use Rattle.search_types.specs.GroupFaults.{group_fault};
ghost use Rattle.search_types.specs.Groups.{Groups, Name, groups_of, slot, to_index, to_name};
ghost use Rattle.search_types.specs.LeftmostAnswer.{leftmost_answer, IsAnswer};
ghost use Rattle.search_types.specs.declared.anchored.Anchored.{Anchored as Mode};

use search_types::all_answers_laws::ends_rise;
use search_types::answer_laws::{a_search_has_one_answer, the_computed_answer_is_the_leftmost};
use search_types::captures_laws::slots_of_one_pattern;
use search_types::group_laws::names_and_indices_agree;
use search_types::{Anchored, Input};

pub fn at_the_start(haystack: &[u8]) -> Input<'_> {
    Input::new(haystack).anchored(Anchored::Yes)
}

pub fn no_end_comes_twice()
    ensures { (answer : ℕ → Option Found) (s e : ℕ) → AnswersWithin answer e → EndsRise None (all_answers answer s e) }
{
    ends_rise();
}

pub fn answers_are_computed()
    ensures { (at : ℕ → List (ℕ × ℕ)) (m : Mode) (s e : ℕ) (o : Option Found) → IsAnswer at m s e o → o ≡ leftmost_answer at m s e }
{
    the_computed_answer_is_the_leftmost();
    a_search_has_one_answer();
}

pub fn slots_of_one()
    ensures { (gs : Groups) (g : ℕ) → length gs ≡ 1 → g < length (groups_of gs 0) → first_slot gs 0 g ≡ slot gs 0 g }
{
    slots_of_one_pattern();
}

pub fn names_come_back()
    ensures { (gs : Groups) (p g : ℕ) (n : Name) → group_fault gs ≡ None → (to_index gs p n ≡ Some g) ↔ (to_name gs p g ≡ Some n) }
{
    names_and_indices_agree();
}
