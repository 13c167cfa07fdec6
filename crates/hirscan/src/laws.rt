//! Laws of the reply, and those of answers, which `hir_regex` has. Each function has no code: its contract is the law.
ghost use Rattle.std.specs.Prelude.{◌≡◌, ◌⊎◌, ℕ, List};
ghost use Rattle.hir_core.specs.Tree.{Tree};
ghost use Rattle.hirscan.specs.declared.ending.Ending.{Ending};
ghost use Rattle.hirscan.specs.declared.line.Setup.{Setup};
ghost use Rattle.hirscan.specs.declared.ending.Ending.TheVariants.{Listed, Refused};
ghost use Rattle.hirscan.specs.Reply.{Asks, IsInputRejected, IsReply, error_line};

pub use hir_regex::laws::{
    an_answer_is_meant, answers_over_trees_stay_within, answers_start_and_end_where_it_counts,
    ends_of_answers_rise, loops_read_tells,
};

/// An input is rejected for what shows in it, or asks for a search. A rejected input has that reply alone. An input whose matches
/// are all listed has no other list.
pub fn replies_agree()
    ensures some { (input : List ℕ) → ((cause : List ℕ) × IsInputRejected input cause)
        ⊎ ((setup : Setup) × (xs : List Tree) × (h : List ℕ) × Asks input setup xs h) }
    ensures refused { (input cause : List ℕ) (e : Ending) (t : List ℕ) → IsInputRejected input cause → IsReply input e t →
        (e ≡ Refused) × (t ≡ error_line cause) }
    ensures listed { (input s t : List ℕ) → IsReply input Listed s → IsReply input Listed t → s ≡ t }
{}
