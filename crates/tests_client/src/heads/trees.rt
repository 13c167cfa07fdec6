ghost use Rattle.std.specs.Prelude.{◌≡◌, ◌≤◌, ◌<◌, ℕ, List, Some, length, take, slice_get, true};
ghost use Rattle.search_core.specs.Utf8.{IsValidText, Spells, is_boundary};
ghost use Rattle.look_core.specs.declared.look.Look.TheVariants.{StartLF};
ghost use Rattle.hir_core.specs.BySequences.{by_sequences};
ghost use Rattle.hir_core.specs.Facts.{is_utf8_tree, maximum_len, LoopsRead};
ghost use Rattle.hir_core.specs.Means.{Looks, Means};
ghost use Rattle.hir_core.specs.PreferredEnds.{preferred_ends, Has};
ghost use Rattle.hir_core.specs.Sequences.{is_in_ranges, utf8_sequences};
ghost use Rattle.hir_core.specs.Tree.{Tree, look};

use hir_core::Hir;
use hir_core::cut_laws::cut_haystacks_have_the_spans_within;
use hir_core::fact_laws::spans_of_no_length_are_empty;
use hir_core::laws::{preferred_ends_are_meant, spans_stay_in_the_haystack};
use hir_core::sequence_tree_laws::sequence_trees_read;
use hir_core::span_laws::spans_of_utf8_trees_stand_at_boundaries;
use hir_core::utf8_sequences_laws::strings_are_spellings;
use look_core::Look;

pub fn start_of_line() -> Hir
    ensures { result ≡ look StartLF }
{
    Hir::look(Look::StartLF)
}

pub fn spans_end_within()
    ensures { (f : Looks) (h : List ℕ) (e : ℕ) (x : Tree) (i j : ℕ) → i ≤ e → Means f (take e h) x i j → j ≤ e }
{
    cut_haystacks_have_the_spans_within();
}

pub fn spans_are_empty()
    ensures { (f : Looks) (h : List ℕ) (x : Tree) (i j : ℕ) → maximum_len x ≡ Some 0 → Means f h x i j → i ≡ j }
{
    spans_of_no_length_are_empty();
}

pub fn preferred_ends_go_forward()
    ensures { (f : Looks) (h : List ℕ) (x : Tree) (i j : ℕ) → Has (preferred_ends f h x i) j → i ≤ j }
{
    preferred_ends_are_meant();
    spans_stay_in_the_haystack();
}

pub fn sequences_are_no_loops()
    ensures { (ranges : List (ℕ × ℕ)) → LoopsRead (by_sequences ranges) }
{
    sequence_trees_read();
}

pub fn spans_start_at_boundaries()
    ensures { (f : Looks) (h : List ℕ) (x : Tree) (i j : ℕ) → IsValidText h → is_utf8_tree x ≡ true → Means f h x i j → i < j →
        j ≤ length h → is_boundary h i ≡ true }
{
    spans_of_utf8_trees_stand_at_boundaries();
}

pub fn strings_have_scalars()
    ensures { (lo hi i : ℕ) (rs : List (ℕ × ℕ)) (s : List ℕ) → slice_get (utf8_sequences lo hi) i ≡ Some rs →
        is_in_ranges rs s ≡ true → (c : ℕ) × (lo ≤ c) × (c ≤ hi) × Spells c s }
{
    strings_are_spellings();
}
