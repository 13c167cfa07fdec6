ghost use Rattle.std.specs.Prelude.{◌≡◌, ◌+◌, ◌≤◌, ◌++◌, ◌∷◌, [], ℕ, suc, Bool, List, Option, None, length, false, true};
ghost use Rattle.determinize_core.specs.StateBytes.{encoded};
ghost use Rattle.determinize_core.specs.States.{StateValue};
ghost use Rattle.search_types.specs.Inputs.{Search};
ghost use Rattle.search_types.specs.declared.anchored.Anchored.{Anchored};
ghost use Rattle.search_types.specs.declared.match_kind.MatchKind.TheVariants.{All as AllMatches};
ghost use Rattle.nfa_core.specs.Nfa.{Automaton};
ghost use Rattle.nfa_core.specs.Places.{same_pair};
ghost use Rattle.nfa_core.specs.Walks.{HasNoneTwice};
ghost use Rattle.lazy_dfa.specs.Accounting.{Measures, state_cost, measured_usage};
ghost use Rattle.lazy_dfa.specs.Caches.{CacheValue, HeldAt, IsCacheOf, greatest, has_no_room};
ghost use Rattle.lazy_dfa.specs.Changes.{Changes, IsMadeBy};
ghost use Rattle.lazy_dfa.specs.Dfas.{Dfa};
ghost use Rattle.lazy_dfa.specs.LeftProgress.{HasRowOf};
ghost use Rattle.lazy_dfa.specs.ScanLaws.{scan_len_of};
ghost use Rattle.lazy_dfa.specs.Scans.{scan, start_name};
ghost use Rattle.lazy_dfa.specs.Quits.{has_unicode_word, quit_bytes};
ghost use Rattle.lazy_dfa.specs.Readers.{Reader, found};
ghost use Rattle.lazy_dfa.specs.HalfSearchLaws.{Agree, IsInScan};
ghost use Rattle.lazy_dfa.specs.HalfSearches.{half_search};
ghost use Rattle.lazy_dfa.specs.OverlappingLaws.{IsBegun};
ghost use Rattle.lazy_dfa.specs.Overlapping.{whole_rest};

use lazy_dfa::BuildError;
use lazy_dfa::accounting_laws::states_add_to_the_usage;
use lazy_dfa::cache_laws::rows_name_different_states;
use lazy_dfa::change_laws::searches_clear_for_states;
use lazy_dfa::dfa::{Cache, Config};
use lazy_dfa::pass_laws::passes_read_one_unit_more_at_most;
use lazy_dfa::quit_laws::quit_bytes_are_set_by_hand_or_high;
use lazy_dfa::reach_laws::passes_depend_on_their_reach;
use lazy_dfa::room_laws::held_states_have_room;
use lazy_dfa::scan_laws::scans_for_no_pattern_find_nothing;
use lazy_dfa::walk_laws::walks_for_all_tell_each_end_once;
use nfa_core::NFA;

pub fn was_never_cleared(cache: &Cache) -> bool {
    cache.clear_count() == 0
}

pub fn a_state_more()
    ensures { (m : Measures) (vs : List StateValue) (v : StateValue) →
        measured_usage m (vs ++ v ∷ []) ≡ measured_usage m vs + state_cost m.stride (length (encoded v)) }
{
    states_add_to_the_usage();
}

pub fn ids_tell_states_apart()
    ensures { (d : Dfa) (c : CacheValue) (i j : ℕ) (v w : StateValue) → IsCacheOf d c → HeldAt c i v → HeldAt c j w → (i ≡ j → ⊥) →
        v ≡ w → ⊥ }
{
    rows_name_different_states();
}

pub fn few_clears()
    ensures { (d : Dfa) (q : Search) (old new : CacheValue) (n : ℕ) → Changes d (IsMadeBy d q) old new n → old.clears ≤ greatest →
        new.clears ≤ old.clears + n }
{
    searches_clear_for_states();
}

pub fn least_capacity(nfa: &NFA) -> Result<usize, BuildError> {
    Config::new().get_minimum_cache_capacity(nfa)
}

pub fn a_state_that_is_held_has_room()
    ensures { (d : Dfa) (v : CacheValue) (s : StateValue) → HasRowOf v s → has_no_room d v s ≡ true → ⊥ }
{
    held_states_have_room();
}

pub fn passes_come_to_an_end()
    ensures { (r : Reader) (m : Anchored) (b : Bool) (h : List ℕ) (n i : ℕ) → scan_len_of r m b h n i ≤ suc n }
{
    passes_read_one_unit_more_at_most();
}

pub fn no_words_no_further_quits()
    ensures { (a : Automaton) (on : Bool) (set : List Bool) → has_unicode_word a ≡ false → quit_bytes a on set ≡ set }
{
    quit_bytes_are_set_by_hand_or_high();
}

pub fn passes_read_their_reach()
    ensures { (r : Reader) (m : Anchored) (b : Bool) (h g : List ℕ) (n i : ℕ) → Agree h g (IsInScan r m b h n i) →
        scan r m b h n i ≡ scan r m b g n i }
{
    passes_depend_on_their_reach();
}

pub fn nothing_is_found_of_no_pattern()
    ensures { (r : Reader) (q : Search) (o : Option (ℕ × ℕ)) → start_name r.automaton q.anchored ≡ None →
        half_search r q ≡ found o → o ≡ None }
{
    scans_for_no_pattern_find_nothing();
}

pub fn ends_are_told_once()
    ensures { (r : Reader) (q : Search) (s : ℕ) → r.kind ≡ AllMatches → IsBegun r q s → (whole_rest r q).rejection ≡ None →
        HasNoneTwice same_pair (whole_rest r q).ends }
{
    walks_for_all_tell_each_end_once();
}
