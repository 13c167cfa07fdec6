//! Laws of overlapping searches: which ends they report, and in which order. Each function has no code: its contract is the law.
//! ```rust
//! pub fn ends_are_told_once()
//!     ensures { (r : Reader) (q : Search) (s : ℕ) → r.kind ≡ AllMatches → IsBegun r q s → (whole_rest r q).rejection ≡ None →
//!         HasNoneTwice same_pair (whole_rest r q).ends }
//! {
//!     walks_for_all_tell_each_end_once();
//! }
//! ```
ghost use Rattle.std.specs.Prelude.{◌≡◌, ◌⊎◌, ℕ, suc, ◌-◌, ◌<◌, ◌≤◌, ◌↔◌, Bool, true, false, List, [], length, Some, None};
ghost use Rattle.std.specs.Bool.{nat_eq};
ghost use Rattle.std.specs.List.{filter};
ghost use Rattle.search_core.specs.ByteSets.{has};
ghost use Rattle.search_types.specs.Inputs.{Search};
ghost use Rattle.search_types.specs.Modes.{is_supported};
ghost use Rattle.search_types.specs.Places.{counts};
ghost use Rattle.search_types.specs.declared.match_error.MatchErrorKind.{MatchErrorKind};
ghost use Rattle.search_types.specs.declared.match_error.MatchErrorKind.TheVariants.{Quit, UnsupportedAnchored};
ghost use Rattle.search_types.specs.declared.match_kind.MatchKind.TheVariants.{All as AllMatches};
ghost use Rattle.nfa_core.specs.Places.{same_pair};
ghost use Rattle.nfa_core.specs.Walks.{Has, HasNoneTwice};
ghost use Rattle.lazy_dfa.specs.Caches.{CacheValue, IsCacheOf, greatest};
ghost use Rattle.lazy_dfa.specs.Dfas.{Dfa};
ghost use Rattle.lazy_dfa.specs.Linked.{CacheGrows, GrowsOrClears};
ghost use Rattle.lazy_dfa.specs.Scans.{start_name};
ghost use Rattle.lazy_dfa.specs.ScanLaws.{HasNoQuitBefore, IsQuitBefore};
ghost use Rattle.lazy_dfa.specs.Readers.{Reader};
ghost use Rattle.lazy_dfa.specs.HalfSearchLaws.{begins_at, ends_of, IsQuitNear, HasNoQuitNear};
ghost use Rattle.lazy_dfa.specs.Overlapping.{whole_rest, nothing_left, refused, CanContinue};
ghost use Rattle.lazy_dfa.specs.OverlappingAnswers.{which_from, with_ends};
ghost use Rattle.lazy_dfa.specs.OverlappingLaws.{IsBegun, IsInReadingOrder, IsQuitUnit, span_ends};
ghost use Rattle.lazy_dfa.specs.declared.overlapping.overlapping_state.OverlappingPosition.{OverlappingPosition};

/// If all matches are asked for and the search meets no quit byte, an overlapping search reports the ends of all runs. It reports
/// them offset by offset in reading order. At one offset, the ends of preferred runs come first.
pub fn walks_for_all_tell_the_ends_by_place()
    ensures { (r : Reader) (q : Search) (name : ℕ) → r.kind ≡ AllMatches → IsBegun r q name → (whole_rest r q).rejection ≡ None →
        (whole_rest r q).ends ≡ span_ends r q name (suc (q.end - q.start)) }
{}

/// If all matches are asked for and the search meets no quit byte, an overlapping search reports pairs of an offset and a
/// pattern. These are exactly the pairs such that the offset counts and a run of the pattern ends there. Each pair is reported
/// once. The offsets are in reading order, and at one offset the ends of preferred runs come first.
pub fn walks_for_all_tell_each_end_once()
    ensures exactly { (r : Reader) (q : Search) (name : ℕ) (x : ℕ × ℕ) → r.kind ≡ AllMatches → IsBegun r q name →
        (whole_rest r q).rejection ≡ None →
        Has same_pair x (whole_rest r q).ends ↔ (Has same_pair x (ends_of r q name 0) ×
        (counts r.between_characters q.haystack x.0 ≡ true)) }
    ensures once { (r : Reader) (q : Search) (name : ℕ) → r.kind ≡ AllMatches → IsBegun r q name → (whole_rest r q).rejection ≡ None →
        HasNoneTwice same_pair (whole_rest r q).ends }
    ensures ordered { (r : Reader) (q : Search) (name : ℕ) → r.kind ≡ AllMatches → IsBegun r q name → (whole_rest r q).rejection ≡ None →
        IsInReadingOrder r.automaton.reverse (whole_rest r q).ends }
    ensures best { (r : Reader) (q : Search) (name j : ℕ) → r.kind ≡ AllMatches → IsBegun r q name → (whole_rest r q).rejection ≡ None →
        counts r.between_characters q.haystack j ≡ true →
        filter (λ x. nat_eq x.0 j) (whole_rest r q).ends ≡ filter (λ x. nat_eq x.0 j) (ends_of r q name 0) }
{}

/// If all matches are asked for, an overlapping search that meets a quit byte reports the ends before this byte's unit. It
/// doesn't report the ends at the quit byte's own position, since a match shows one unit late. If the look-behind byte of the
/// start is a quit byte, the search reports nothing.
pub fn walks_for_all_tell_the_ends_before_a_quit_byte()
    ensures { (r : Reader) (q : Search) (name b x : ℕ) → r.kind ≡ AllMatches → IsBegun r q name →
        (whole_rest r q).rejection ≡ Some (Quit b x) →
        (IsQuitBefore r q.haystack (begins_at r q) b x × ((whole_rest r q).ends ≡ [])) ⊎
        (HasNoQuitBefore r q.haystack (begins_at r q) × ((m : ℕ) × IsQuitUnit r q m b x × ((whole_rest r q).ends ≡ span_ends r q name m))) }
{}

/// Under either match kind, each end that an overlapping search reports lies in the span and at an offset that counts.
pub fn walks_tell_ends_in_their_span()
    ensures { (r : Reader) (q : Search) (x : ℕ × ℕ) → q.start ≤ q.end → Has same_pair x (whole_rest r q).ends →
        (q.start ≤ x.0) × (x.0 ≤ q.end) × (counts r.between_characters q.haystack x.0 ≡ true) }
{}

/// Nothing is left of an overlapping search over a done span. A search for a pattern that doesn't exist reports no end.
pub fn walks_may_have_nothing_to_tell()
    ensures done { (r : Reader) (q : Search) → q.end < q.start → whole_rest r q ≡ nothing_left }
    ensures no_pattern { (r : Reader) (q : Search) → start_name r.automaton q.anchored ≡ None → (whole_rest r q).ends ≡ [] }
{}

/// An overlapping search fails at a quit byte in its span or next to it. In a mode in which the automaton can't search, it fails
/// at once. If no quit byte is in the span or next to it, and the mode is supported, it doesn't fail.
pub fn walks_are_refused_by_quit_bytes_and_modes_alone()
    ensures quits { (r : Reader) (q : Search) (b x : ℕ) → (whole_rest r q).rejection ≡ Some (Quit b x) →
        IsQuitNear r q.haystack q.start q.end b x }
    ensures unsupported { (r : Reader) (q : Search) → q.start ≤ q.end → is_supported r.starts_for_each_pattern q.anchored ≡ false →
        HasNoQuitBefore r q.haystack (begins_at r q) → whole_rest r q ≡ refused (UnsupportedAnchored q.anchored) }
    ensures alone { (r : Reader) (q : Search) (e : MatchErrorKind) → (whole_rest r q).rejection ≡ Some e →
        ((b x : ℕ) × (e ≡ Quit b x)) ⊎ ((e ≡ UnsupportedAnchored q.anchored) ×
        (is_supported r.starts_for_each_pattern q.anchored ≡ false)) }
    ensures none { (r : Reader) (q : Search) → is_supported r.starts_for_each_pattern q.anchored ≡ true →
        HasNoQuitNear r q.haystack q.start q.end →
        (whole_rest r q).rejection ≡ None }
{}

/// An overlapping search goes on over a cache that wasn't cleared since its last call, whatever else was done with the cache. If
/// the count of clears is unchanged and below its greatest value, the cache wasn't cleared.
pub fn walks_go_on_where_nothing_was_cleared()
    ensures grown { (d : Dfa) (old new : CacheValue) (q : Search) (w : OverlappingPosition) → IsCacheOf d old → IsCacheOf d new →
        CacheGrows d old new →
        CanContinue d old q w → CanContinue d new q w }
    ensures counted { (d : Dfa) (old new : CacheValue) (q : Search) (w : OverlappingPosition) → IsCacheOf d old → IsCacheOf d new →
        GrowsOrClears d old new →
        new.clears ≡ old.clears → old.clears < greatest → CanContinue d old q w → CanContinue d new q w }
{}

/// If the earliest end isn't enough and there is no error, the patterns of all ends that a set has room for are added. No others
/// are added.
pub fn sets_get_the_patterns_of_all_ends()
    ensures members { (set : List Bool) (ends : List (ℕ × ℕ)) (p : ℕ) →
        (has (which_from false set ends None).set p ≡ true) ↔
        ((has set p ≡ true) ⊎ ((p < length set) × ((j : ℕ) × Has same_pair (j, p) ends))) }
    ensures refused { (set : List Bool) (ends : List (ℕ × ℕ)) → (which_from false set ends None).rejection ≡ None }
    ensures room { (set : List Bool) (ends : List (ℕ × ℕ)) → length (with_ends set ends) ≡ length set }
{}
