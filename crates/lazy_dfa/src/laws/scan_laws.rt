//! Laws of half searches: what they find, which scans they make, and which quit bytes they return. Each function has no code: its
//! contract is the law.
//! ```rust
//! pub fn nothing_is_found_of_no_pattern()
//!     ensures { (r : Reader) (q : Search) (o : Option (ℕ × ℕ)) → start_name r.automaton q.anchored ≡ None →
//!         half_search r q ≡ found o → o ≡ None }
//! {
//!     scans_for_no_pattern_find_nothing();
//! }
//! ```
ghost use Rattle.std.specs.Prelude.{◌≡◌, ℕ, suc, ◌-◌, ◌*◌, ◌<◌, ◌≤◌, Bool, true, false, List, length, Option, Some, None};
ghost use Rattle.search_types.specs.Inputs.{Search};
ghost use Rattle.search_types.specs.Modes.{is_anchored, is_supported};
ghost use Rattle.search_types.specs.Places.{counts};
ghost use Rattle.search_types.specs.declared.anchored.Anchored.{Anchored};
ghost use Rattle.nfa_core.specs.Nfa.{IsWellFormed};
ghost use Rattle.lazy_dfa.specs.Readers.{Reader, found, quit, unsupported};
ghost use Rattle.lazy_dfa.specs.Scans.{start_name, scan};
ghost use Rattle.lazy_dfa.specs.ScanLaws.{HasNoQuitBefore, splits, scan_of};
ghost use Rattle.lazy_dfa.specs.HalfSearches.{rescans, half_search, unless_split};
ghost use Rattle.lazy_dfa.specs.HalfSearchLaws.{begins_at, IsOfScans, IsFound, IsQuitNear, HasNoQuitNear, Splits, shorter, scan_count};
ghost use Rattle.lazy_dfa.specs.HalfSearchLaws.{unit_count};

/// A half search finds the wanted end of a run. If the earliest end is asked for, this is the nearest one. Otherwise it is the
/// end of the most preferred run under leftmost-first, and the last end if all matches are asked for. The search takes the wanted
/// end from the first of its starting offsets at which this end counts.
pub fn scans_find_what_is_wanted()
    ensures { (r : Reader) (q : Search) (name : ℕ) (o : Option (ℕ × ℕ)) → IsWellFormed r.automaton → q.start ≤ q.end →
        q.end ≤ length q.haystack →
        start_name r.automaton q.anchored ≡ Some name → name < length r.automaton.states → half_search r q ≡ found o → IsFound r q name o }
{}

/// A half search for a pattern that doesn't exist finds nothing.
pub fn scans_for_no_pattern_find_nothing()
    ensures { (r : Reader) (q : Search) (o : Option (ℕ × ℕ)) → start_name r.automaton q.anchored ≡ None → half_search r q ≡ found o →
        o ≡ None }
{}

/// If ends that split a character don't count, the answer is that of the first scan that doesn't find such an end. Each scan
/// covers one byte less than the one before. If every scan finds such an end, the answer is none.
pub fn passes_begin_anew_where_an_end_splits()
    ensures first { (r : Reader) (mode : Anchored) (earliest : Bool) (h : List ℕ) (n i k : ℕ) → k ≤ n →
        ((m : ℕ) → m < k → Splits r mode earliest h n i m) →
        splits (counts r.between_characters h) (scan_of r mode earliest h n i k) ≡ false →
        rescans r mode earliest h n i ≡ scan_of r mode earliest h n i k }
    ensures none { (r : Reader) (mode : Anchored) (earliest : Bool) (h : List ℕ) (n i : ℕ) →
        ((m : ℕ) → m ≤ n → Splits r mode earliest h n i m) → rescans r mode earliest h n i ≡ found None }
{}

/// A half search over a done span finds nothing. An anchored half search makes one scan, and finds nothing if the end of this
/// scan doesn't count. If the end of a scan of an unanchored half search doesn't count, another scan follows. If every end
/// counts, there is one scan.
pub fn scans_make_passes()
    ensures done { (r : Reader) (q : Search) → q.end < q.start → half_search r q ≡ found None }
    ensures anchored { (r : Reader) (q : Search) → q.start ≤ q.end → is_anchored q.anchored ≡ true → half_search r q ≡
        unless_split (counts r.between_characters q.haystack) (scan r q.anchored q.earliest q.haystack (q.end - q.start) (begins_at r q))
        (found None) }
    ensures unanchored { (r : Reader) (q : Search) → q.start ≤ q.end → is_anchored q.anchored ≡ false →
        IsOfScans r q.anchored q.earliest q.haystack (q.end - q.start) (begins_at r q) (half_search r q) }
    ensures one { (r : Reader) (q : Search) → q.start ≤ q.end → r.between_characters ≡ false →
        half_search r q ≡ scan r q.anchored q.earliest q.haystack (q.end - q.start) (begins_at r q) }
{}

/// If the first scan of an unanchored search finds an end that doesn't count, the answer is that of the search over one byte
/// less. If no byte is left, it is none. Otherwise the answer is that of the first scan.
pub fn scans_begin_anew_over_one_byte_less()
    ensures more { (r : Reader) (q : Search) → q.start < q.end → is_anchored q.anchored ≡ false → half_search r q ≡
        unless_split (counts r.between_characters q.haystack) (scan r q.anchored q.earliest q.haystack (q.end - q.start) (begins_at r q))
        (half_search r (shorter r.automaton.reverse q)) }
    ensures last { (r : Reader) (q : Search) → q.start ≡ q.end → is_anchored q.anchored ≡ false → half_search r q ≡
        unless_split (counts r.between_characters q.haystack) (scan r q.anchored q.earliest q.haystack (q.end - q.start) (begins_at r q))
        (found None) }
{}

/// If a half search returns a quit byte, that byte is at the returned offset, in the span or next to it. If no quit byte is there
/// and the mode is supported, the search finds a match or none.
pub fn scans_quit_near_their_span()
    ensures quits { (r : Reader) (q : Search) (b x : ℕ) → half_search r q ≡ quit b x → IsQuitNear r q.haystack q.start q.end b x }
    ensures none { (r : Reader) (q : Search) → is_supported r.starts_for_each_pattern q.anchored ≡ true →
        HasNoQuitNear r q.haystack q.start q.end →
        (o : Option (ℕ × ℕ)) × (half_search r q ≡ found o) }
{}

/// A half search that isn't done reports that it can't search in its mode exactly if the mode isn't supported and the look-behind
/// byte is no quit byte. The look-behind byte is the one before the span, or in reverse the one after it.
pub fn scans_tell_modes_that_they_cannot_search_in()
    ensures reported { (r : Reader) (q : Search) → q.start ≤ q.end → is_supported r.starts_for_each_pattern q.anchored ≡ false →
        HasNoQuitBefore r q.haystack (begins_at r q) → half_search r q ≡ unsupported q.anchored }
    ensures alone { (r : Reader) (q : Search) (m : Anchored) → half_search r q ≡ unsupported m →
        (q.start ≤ q.end) × (m ≡ q.anchored) × (is_supported r.starts_for_each_pattern q.anchored ≡ false) }
{}

/// A half search makes one scan if every end counts, and otherwise at most one more than its span has bytes. Over a done span it
/// makes none. Each scan reads at most one unit more than the span has bytes.
pub fn scans_make_few_passes()
    ensures done { (r : Reader) (q : Search) → q.end < q.start → scan_count r q ≡ 0 }
    ensures one { (r : Reader) (q : Search) → q.start ≤ q.end → r.between_characters ≡ false → scan_count r q ≡ 1 }
    ensures anchored { (r : Reader) (q : Search) → q.start ≤ q.end → is_anchored q.anchored ≡ true → scan_count r q ≡ 1 }
    ensures few { (r : Reader) (q : Search) → scan_count r q ≤ suc (q.end - q.start) }
    ensures units { (r : Reader) (q : Search) → unit_count r q ≤ scan_count r q * suc (q.end - q.start) }
{}

/// What a half search finds lies in its span, which isn't done.
pub fn scans_find_places_in_their_span()
    ensures { (r : Reader) (q : Search) (e : ℕ × ℕ) → half_search r q ≡ found (Some e) → (q.start ≤ e.0) × (e.0 ≤ q.end) }
{}

/// The answer of a half search depends on the automaton, its line terminator, the match kind, the quit bytes, whether ends that
/// split characters count, and whether its mode is supported. It depends on no other setting of the automaton.
pub fn scans_go_by_their_readers()
    ensures { (r s : Reader) (q : Search) → r.automaton ≡ s.automaton → r.terminator ≡ s.terminator → r.kind ≡ s.kind → r.quits ≡ s.quits →
        r.between_characters ≡ s.between_characters →
        is_supported r.starts_for_each_pattern q.anchored ≡ is_supported s.starts_for_each_pattern q.anchored →
        half_search r q ≡ half_search s q }
{}
