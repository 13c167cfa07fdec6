//! Laws of the reach of half searches: which bytes they read. Each function has no code: its contract is the law.
//! ```rust
//! pub fn passes_read_their_reach()
//!     ensures { (r : Reader) (m : Anchored) (b : Bool) (h g : List ℕ) (n i : ℕ) → Agree h g (IsInScan r m b h n i) →
//!         scan r m b h n i ≡ scan r m b g n i }
//! {
//!     passes_depend_on_their_reach();
//! }
//! ```
ghost use Rattle.std.specs.Prelude.{◌≡◌, ℕ, suc, ◌+◌, ◌-◌, ◌<◌, ◌≤◌, Bool, true, false, List, length, Option, Some};
ghost use Rattle.std.specs.List.{list_any};
ghost use Rattle.search_core.specs.Text.{byte_at};
ghost use Rattle.look_core.specs.declared.look.Look.{Look};
ghost use Rattle.search_types.specs.Inputs.{Search};
ghost use Rattle.search_types.specs.declared.anchored.Anchored.{Anchored};
ghost use Rattle.search_types.specs.declared.match_kind.MatchKind.TheVariants.{LeftmostFirst};
ghost use Rattle.nfa_core.specs.Nfa.{IsWellFormed};
ghost use Rattle.nfa_core.specs.NfaValue.{is_capture, IsSound};
ghost use Rattle.nfa_core.specs.Places.{first};
ghost use Rattle.nfa_core.specs.Reaches.{read_by};
ghost use Rattle.nfa_core.specs.Ways.{span, bytes_left, ends_from};
ghost use Rattle.lazy_dfa.specs.Readers.{Reader, found, is_quit};
ghost use Rattle.lazy_dfa.specs.Scans.{start_name, scan};
ghost use Rattle.lazy_dfa.specs.ScanLaws.{scan_len_of};
ghost use Rattle.lazy_dfa.specs.HalfSearches.{half_search};
ghost use Rattle.lazy_dfa.specs.SearchAnswers.{HasReach, HasReachBack};
ghost use Rattle.lazy_dfa.specs.HalfSearchLaws.{begins_at, IsFirstFound, ReadsAlike, IsInScan, IsInReach, Agree, scan_len};

/// A scan depends on the bytes in its reach alone: the look-behind byte, which is before its first unit in reading order, and the
/// bytes of the units that it reads. If it finds a match or none, none of these is a quit byte.
pub fn passes_depend_on_their_reach()
    ensures alike { (r : Reader) (mode : Anchored) (earliest : Bool) (h g : List ℕ) (n i : ℕ) →
        Agree h g (IsInScan r mode earliest h n i) → scan r mode earliest h n i ≡ scan r mode earliest g n i }
    ensures quiet { (r : Reader) (mode : Anchored) (earliest : Bool) (h : List ℕ) (n i : ℕ) (o : Option (ℕ × ℕ)) →
        scan r mode earliest h n i ≡ found o →
        (x : ℕ) → IsInScan r mode earliest h n i x → is_quit r.quits (byte_at h x) ≡ false }
{}

/// Under leftmost-first, a scan that finds a match or none finds the first end for each interpretation of looks that agrees with
/// the interpretation by ASCII bytes. They have to agree for the looks that the automaton has, at the positions between the bytes
/// in the scan's reach. So if an interpretation by Unicode words agrees there, the scan finds what it defines. The automaton
/// keeps no captures.
pub fn passes_find_the_first_end_for_each_reading()
    ensures { (r : Reader) (mode : Anchored) (h : List ℕ) (s e i q : ℕ) (holds : Look → ℕ → Bool) (o : Option (ℕ × ℕ)) →
        r.kind ≡ LeftmostFirst →
        IsWellFormed r.automaton → list_any is_capture r.automaton.states ≡ false → i ≤ e → e ≤ length h →
        start_name r.automaton mode ≡ Some q → q < length r.automaton.states →
        ReadsAlike r holds h s e i (scan_len_of r mode false h (bytes_left r.automaton.reverse (span r.terminator h s e) i) i) →
        scan r mode false h (bytes_left r.automaton.reverse (span r.terminator h s e) i) i ≡ found o →
        o ≡ first (ends_from r.automaton (read_by holds h s e) (i, q)) }
{}

/// Under leftmost-first, a half search with its restarts finds the first end too, for each interpretation of looks that agrees
/// with the one by ASCII bytes in its reach.
pub fn scans_find_the_first_ends_for_each_reading()
    ensures { (r : Reader) (q : Search) (name : ℕ) (holds : Look → ℕ → Bool) (o : Option (ℕ × ℕ)) → r.kind ≡ LeftmostFirst →
        q.earliest ≡ false →
        IsWellFormed r.automaton → list_any is_capture r.automaton.states ≡ false → q.start ≤ q.end → q.end ≤ length q.haystack →
        start_name r.automaton q.anchored ≡ Some name → name < length r.automaton.states →
        ReadsAlike r holds q.haystack q.start q.end (begins_at r q) (scan_len r q) →
        half_search r q ≡ found o → IsFirstFound r q holds name o }
{}

/// A half search depends on the bytes in its reach alone, which includes the bytes that its restarted scans read. If it finds a
/// match or none, none of these is a quit byte. If it finds a match, the byte at its offset is in the reach too. The reach lies
/// between the byte before the span and the byte after it. It has as many bytes and ends of input as units are read, and one
/// more.
pub fn scans_depend_on_their_reach()
    ensures alike { (r : Reader) (q : Search) (g : List ℕ) → q.end ≤ length q.haystack → q.end ≤ length g →
        Agree q.haystack g (IsInReach r q) → half_search r q ≡ half_search r (record q { haystack = g }) }
    ensures quiet { (r : Reader) (q : Search) (o : Option (ℕ × ℕ)) → q.end ≤ length q.haystack → half_search r q ≡ found o →
        (x : ℕ) → IsInReach r q x → is_quit r.quits (byte_at q.haystack x) ≡ false }
    ensures place { (r : Reader) (q : Search) (e : ℕ × ℕ) → half_search r q ≡ found (Some e) → IsInReach r q e.0 }
    ensures within { (r : Reader) (q : Search) (x : ℕ) → IsInReach r q x → (q.start ≤ x + 1) × (x ≤ q.end) }
    ensures few { (r : Reader) (q : Search) → scan_len r q ≤ suc (q.end - q.start) }
{}

/// A forward half search that finds a match or none has an offset up to which it read. This offset is greater than the end that
/// was found, and at most one past the byte that follows the span. From the byte before the span up to the offset there is no
/// quit byte.
///
/// Over each haystack with the same bytes there, the search finds the same. Under leftmost-first, it found the first end for each
/// interpretation of looks that agrees with the one by ASCII bytes up to there.
pub fn scans_reach_a_place()
    ensures { (r : Reader) (q : Search) (o : Option (ℕ × ℕ)) → r.automaton.reverse ≡ false → IsSound r.automaton →
        q.end ≤ length q.haystack →
        half_search r q ≡ found o → HasReach r q o }
{}

/// A half search in reverse that finds a match or none has an offset down to which it read, from the byte after the span on. This
/// offset isn't above the start that was found, and isn't below the byte before the span. Between them there is no quit byte.
/// Over each haystack with the same bytes there, the search finds the same.
pub fn scans_back_reach_a_place()
    ensures { (r : Reader) (q : Search) (o : Option (ℕ × ℕ)) → r.automaton.reverse ≡ true → q.end ≤ length q.haystack →
        half_search r q ≡ found o → HasReachBack r q o }
{}
