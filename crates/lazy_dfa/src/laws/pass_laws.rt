//! Laws of single scans. Each function has no code: its contract is the law.
//! ```rust
//! pub fn passes_come_to_an_end()
//!     ensures { (r : Reader) (m : Anchored) (b : Bool) (h : List ℕ) (n i : ℕ) → scan_len_of r m b h n i ≤ suc n }
//! {
//!     passes_read_one_unit_more_at_most();
//! }
//! ```
ghost use Rattle.std.specs.Prelude.{◌≡◌, ◌⊎◌, ℕ, suc, ◌<◌, ◌≤◌, Bool, true, false, List, length, Option, Some, None};
ghost use Rattle.search_types.specs.Modes.{is_supported};
ghost use Rattle.search_types.specs.declared.match_kind.MatchKind.TheVariants.{All as AllMatches, LeftmostFirst};
ghost use Rattle.search_types.specs.declared.anchored.Anchored.{Anchored};
ghost use Rattle.nfa_core.specs.Places.{first};
ghost use Rattle.nfa_core.specs.Nfa.{IsWellFormed};
ghost use Rattle.nfa_core.specs.Ways.{span, bytes_left, ends_from};
ghost use Rattle.lazy_dfa.specs.Readers.{Reader, found, quit, unsupported};
ghost use Rattle.lazy_dfa.specs.Scans.{start_name, scan};
ghost use Rattle.lazy_dfa.specs.ScanLaws.{IsLastEnd, IsNearestEnd, HasNoQuit, HasNoQuitBefore, IsFirstQuit, IsQuitBefore, scan_len_of};

/// Under leftmost-first, a scan that meets no quit byte finds the end of the most preferred run, with its pattern.
pub fn leftmost_passes_find_the_first_end()
    ensures { (r : Reader) (mode : Anchored) (h : List ℕ) (s e i q : ℕ) (o : Option (ℕ × ℕ)) → r.kind ≡ LeftmostFirst →
        IsWellFormed r.automaton →
        i ≤ e → e ≤ length h → start_name r.automaton mode ≡ Some q → q < length r.automaton.states →
        scan r mode false h (bytes_left r.automaton.reverse (span r.terminator h s e) i) i ≡ found o →
        o ≡ first (ends_from r.automaton (span r.terminator h s e) (i, q)) }
{}

/// If all matches are asked for, a scan that meets no quit byte finds the last offset in reading order at which a run ends. It
/// returns this offset with the pattern of the best run there.
pub fn passes_for_all_find_the_last_end()
    ensures { (r : Reader) (mode : Anchored) (h : List ℕ) (s e i q : ℕ) (o : Option (ℕ × ℕ)) → r.kind ≡ AllMatches →
        IsWellFormed r.automaton →
        i ≤ e → e ≤ length h → start_name r.automaton mode ≡ Some q → q < length r.automaton.states →
        scan r mode false h (bytes_left r.automaton.reverse (span r.terminator h s e) i) i ≡ found o →
        IsLastEnd r.automaton.reverse (ends_from r.automaton (span r.terminator h s e) (i, q)) o }
{}

/// If the earliest end is asked for, a scan that meets no quit byte finds the nearest offset at which any run ends. It returns
/// this offset with the pattern of the best run there. This holds for either match kind.
pub fn earliest_passes_find_the_nearest_end()
    ensures { (r : Reader) (mode : Anchored) (h : List ℕ) (s e i q : ℕ) (o : Option (ℕ × ℕ)) → IsWellFormed r.automaton →
        i ≤ e → e ≤ length h → start_name r.automaton mode ≡ Some q → q < length r.automaton.states →
        scan r mode true h (bytes_left r.automaton.reverse (span r.terminator h s e) i) i ≡ found o →
        IsNearestEnd r.automaton.reverse (ends_from r.automaton (span r.terminator h s e) (i, q)) o }
{}

/// A scan for a pattern that doesn't exist finds nothing.
pub fn passes_for_no_pattern_find_nothing()
    ensures { (r : Reader) (mode : Anchored) (earliest : Bool) (h : List ℕ) (n i : ℕ) (o : Option (ℕ × ℕ)) →
        start_name r.automaton mode ≡ None →
        scan r mode earliest h n i ≡ found o → o ≡ None }
{}

/// A scan returns a quit byte exactly if it reads one. This is the look-behind byte, or else the first quit byte among the units
/// that the scan would read if none were a quit byte. If none of all these bytes is a quit byte and the mode is supported, the
/// scan finds a match or none. The look-behind byte is the one before the first unit in reading order.
pub fn passes_answer_the_first_quit_byte()
    ensures quits { (r : Reader) (mode : Anchored) (earliest : Bool) (h : List ℕ) (n i b x : ℕ) → scan r mode earliest h n i ≡ quit b x →
        IsQuitBefore r h i b x ⊎ (HasNoQuitBefore r h i × IsFirstQuit r h i (scan_len_of r mode earliest h n i) b x) }
    ensures behind { (r : Reader) (mode : Anchored) (earliest : Bool) (h : List ℕ) (n i b x : ℕ) →
        IsQuitBefore r h i b x → scan r mode earliest h n i ≡ quit b x }
    ensures ahead { (r : Reader) (mode : Anchored) (earliest : Bool) (h : List ℕ) (n i b x : ℕ) →
        HasNoQuitBefore r h i → IsFirstQuit r h i (scan_len_of r mode earliest h n i) b x → scan r mode earliest h n i ≡ quit b x }
    ensures found { (r : Reader) (mode : Anchored) (earliest : Bool) (h : List ℕ) (n i : ℕ) (o : Option (ℕ × ℕ)) →
        scan r mode earliest h n i ≡ found o →
        HasNoQuitBefore r h i × HasNoQuit r h i (scan_len_of r mode earliest h n i) }
    ensures none { (r : Reader) (mode : Anchored) (earliest : Bool) (h : List ℕ) (n i : ℕ) →
        is_supported r.starts_for_each_pattern mode ≡ true →
        HasNoQuitBefore r h i → HasNoQuit r h i (suc n) → (o : Option (ℕ × ℕ)) × (scan r mode earliest h n i ≡ found o) }
{}

/// A scan reports that it can't search in its mode exactly if the mode isn't supported and the look-behind byte is no quit byte.
/// It reads no unit then. The look-behind byte is the one before the first unit in reading order.
pub fn passes_tell_modes_that_they_cannot_search_in()
    ensures reported { (r : Reader) (mode : Anchored) (earliest : Bool) (h : List ℕ) (n i : ℕ) →
        is_supported r.starts_for_each_pattern mode ≡ false →
        HasNoQuitBefore r h i → scan r mode earliest h n i ≡ unsupported mode }
    ensures alone { (r : Reader) (mode m : Anchored) (earliest : Bool) (h : List ℕ) (n i : ℕ) → scan r mode earliest h n i ≡ unsupported m →
        (m ≡ mode) × (is_supported r.starts_for_each_pattern mode ≡ false) × HasNoQuitBefore r h i }
{}

/// A scan reads at most one unit more than its span has bytes.
pub fn passes_read_one_unit_more_at_most()
    ensures { (r : Reader) (mode : Anchored) (earliest : Bool) (h : List ℕ) (n i : ℕ) → scan_len_of r mode earliest h n i ≤ suc n }
{}
