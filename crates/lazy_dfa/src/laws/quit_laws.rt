//! Laws of quit bytes. Each function has no code: its contract is the law.
//! ```rust
//! pub fn no_words_no_further_quits()
//!     ensures { (a : Automaton) (on : Bool) (set : List Bool) → has_unicode_word a ≡ false → quit_bytes a on set ≡ set }
//! {
//!     quit_bytes_are_set_by_hand_or_high();
//! }
//! ```
ghost use Rattle.std.specs.Prelude.{◌≡◌, ◌≤◌, ◌<◌, ℕ, Bool, true, false, List, length};
ghost use Rattle.search_core.specs.ByteSets.{has};
ghost use Rattle.nfa_core.specs.Nfa.{Automaton};
ghost use Rattle.lazy_dfa.specs.Quits.{has_unicode_word, quit_bytes, is_unsupported};

/// The bytes that were set by hand are quit bytes. If the automaton has a Unicode word boundary and Unicode word boundaries are
/// on, all bytes above 0x7F are quit bytes too. Otherwise no other byte is one.
pub fn quit_bytes_are_set_by_hand_or_high()
    ensures by_hand { (a : Automaton) (boundaries : Bool) (set : List Bool) (b : ℕ) → b < 256 → has set b ≡ true →
        has (quit_bytes a boundaries set) b ≡ true }
    ensures ascii { (a : Automaton) (boundaries : Bool) (set : List Bool) (b : ℕ) → b < 0x80 →
        has (quit_bytes a boundaries set) b ≡ has set b }
    ensures high { (a : Automaton) (set : List Bool) (b : ℕ) → has_unicode_word a ≡ true → 0x80 ≤ b → b < 256 →
        has (quit_bytes a true set) b ≡ true }
    ensures plain { (a : Automaton) (boundaries : Bool) (set : List Bool) → has_unicode_word a ≡ false → quit_bytes a boundaries set ≡ set }
    ensures off { (a : Automaton) (set : List Bool) → quit_bytes a false set ≡ set }
    ensures len { (a : Automaton) (boundaries : Bool) (set : List Bool) → length set ≡ 256 → length (quit_bytes a boundaries set) ≡ 256 }
{}

/// An automaton is rejected exactly if it has a Unicode word boundary, Unicode word boundaries are off, and some byte above 0x7F
/// was not set by hand.
pub fn automata_are_unsupported_without_high_quit_bytes()
    ensures some { (a : Automaton) (boundaries : Bool) (set : List Bool) → is_unsupported a boundaries set ≡ true →
        (has_unicode_word a ≡ true) × (boundaries ≡ false) × ((b : ℕ) × (0x80 ≤ b) × (b < 256) × (has set b ≡ false)) }
    ensures each { (a : Automaton) (set : List Bool) (b : ℕ) → has_unicode_word a ≡ true → 0x80 ≤ b → b < 256 → has set b ≡ false →
        is_unsupported a false set ≡ true }
{}

/// If an automaton isn't rejected and has a Unicode word boundary, each byte above 0x7F is a quit byte.
pub fn unicode_words_quit_at_high_bytes()
    ensures { (a : Automaton) (boundaries : Bool) (set : List Bool) (b : ℕ) → is_unsupported a boundaries set ≡ false →
        has_unicode_word a ≡ true →
        0x80 ≤ b → b < 256 → has (quit_bytes a boundaries set) b ≡ true }
{}
