//! Laws of what is known of the offset where a search starts. Each function has no code: its contract is the law.
//! ```rust
//! pub fn halves_stand_behind_returns()
//!     ensures { (looks : ℕ) (t : Terminator) (h : List ℕ) (i : ℕ) →
//!         (look_behind looks false t (start_of t (byte_before h i))).is_half_crlf ≡ true → byte_before h i ≡ Some 0x0D }
//! {
//!     what_is_known_forward_is_true();
//! }
//! ```
ghost use Rattle.std.specs.Prelude.{◌≡◌, ◌≤◌, ◌==◌, ◌||◌, ℕ, Bool, true, false, List, length, Some, IsSomeAnd};
ghost use Rattle.search_core.specs.Text.{byte_at, byte_before};
ghost use Rattle.search_core.specs.Utf8.{is_word_byte};
ghost use Rattle.look_core.specs.Codes.{reversed, is_anchor_crlf, is_word_look};
ghost use Rattle.look_core.specs.Looks.{holds_ascii, byte_side, is_byte, is_word};
ghost use Rattle.look_core.specs.LookSets.{IsLookSet, has_look, has_any};
ghost use Rattle.look_core.specs.Terminators.{Terminator};
ghost use Rattle.look_core.specs.declared.look.Look.{Look};
ghost use Rattle.look_core.specs.declared.look.Look.TheVariants.{StartCRLF};
ghost use Rattle.determinize_core.specs.States.{StateValue, IsState, dead};
ghost use Rattle.determinize_core.specs.Starts.{start_of};
ghost use Rattle.determinize_core.specs.declared.start.Start.{Start};
ghost use Rattle.determinize_core.specs.declared.lookbehind.LookBehind.{LookBehind};
ghost use Rattle.determinize_core.specs.LookBehind.{look_behind, is_decided, with_look_behind};

/// Forward, what is known from the byte before an offset is true there. Each known look holds. If a word byte is known, the byte is one. If
/// the first half of a CRLF is known, the byte is a carriage return.
pub fn what_is_known_forward_is_true()
    ensures looks { (looks : ℕ) (t : Terminator) (h : List ℕ) (l : Look) (i : ℕ) → i ≤ length h →
        has_look (look_behind looks false t (start_of t (byte_before h i))).look_have l ≡ true → holds_ascii t h l i ≡ true }
    ensures word { (looks : ℕ) (t : Terminator) (h : List ℕ) (i : ℕ) →
        (look_behind looks false t (start_of t (byte_before h i))).is_from_word ≡ true →
        IsSomeAnd (byte_before h i) (λ b. is_word_byte b ≡ true) }
    ensures half { (looks : ℕ) (t : Terminator) (h : List ℕ) (i : ℕ) →
        (look_behind looks false t (start_of t (byte_before h i))).is_half_crlf ≡ true → byte_before h i ≡ Some 0x0D }
{}

/// In reverse, what is known from the byte after an offset is true there. The reverse of each known look holds. If a word byte is known,
/// the byte is one. If the first half of a CRLF is known, the byte is a line feed.
pub fn what_is_known_in_reverse_is_true()
    ensures looks { (looks : ℕ) (t : Terminator) (h : List ℕ) (l : Look) (i : ℕ) → i ≤ length h →
        has_look (look_behind looks true t (start_of t (byte_at h i))).look_have l ≡ true → holds_ascii t h (reversed l) i ≡ true }
    ensures word { (looks : ℕ) (t : Terminator) (h : List ℕ) (i : ℕ) →
        (look_behind looks true t (start_of t (byte_at h i))).is_from_word ≡ true → IsSomeAnd (byte_at h i) (λ b. is_word_byte b ≡ true) }
    ensures half { (looks : ℕ) (t : Terminator) (h : List ℕ) (i : ℕ) →
        (look_behind looks true t (start_of t (byte_at h i))).is_half_crlf ≡ true → byte_at h i ≡ Some 0x0A }
{}

/// Forward, all that the byte before an offset decides is known, for the looks that the automaton has:
///
/// - whether the offset is a start of the haystack or of a line, or isn't preceded by a word byte;
/// - whether a line starts there by a line feed alone;
/// - which half of a CRLF the byte is, and whether it is a word byte.
pub fn what_is_decided_forward_is_known()
    ensures looks { (looks : ℕ) (t : Terminator) (h : List ℕ) (l : Look) (i : ℕ) → i ≤ length h →
        is_decided l ≡ true → has_look looks l ≡ true →
        has_look (look_behind looks false t (start_of t (byte_before h i))).look_have l ≡ holds_ascii t h l i }
    ensures crlf { (looks : ℕ) (t : Terminator) (h : List ℕ) (i : ℕ) → i ≤ length h → has_any is_anchor_crlf looks ≡ true →
        has_look (look_behind looks false t (start_of t (byte_before h i))).look_have StartCRLF ≡
        ((i == 0) || is_byte 0x0A (byte_before h i)) }
    ensures half { (looks : ℕ) (t : Terminator) (h : List ℕ) (i : ℕ) → has_any is_anchor_crlf looks ≡ true →
        (look_behind looks false t (start_of t (byte_before h i))).is_half_crlf ≡ is_byte 0x0D (byte_before h i) }
    ensures word { (looks : ℕ) (t : Terminator) (h : List ℕ) (i : ℕ) → has_any is_word_look looks ≡ true →
        (look_behind looks false t (start_of t (byte_before h i))).is_from_word ≡ is_word (byte_side (byte_before h i)) }
{}

/// In reverse, all that the byte after an offset decides is known, for the looks that the automaton has. Each of them stands for its
/// reverse.
pub fn what_is_decided_in_reverse_is_known()
    ensures looks { (looks : ℕ) (t : Terminator) (h : List ℕ) (l : Look) (i : ℕ) → i ≤ length h →
        is_decided l ≡ true → has_look looks l ≡ true →
        has_look (look_behind looks true t (start_of t (byte_at h i))).look_have l ≡ holds_ascii t h (reversed l) i }
    ensures crlf { (looks : ℕ) (t : Terminator) (h : List ℕ) (i : ℕ) → i ≤ length h → has_any is_anchor_crlf looks ≡ true →
        has_look (look_behind looks true t (start_of t (byte_at h i))).look_have StartCRLF ≡
        ((i == length h) || is_byte 0x0D (byte_at h i)) }
    ensures half { (looks : ℕ) (t : Terminator) (h : List ℕ) (i : ℕ) → has_any is_anchor_crlf looks ≡ true →
        (look_behind looks true t (start_of t (byte_at h i))).is_half_crlf ≡ is_byte 0x0A (byte_at h i) }
    ensures word { (looks : ℕ) (t : Terminator) (h : List ℕ) (i : ℕ) → has_any is_word_look looks ≡ true →
        (look_behind looks true t (start_of t (byte_at h i))).is_from_word ≡ is_word (byte_side (byte_at h i)) }
{}

/// What is known of an offset is a set of looks, and a state with it added is a state. A state without flags and looks gets just these.
pub fn states_with_what_is_known_are_states()
    ensures set { (looks : ℕ) (reverse : Bool) (t : Terminator) (s : Start) → IsLookSet (look_behind looks reverse t s).look_have }
    ensures state { (b : LookBehind) (v : StateValue) → IsLookSet b.look_have → IsState v → IsState (with_look_behind b v) }
    ensures fresh { (b : LookBehind) → with_look_behind b dead ≡
        record dead { is_from_word = b.is_from_word; is_half_crlf = b.is_half_crlf; look_have = b.look_have } }
{}
