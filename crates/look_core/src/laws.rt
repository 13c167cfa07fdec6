//! Laws of the definitions of looks. Each function has no code: its contract is the law.
//! ```rust
//! pub fn lines_are_read_by_bytes()
//!     ensures { (words : ℕ → Bool) (t : Terminator) (h : List ℕ) (l : TheLook) (i : ℕ) → is_word_unicode l ≡ false →
//!         holds words t h l i ≡ holds_ascii t h l i }
//! {
//!     other_looks_read_bytes();
//! }
//! ```
ghost use Rattle.std.specs.Prelude.{◌≡◌, ◌≤◌, ◌<◌, ◌+◌, ◌-◌, ℕ, Bool, true, false, List, length, take, reverse, ◌++◌};
ghost use Rattle.std.specs.List.{All, Contains, flat_map};
ghost use Rattle.std.specs.Str.{encode_utf8_all, all_scalars};
ghost use Rattle.search_core.specs.Marks.{recorded, IsUnmarked};
ghost use Rattle.search_core.specs.Utf8.{Spells, IsValidText};
ghost use Rattle.look_core.specs.Codes.{reversed, is_anchor_crlf, is_word_unicode};
ghost use Rattle.look_core.specs.Looks.{holds, holds_ascii, IsWordSet};
ghost use Rattle.look_core.specs.Mirror.{exchanged};
ghost use Rattle.look_core.specs.SameClasses.{HaveSameClasses, DifferInAscii};
ghost use Rattle.look_core.specs.Terminators.{Terminator};
ghost use Rattle.look_core.specs.ToldApart.{ranges_apart};
ghost use Rattle.look_core.specs.declared.look.Look.{Look};

/// Strictly inside the spelling of a character no Unicode look holds, whatever bytes come before and after it.
pub fn no_unicode_look_holds_inside_a_character()
    ensures { (words : ℕ → Bool) (t : Terminator) (before spelling after : List ℕ) (c : ℕ) (l : Look) (i : ℕ) → Spells c spelling →
        length before < i → i < length before + length spelling → is_word_unicode l ≡ true →
        holds words t (before ++ (spelling ++ after)) l i ≡ false }
{}

/// Only the six Unicode looks depend on how words are read.
pub fn other_looks_read_bytes()
    ensures { (words : ℕ → Bool) (t : Terminator) (h : List ℕ) (l : Look) (i : ℕ) → is_word_unicode l ≡ false →
        holds words t h l i ≡ holds_ascii t h l i }
{}

/// By bytes, a look holds at an offset exactly if its reverse holds at the mirrored offset of the reversed haystack.
/// For the two looks that know carriage returns and line feeds, these two bytes are exchanged as well, so that a pair
/// of them keeps its order.
pub fn reversed_looks_hold_in_the_reversed_haystack()
    ensures mirror { (t : Terminator) (h : List ℕ) (l : Look) (i : ℕ) → i ≤ length h → is_anchor_crlf l ≡ false →
        holds_ascii t h l i ≡ holds_ascii t (reverse h) (reversed l) (length h - i) }
    ensures lines { (t : Terminator) (h : List ℕ) (l : Look) (i : ℕ) → i ≤ length h → is_anchor_crlf l ≡ true →
        holds_ascii t h l i ≡ holds_ascii t (exchanged h) (reversed l) (length h - i) }
{}

/// If words are read as characters, a Unicode look holds between two characters of UTF-8 exactly if its reverse holds
/// between them in the UTF-8 of the reversed characters. All valid UTF-8 is that of scalars.
pub fn reversed_looks_hold_between_the_reversed_characters()
    ensures mirror { (words : ℕ → Bool) (t : Terminator) (cs : List ℕ) (l : Look) (k : ℕ) → all_scalars cs ≡ true → k ≤ length cs →
        is_word_unicode l ≡ true → holds words t (encode_utf8_all cs) l (length (encode_utf8_all (take k cs)))
        ≡ holds words t (encode_utf8_all (reverse cs)) (reversed l) (length (encode_utf8_all (take (length cs - k) (reverse cs)))) }
    ensures valid { (h : List ℕ) → IsValidText h → (cs : List ℕ) × ((all_scalars cs ≡ true) × (encode_utf8_all cs ≡ h)) }
{}

/// Byte classes that are made from the ranges of a list of looks preserve these looks. If two haystacks have bytes of
/// the same class at each index, each look of the list holds at the same offsets of both. A Unicode look needs more:
/// the haystacks may differ only in bytes of ASCII. Neither has to be valid UTF-8.
pub fn byte_classes_keep_looks()
    ensures bytes { (words : ℕ → Bool) (t : Terminator) (looks : List Look) (marks : List Bool) (h g : List ℕ) (l : Look) (i : ℕ) →
        IsUnmarked marks → All (λ b. b < length marks) h → All (λ b. b < length marks) g →
        HaveSameClasses (recorded marks (flat_map (ranges_apart t) looks)) h g → Contains looks l → is_word_unicode l ≡ false →
        holds words t h l i ≡ holds words t g l i }
    ensures characters { (words : ℕ → Bool) (t : Terminator) (looks : List Look) (marks : List Bool) (h g : List ℕ) (l : Look) (i : ℕ) →
        IsUnmarked marks → All (λ b. b < length marks) h → All (λ b. b < length marks) g →
        HaveSameClasses (recorded marks (flat_map (ranges_apart t) looks)) h g → Contains looks l → is_word_unicode l ≡ true →
        IsWordSet words → DifferInAscii h g → holds words t h l i ≡ holds words t g l i }
{}
