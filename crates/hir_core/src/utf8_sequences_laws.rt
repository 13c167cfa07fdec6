//! Laws of the sequences of byte ranges that spell a range of characters. Each function has no code: its
//! contract is the law. The bounds of a range are any numbers; surrogates and what is above 10FFFF are left out
//! of it.
//! ```rust
//! pub fn strings_have_scalars()
//!     ensures { (lo hi i : ℕ) (rs : List (ℕ × ℕ)) (s : List ℕ) → slice_get (utf8_sequences lo hi) i ≡ Some rs →
//!         is_in_ranges rs s ≡ true → (c : ℕ) × (lo ≤ c) × (c ≤ hi) × Spells c s }
//! {
//!     strings_are_spellings();
//! }
//! ```
ghost use Rattle.std.specs.Prelude.{◌≡◌, ◌≤◌, ◌<◌, ℕ, List, [], ◌∷◌, length, take, slice_get, Some, true};
ghost use Rattle.search_core.specs.Utf8.{Spells};
ghost use Rattle.std.specs.Char.{encode_utf8};
ghost use Rattle.hir_core.specs.Sequences.{spelling_of, utf8_sequences, is_in_ranges, begins_in_ranges};

/// Every spelling of a scalar of the range is a string of one of the sequences, and no string is one of two of
/// them.
pub fn spellings_have_one_sequence()
    ensures some { (lo hi c : ℕ) (s : List ℕ) → lo ≤ c → c ≤ hi → Spells c s →
        (i : ℕ) × (ranges : List (ℕ × ℕ)) × (slice_get (utf8_sequences lo hi) i ≡ Some ranges) × (is_in_ranges ranges s ≡ true) }
    ensures no_other { (lo hi i j : ℕ) (ranges others : List (ℕ × ℕ)) (s : List ℕ) →
        slice_get (utf8_sequences lo hi) i ≡ Some ranges → slice_get (utf8_sequences lo hi) j ≡ Some others →
        is_in_ranges ranges s ≡ true → is_in_ranges others s ≡ true → i ≡ j }
{}

/// Every string of a sequence spells a scalar of the range.
pub fn strings_are_spellings()
    ensures { (lo hi i : ℕ) (ranges : List (ℕ × ℕ)) (s : List ℕ) → slice_get (utf8_sequences lo hi) i ≡ Some ranges →
        is_in_ranges ranges s ≡ true → (c : ℕ) × (lo ≤ c) × (c ≤ hi) × Spells c s }
{}

/// The sequences ascend: each string of an earlier one spells a lesser scalar than each of a later one.
pub fn sequences_ascend()
    ensures { (lo hi i j : ℕ) (ranges later : List (ℕ × ℕ)) (s t : List ℕ) (c d : ℕ) → i < j →
        slice_get (utf8_sequences lo hi) i ≡ Some ranges → slice_get (utf8_sequences lo hi) j ≡ Some later →
        is_in_ranges ranges s ≡ true → is_in_ranges later t ≡ true → Spells c s → Spells d t → c < d }
{}

/// Each sequence has one to four ranges, and each range ends at a byte that isn't below its start.
pub fn sequences_are_short()
    ensures { (lo hi i : ℕ) (ranges : List (ℕ × ℕ)) → slice_get (utf8_sequences lo hi) i ≡ Some ranges →
        (1 ≤ length ranges) × (length ranges ≤ 4) × ((k : ℕ) (r : ℕ × ℕ) → slice_get ranges k ≡ Some r → (r.0 ≤ r.1) × (r.1 < 256)) }
{}

/// Bytes begin with a string of a sequence exactly if their first bytes, as many as the sequence has ranges, are
/// such a string.
#[tactic(auto, using(crate::proofs::SequenceLemmas::begins_with))]
pub fn beginnings_are_strings()
    ensures { (ranges : List (ℕ × ℕ)) (bytes : List ℕ) → begins_in_ranges ranges bytes ≡ is_in_ranges ranges (take (length ranges) bytes) }
{}

/// The sequences of all scalars are the rows of Table 3-7 of the Unicode Standard.
pub fn all_scalars_have_the_rows_of_the_table()
    ensures { utf8_sequences 0 0x10FFFF ≡
        ((0x00, 0x7F) ∷ [])
        ∷ ((0xC2, 0xDF) ∷ (0x80, 0xBF) ∷ [])
        ∷ ((0xE0, 0xE0) ∷ (0xA0, 0xBF) ∷ (0x80, 0xBF) ∷ [])
        ∷ ((0xE1, 0xEC) ∷ (0x80, 0xBF) ∷ (0x80, 0xBF) ∷ [])
        ∷ ((0xED, 0xED) ∷ (0x80, 0x9F) ∷ (0x80, 0xBF) ∷ [])
        ∷ ((0xEE, 0xEF) ∷ (0x80, 0xBF) ∷ (0x80, 0xBF) ∷ [])
        ∷ ((0xF0, 0xF0) ∷ (0x90, 0xBF) ∷ (0x80, 0xBF) ∷ (0x80, 0xBF) ∷ [])
        ∷ ((0xF1, 0xF3) ∷ (0x80, 0xBF) ∷ (0x80, 0xBF) ∷ (0x80, 0xBF) ∷ [])
        ∷ ((0xF4, 0xF4) ∷ (0x80, 0x8F) ∷ (0x80, 0xBF) ∷ (0x80, 0xBF) ∷ []) ∷ [] }
{}

/// The bytes from which sequences are made are those of std's `encode_utf8`, and those of the table of UTF-8.
#[tactic(auto, using(crate::proofs::SequenceLemmas::spelled_encoded, crate::proofs::SequenceLemmas::spelled_by))]
pub fn spellings_are_encoded()
    ensures encoded { (c : ℕ) → spelling_of c ≡ encode_utf8 c }
    ensures spelled { (c : ℕ) (s : List ℕ) → Spells c s → spelling_of c ≡ s }
{}
