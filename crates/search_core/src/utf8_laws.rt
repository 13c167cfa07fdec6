//! Laws of UTF-8. Each function has no code: its contract is the law.
//! ```rust
//! pub fn scalars_are_spelled_once()
//!     ensures { (c : ℕ) (s t : List ℕ) → Spells c s → Spells c t → s ≡ t }
//! {
//!     one_spelling_for_a_scalar();
//! }
//! ```
ghost use Rattle.std.specs.Prelude.{◌≡◌, ◌≤◌, ◌<◌, ℕ, List, [], ◌++◌, length, take, drop, Option, Result, Some, Ok, ◌⊎◌, true, false};
ghost use Rattle.std.specs.Char.{IsScalar, encode_utf8};
ghost use Rattle.std.specs.Str.{IsUtf8};
ghost use Rattle.search_core.specs.Characters.{character_at, character_before, spelling_len, read_at, read_before};
ghost use Rattle.search_core.specs.Utf8.{Spells, SpellsFirst, SpellsLast, IsValidText, IsSplit, Decodes, DecodesLast, is_boundary};

/// The table's rows are what std's encoder gives for the scalar values, and for nothing else.
pub fn spelling_is_encode_utf8()
    ensures scalar { (c : ℕ) (bytes : List ℕ) → Spells c bytes → IsScalar c × (encode_utf8 c ≡ bytes) }
    ensures spelled { (c : ℕ) (bytes : List ℕ) → IsScalar c → encode_utf8 c ≡ bytes → Spells c bytes }
{}

/// The byte strings that are spellings of scalars one after the other are exactly those that std calls UTF-8.
/// So std's functions on UTF-8 can be used on them.
#[tactic(auto, using(crate::proofs::Utf8Lemmas::utf8_of_valid, crate::proofs::Utf8Lemmas::valid_of_utf8))]
pub fn valid_text_is_utf8()
    ensures utf8 { (bytes : List ℕ) → IsValidText bytes → IsUtf8 bytes }
    ensures valid { (bytes : List ℕ) → IsUtf8 bytes → IsValidText bytes }
{}

/// A scalar has one spelling, and a spelling is of one scalar.
#[tactic(auto, using(crate::proofs::Utf8Lemmas::one_spelling, crate::proofs::Utf8Lemmas::one_scalar))]
pub fn one_spelling_for_a_scalar()
    ensures spelling { (c : ℕ) (s t : List ℕ) → Spells c s → Spells c t → s ≡ t }
    ensures scalar { (c d : ℕ) (s : List ℕ) → Spells c s → Spells d s → c ≡ d }
{}

/// No spelling is a proper beginning of another.
#[tactic(auto, using(crate::proofs::Utf8Lemmas::no_beginning))]
pub fn no_spelling_begins_another()
    ensures { (c d : ℕ) (s t : List ℕ) → Spells c s → Spells d (s ++ t) → t ≡ [] }
{}

/// An offset lies strictly inside at most one spelling, however the bytes are cut into spellings.
pub fn places_lie_in_one_spelling()
    ensures { (h : List ℕ) (i : ℕ) (p q : IsSplit h i) → (p.before ≡ q.before) × (p.spelling ≡ q.spelling) × (p.after ≡ q.after) }
{}

/// In valid UTF-8, an offset up to the length is a boundary exactly if no spelling is split there.
#[tactic(auto, using(crate::proofs::SplitLemmas::split_is_no_boundary, crate::proofs::SplitLemmas::boundary_or_split))]
pub fn boundaries_are_not_split()
    ensures split { (h : List ℕ) (i : ℕ) → IsSplit h i → is_boundary h i ≡ false }
    ensures either { (h : List ℕ) (i : ℕ) → IsValidText h → i ≤ length h → (is_boundary h i ≡ true) ⊎ IsSplit h i }
{}

/// If valid UTF-8 is cut at an offset where no spelling is split, both parts are valid.
#[tactic(auto, using(crate::proofs::CutLemmas::valid_before, crate::proofs::CutLemmas::valid_behind))]
pub fn parts_of_valid_text_are_valid()
    ensures before { (h : List ℕ) (i : ℕ) → IsValidText h → i ≤ length h → ¬ (IsSplit h i) → IsValidText (take i h) }
    ensures behind { (h : List ℕ) (i : ℕ) → IsValidText h → i ≤ length h → ¬ (IsSplit h i) → IsValidText (drop i h) }
{}

/// A spelling in front is what [`decode`](crate::utf8::decode) reads, and one at the end is what
/// [`decode_last`](crate::utf8::decode_last) reads, whatever the other bytes are.
pub fn spellings_decode()
    ensures first { (c : ℕ) (spelling after : List ℕ) (read : Option (Result ℕ ℕ)) → Spells c spelling →
        Decodes (spelling ++ after) read → read ≡ Some (Ok c) }
    ensures last { (c : ℕ) (before spelling : List ℕ) (read : Option (Result ℕ ℕ)) → Spells c spelling →
        DecodesLast (before ++ spelling) read → read ≡ Some (Ok c) }
{}

/// Take an offset of valid UTF-8 where no spelling is split. Unless it is the end,
/// [`decode`](crate::utf8::decode) reads a character from the bytes after it. Unless it is the start,
/// [`decode_last`](crate::utf8::decode_last) reads a character from the bytes before it.
pub fn cut_points_decode()
    ensures behind { (h : List ℕ) (i : ℕ) (read : Option (Result ℕ ℕ)) → IsValidText h → i < length h → ¬ (IsSplit h i) →
        Decodes (drop i h) read → (c : ℕ) × (read ≡ Some (Ok c)) }
    ensures before { (h : List ℕ) (i : ℕ) (read : Option (Result ℕ ℕ)) → IsValidText h → 0 < i → i ≤ length h → ¬ (IsSplit h i) →
        DecodesLast (take i h) read → (c : ℕ) × (read ≡ Some (Ok c)) }
{}

/// How many bytes spell a scalar.
#[tactic(auto, using(crate::proofs::CharacterLemmas::spelling_has_len))]
pub fn spellings_have_lengths()
    ensures { (c : ℕ) (s : List ℕ) → Spells c s → length s ≡ spelling_len c }
{}

/// `character_at` computes the character whose spelling begins at an offset, and `character_before` the one
/// whose spelling ends there.
pub fn characters_at_places()
    ensures begins { (h : List ℕ) (i c : ℕ) → character_at h i ≡ Some c → SpellsFirst c (drop i h) }
    ensures at { (h : List ℕ) (i c : ℕ) → SpellsFirst c (drop i h) → character_at h i ≡ Some c }
    ensures ends { (h : List ℕ) (i c : ℕ) → i ≤ length h → character_before h i ≡ Some c → SpellsLast c (take i h) }
    ensures before { (h : List ℕ) (i c : ℕ) → i ≤ length h → SpellsLast c (take i h) → character_before h i ≡ Some c }
{}

/// `read_at` computes what [`decode`](crate::utf8::decode) reads from an offset on, and `read_before` what
/// [`decode_last`](crate::utf8::decode_last) reads before one. Both use only the character and the byte
/// there.
pub fn what_decode_reads()
    ensures behind { (h : List ℕ) (i : ℕ) (read : Option (Result ℕ ℕ)) → Decodes (drop i h) read → read ≡ read_at h i }
    ensures behind_decodes { (h : List ℕ) (i : ℕ) → Decodes (drop i h) (read_at h i) }
    ensures before { (h : List ℕ) (i : ℕ) (read : Option (Result ℕ ℕ)) → i ≤ length h →
        DecodesLast (take i h) read → read ≡ read_before h i }
    ensures before_decodes { (h : List ℕ) (i : ℕ) → i ≤ length h → DecodesLast (take i h) (read_before h i) }
{}
