//! Laws of words. Each reader returns just what its relation says of a word, and nothing just if the relation
//! says nothing. So the faults of a line follow from what its words spell. Each function has no code: its
//! contract is the law.
//! ```rust
//! pub fn readers_read_numbers()
//!     ensures { IsReader number IsNumber }
//! {
//!     numbers_are_read();
//! }
//! ```
ghost use Rattle.std.specs.Prelude.{◌≡◌, ◌↔◌, ◌⊎◌, ◌<◌, ℕ, true, false, List, Some, None};
ghost use Rattle.hirscan.specs.declared.fault.FaultKind.TheVariants.{BadHex, BadRange};
ghost use Rattle.hir_core.specs.Means.{is_member};
ghost use Rattle.hir_core.specs.Facts.{is_ascending};
ghost use Rattle.hirscan.specs.Words.{IsNumber, IsBound, IsGreedy, IsSwitch, IsYes, IsHex, IsHexByte, HasEnds, IsItem, IsLookName};
ghost use Rattle.hirscan.specs.Words.{HasHexEnds, is_scalar, IsScalarItem, AreScalarItems, scalar_ranges};
ghost use Rattle.hirscan.specs.Readers.{IsReader, IsSpelled, line_word, number, bound, order, switch, yes_or_no, hex_bytes, hex_byte};
ghost use Rattle.hirscan.specs.Readers.{item_ends, hex_ends, look_named};
ghost use Rattle.hirscan.specs.LineFault.{item_fault, scalar_item_fault};

/// The spelling of a line's first word decides which line it is.
pub fn first_words_are_read()
    ensures { IsReader line_word IsSpelled }
{}

/// A number is read from its decimal text alone: it has no sign and no leading zero, and is at most
/// 4294967295. A bound on rounds is a number, or none for `inf`.
pub fn numbers_are_read()
    ensures numbers { IsReader number IsNumber }
    ensures bounds { IsReader bound IsBound }
{}

/// Words of two choices are read: `greedy` and `lazy`, `on` and `off`, `yes` and `no`.
pub fn choices_are_read()
    ensures orders { IsReader order IsGreedy }
    ensures switches { IsReader switch IsSwitch }
    ensures assents { IsReader yes_or_no IsYes }
{}

/// Bytes are read from two hexadecimal digits each, of either case.
pub fn bytes_are_read()
    ensures bytes { IsReader hex_bytes IsHex }
    ensures byte { IsReader hex_byte IsHexByte }
{}

/// An item of a class is read by its ends. It has no fault exactly if it is an item, bad hex exactly if it
/// has no ends, and a bad range exactly if its low end is above its high end.
pub fn items_are_read()
    ensures ends { IsReader item_ends HasEnds }
    ensures taken { (w : List ℕ) → (item_fault w ≡ None) ↔ ((r : ℕ × ℕ) × IsItem w r) }
    ensures bad_hex { (w : List ℕ) → (item_fault w ≡ Some BadHex) ↔ ((r : ℕ × ℕ) → HasEnds w r → ⊥) }
    ensures bad_range { (w : List ℕ) → (item_fault w ≡ Some BadRange) ↔ ((r : ℕ × ℕ) × HasEnds w r × (r.1 < r.0)) }
{}

/// A look is read from its name.
pub fn looks_are_read()
    ensures { IsReader look_named IsLookName }
{}

/// An item of a class of scalars is read by its ends. It has no fault exactly if it is an item, and bad hex
/// exactly if it has no ends. It has a bad range exactly if an end is no scalar or its low end is above its
/// high end.
pub fn scalar_items_are_read()
    ensures ends { IsReader hex_ends HasHexEnds }
    ensures taken { (w : List ℕ) → (scalar_item_fault w ≡ None) ↔ ((r : ℕ × ℕ) × IsScalarItem w r) }
    ensures bad_hex { (w : List ℕ) → (scalar_item_fault w ≡ Some BadHex) ↔ ((r : ℕ × ℕ) → HasHexEnds w r → ⊥) }
    ensures bad_range { (w : List ℕ) → (scalar_item_fault w ≡ Some BadRange)
        ↔ ((r : ℕ × ℕ) × HasHexEnds w r × ((is_scalar r.0 ≡ false) ⊎ (is_scalar r.1 ≡ false) ⊎ (r.1 < r.0))) }
{}

/// A class of scalars has those of its items, and its ranges are ascending and disjoint.
#[tactic(auto, using(crate::proofs::ScalarRangeLemmas::scalar_members, crate::proofs::ScalarRangeLemmas::scalar_classes_ascend))]
pub fn scalar_classes_have_their_items()
    ensures members { (items : List (ℕ × ℕ)) (c : ℕ) → is_member (scalar_ranges items) c ≡ is_member items c }
    ensures ascending { (words : List (List ℕ)) (items : List (ℕ × ℕ)) → AreScalarItems words items →
        is_ascending (scalar_ranges items) ≡ true }
{}
