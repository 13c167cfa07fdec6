//! Laws of the notation. Each function has no code: its contract is the law.
//! ```rust
//! pub fn heads_read_once()
//!     ensures { (text : List ℕ) (p q r : QueryValue) (n m : ℕ) → Reads text p q n → Reads text p r m → q ≡ r }
//! {
//!     texts_read_in_one_way();
//! }
//! ```
ghost use Rattle.std.specs.Prelude.{◌≡◌, ◌<◌, ◌⊎◌, ℕ, true, List, None};
ghost use Rattle.hir_core.specs.Means.{is_member};
ghost use Rattle.hir_core.specs.Facts.{is_ascending};
ghost use Rattle.hirscan.specs.declared.fault.FaultKind.{FaultKind};
ghost use Rattle.hirscan.specs.Words.{class_ranges};
ghost use Rattle.hirscan.specs.Takes.{QueryValue, Takes, EndsQuery};
ghost use Rattle.hirscan.specs.LineFault.{fault};
ghost use Rattle.hirscan.specs.Reads.{Reads, IsFaultAt};

/// A line without a fault has a rule that takes it or ends the query. A line with such a rule has no fault.
#[tactic(auto, using(crate::proofs::EffectLemmas::taken_or_ends, crate::proofs::EffectLemmas::ends_no_fault))]
pub fn lines_without_a_fault_have_a_rule()
    ensures ruled { (ws : List (List ℕ)) (p : QueryValue) → fault ws p ≡ None → ((q : QueryValue) × Takes ws p q) ⊎ EndsQuery ws p }
    ensures taken { (ws : List (List ℕ)) (p q : QueryValue) → Takes ws p q → fault ws p ≡ None }
    ensures ended { (ws : List (List ℕ)) (p : QueryValue) → EndsQuery ws p → fault ws p ≡ None }
{}

/// A line has one effect: it leads to one state of the query, and doesn't end the query as well.
#[tactic(auto, using(crate::proofs::EffectLemmas::taken_goes_on))]
pub fn lines_have_one_effect()
    ensures same { (ws : List (List ℕ)) (p q r : QueryValue) → Takes ws p q → Takes ws p r → q ≡ r }
    ensures goes_on { (ws : List (List ℕ)) (p q : QueryValue) → Takes ws p q → EndsQuery ws p → ⊥ }
{}

/// A text reads in one way.
#[tactic(auto, using(crate::proofs::ReadsLemmas::reads_once))]
pub fn texts_read_in_one_way()
    ensures { (text : List ℕ) (p q r : QueryValue) (n m : ℕ) → Reads text p q n → Reads text p r m → (q ≡ r) × (n ≡ m) }
{}

/// A text that reads has no fault.
#[tactic(auto, using(crate::proofs::ReadsLemmas::reads_no_fault))]
pub fn texts_that_read_have_no_fault()
    ensures { (text : List ℕ) (p q : QueryValue) (n k : ℕ) (kind : FaultKind) → Reads text p q n → IsFaultAt text p k kind → ⊥ }
{}

/// A text has one first fault.
#[tactic(auto, using(crate::proofs::ReadsLemmas::fault_once))]
pub fn texts_have_one_first_fault()
    ensures { (text : List ℕ) (p : QueryValue) (k l : ℕ) (kind other : FaultKind) → IsFaultAt text p k kind → IsFaultAt text p l other
        → (k ≡ l) × (kind ≡ other) }
{}

/// A class has the bytes of its items, and its ranges are ascending and disjoint.
#[tactic(auto, using(crate::proofs::RangeLemmas::class_members, crate::proofs::RangeLemmas::class_ranges_ascend))]
pub fn classes_have_their_items_bytes()
    ensures members { (items : List (ℕ × ℕ)) (b : ℕ) → b < 256 → is_member (class_ranges items) b ≡ is_member items b }
    ensures ascending { (items : List (ℕ × ℕ)) → is_ascending (class_ranges items) ≡ true }
{}

/// A text reads, or a line of it is the first faulty one.
pub fn texts_read_or_have_a_fault()
    ensures { (text : List ℕ) (p : QueryValue) →
        ((q : QueryValue) × (n : ℕ) × Reads text p q n) ⊎ ((k : ℕ) × (kind : FaultKind) × IsFaultAt text p k kind) }
{}
