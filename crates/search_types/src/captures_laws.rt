//! Laws of captures. Each is the contract of a function without code.
//! ```rust
//! pub fn slots_of_one()
//!     ensures { (gs : Groups) (g : ℕ) → length gs ≡ 1 → g < length (groups_of gs 0) → first_slot gs 0 g ≡ slot gs 0 g }
//! {
//!     slots_of_one_pattern();
//! }
//! ```
ghost use Rattle.std.specs.Prelude.{◌≡◌, ℕ, ◌<◌, length};
ghost use Rattle.search_types.specs.Groups.{Groups, groups_of, slot};
ghost use Rattle.search_types.specs.CapturesValue.{first_slot};

/// If there is one pattern, its groups' slots come pair by pair, in the order of the groups.
#[tactic(auto, using(crate::proofs::CapturesLemmas::one_pattern))]
pub fn slots_of_one_pattern()
    ensures { (gs : Groups) (g : ℕ) → length gs ≡ 1 → g < length (groups_of gs 0) → first_slot gs 0 g ≡ slot gs 0 g }
{}
