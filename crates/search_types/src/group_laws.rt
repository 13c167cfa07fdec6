//! Laws of groups, their names and their slots. Each function has no code: its contract is the law.
//! ```rust
//! pub fn names_come_back()
//!     ensures { (gs : Groups) (p g : ℕ) (n : Name) → group_fault gs ≡ None → (to_index gs p n ≡ Some g) ↔ (to_name gs p g ≡ Some n) }
//! {
//!     names_and_indices_agree();
//! }
//! ```
ghost use Rattle.std.specs.Prelude.{◌≡◌, ℕ, ◌+◌, ◌<◌, ◌≤◌, ◌↔◌, Some, None};
ghost use Rattle.search_types.specs.Groups.{Groups, Name, to_index, to_name, slot, slot_len, implicit_slot_len};
ghost use Rattle.search_types.specs.GroupFaults.{group_fault};
ghost use Rattle.search_types.specs.GroupSlots.{IsSlotOf};

/// A name finds exactly the group that has it.
pub fn names_and_indices_agree()
    ensures { (gs : Groups) (p g : ℕ) (name : Name) → group_fault gs ≡ None →
        (to_index gs p name ≡ Some g) ↔ (to_name gs p g ≡ Some name) }
{}

/// Each number below the count of slots is a slot of exactly one group, and no other number is a slot.
pub fn slots_are_numbered_once()
    ensures some { (gs : Groups) (k : ℕ) → group_fault gs ≡ None → k < slot_len gs →
        (p : ℕ) × (g : ℕ) × IsSlotOf gs k p g }
    ensures one { (gs : Groups) (k p g q h : ℕ) → IsSlotOf gs k p g → IsSlotOf gs k q h → (p ≡ q) × (g ≡ h) }
    ensures in_range { (gs : Groups) (k p g : ℕ) → IsSlotOf gs k p g → k < slot_len gs }
{}

/// The slots of the patterns' first groups come before those of all other groups.
pub fn implicit_slots_come_first()
    ensures first { (gs : Groups) (k p : ℕ) → IsSlotOf gs k p 0 → k < implicit_slot_len gs }
    ensures other { (gs : Groups) (k p g : ℕ) → 0 < g → IsSlotOf gs k p g → implicit_slot_len gs ≤ k }
{}
