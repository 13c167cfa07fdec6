//! Laws of looks and of their sets. The contract of each function is the law. All but one of the functions have no
//! code.
//! ```rust
//! pub fn twice_is_not_at_all()
//!     ensures { (l : TheLook) → reversed (reversed l) ≡ l }
//! {
//!     reversed_twice();
//! }
//! ```
ghost use Rattle.std.specs.Prelude.{◌≡◌, ◌&&◌, ◌||◌, not, ℕ, Some, true, false};
ghost use Rattle.look_core.specs.declared.look.Look.{Look as TheLook};
ghost use Rattle.look_core.specs.Codes.{same_look, repr, char_of, reversed};
ghost use Rattle.look_core.specs.LookSets.{IsLookSet, has_look, full_set, union_of, shared_by, without, with_look, without_look};

use crate::look::Look;

/// A look reversed twice is the look.
pub fn reversed_twice()
    ensures { (l : TheLook) → reversed (reversed l) ≡ l }
{}

/// Each look has a number, a character and a bit of its own.
pub fn looks_are_told_apart()
    ensures number { (k l : TheLook) → repr k ≡ repr l → k ≡ l }
    ensures character { (k l : TheLook) → char_of k ≡ char_of l → k ≡ l }
    ensures bit { (k l : TheLook) → same_look k l ≡ true → k ≡ l }
    ensures itself { (l : TheLook) → same_look l l ≡ true }
{}

/// [`Look::from_repr`](crate::Look::from_repr) returns each look for the number that
/// [`Look::as_repr`](crate::Look::as_repr) returns for it.
pub fn from_repr_inverts_as_repr(look: Look) -> Option<Look>
    ensures { result ≡ Some look }
{
    Look::from_repr(look.as_repr())
}

/// Which members the numbers of sets have.
pub fn members_of_sets()
    ensures empty { (l : TheLook) → has_look 0 l ≡ false }
    ensures full { (l : TheLook) → has_look full_set l ≡ true }
    ensures singleton { (k l : TheLook) → has_look (repr k) l ≡ same_look l k }
    ensures union { (s t : ℕ) (l : TheLook) → has_look (union_of s t) l ≡ (has_look s l || has_look t l) }
    ensures shared { (s t : ℕ) (l : TheLook) → has_look (shared_by s t) l ≡ (has_look s l && has_look t l) }
    ensures without { (s t : ℕ) (l : TheLook) → IsLookSet t → has_look (without s t) l ≡ (has_look s l && not (has_look t l)) }
    ensures inserted { (s : ℕ) (k l : TheLook) → has_look (with_look s k) l ≡ (has_look s l || same_look l k) }
    ensures removed { (s : ℕ) (k l : TheLook) → has_look (without_look s k) l ≡ (has_look s l && not (same_look l k)) }
{}

/// Sets with the same members are equal.
pub fn members_tell_sets_apart()
    ensures { (s t : ℕ) → IsLookSet s → IsLookSet t → ((l : TheLook) → has_look s l ≡ has_look t l) → s ≡ t }
{}
