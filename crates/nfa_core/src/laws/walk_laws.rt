//! Laws of depth-first searches over names, as the closure of a set of states makes them. Each function has no code: its contract is the
//! law. The lemmas from which they follow are in `proofs/` and hold for any graph.
//! ```rust
//! pub fn walks_end_alike()
//!     ensures { (steps : ℕ → List ℕ) (now seen a b : List ℕ) → Visits nat_eq steps now seen a → Visits nat_eq steps now seen b → a ≡ b }
//! {
//!     walks_come_to_one_list();
//! }
//! ```
ghost use Rattle.std.specs.Prelude.{◌≡◌, ℕ, ◌<◌, List, [], ◌∷◌, ◌++◌, Bool, true, false};
ghost use Rattle.std.specs.Bool.{nat_eq};
ghost use Rattle.std.specs.List.{filter, flat_map};
ghost use Rattle.nfa_core.specs.Walks.{has, Has, join, chain_ends, Visits, IsClosed};
ghost use Rattle.nfa_core.specs.Places.{StaysBelow};
ghost use Rattle.nfa_core.specs.Late.{IsGoneThrough};

/// Over names below a bound, a depth-first search with one set of all visited names ends with two parts, in this order: what it had before,
/// and the ends of all chains that visit nothing twice. The ends are in order of preference, each once.
pub fn walks_meet_the_ends_of_chains()
    ensures { (steps : ℕ → List ℕ) (n : ℕ) (stack seen after : List ℕ) → StaysBelow n steps → ((q : ℕ) → Has nat_eq q stack → q < n) →
        IsClosed nat_eq steps seen → Visits nat_eq steps stack seen after →
        after ≡ join nat_eq seen (flat_map (chain_ends nat_eq steps n []) stack) }
{}

/// A depth-first search has one result: two searches from the same start end with the same list.
pub fn walks_come_to_one_list()
    ensures { (steps : ℕ → List ℕ) (stack seen a b : List ℕ) → Visits nat_eq steps stack seen a → Visits nat_eq steps stack seen b → a ≡ b }
{}

/// A depth-first search may use a stack: what a new name leads to goes before the rest.
pub fn walks_are_made_with_a_stack()
    ensures { (steps : ℕ → List ℕ) (x : ℕ) (rest seen after : List ℕ) → has nat_eq x seen ≡ false →
        Visits nat_eq steps (steps x ++ rest) (seen ++ x ∷ []) after → Visits nat_eq steps (x ∷ rest) seen after }
{}

/// Let a list be closed under the transitions that were known. Closing it again, in its order, under all transitions gives what closing the
/// entries under all transitions gives. If nothing in it has more transitions, it is that already.
pub fn lists_close_anew()
    ensures more { (known full : ℕ → List ℕ) → ((x z : ℕ) → Has nat_eq z (known x) → Has nat_eq z (full x)) → (entries ids after : List ℕ) →
        Visits nat_eq known entries [] ids → Visits nat_eq full entries [] after → Visits nat_eq full ids [] after }
    ensures same { (known full : ℕ → List ℕ) → (entries ids : List ℕ) → ((x : ℕ) → Has nat_eq x ids → known x ≡ full x) →
        Visits nat_eq known entries [] ids → Visits nat_eq full entries [] ids }
{}

/// Let a list keep only some names, while the others are passed through. If the search is made again from the names that were kept, the
/// kept names among its result are what they would have been.
pub fn kept_lists_close_anew()
    ensures { (keep : ℕ → Bool) (to : ℕ → List ℕ) (rank : ℕ → ℕ) (known full : ℕ → List ℕ) →
        ((x : ℕ) → keep x ≡ true → to x ≡ x ∷ []) → ((x q : ℕ) → Has nat_eq q (to x) → keep q ≡ true) →
        ((x z : ℕ) → Has nat_eq z (known x) → Has nat_eq z (full x)) →
        ((x : ℕ) → keep x ≡ false → IsGoneThrough known to rank x) → ((x : ℕ) → keep x ≡ false → IsGoneThrough full to rank x) →
        (entries ids after again : List ℕ) → Visits nat_eq known entries [] ids → Visits nat_eq full entries [] after →
        Visits nat_eq full (filter keep ids) [] again → filter keep again ≡ filter keep after }
{}
