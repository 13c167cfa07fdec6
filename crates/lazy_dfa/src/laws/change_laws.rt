//! Laws of what calls change of a cache: when it is never cleared, and what is added to it. Each function has no code: its
//! contract is the law.
//! ```rust
//! pub fn few_clears()
//!     ensures { (d : Dfa) (q : Search) (old new : CacheValue) (n : ℕ) → Changes d (IsMadeBy d q) old new n → old.clears ≤ greatest →
//!         new.clears ≤ old.clears + n }
//! {
//!     searches_clear_for_states();
//! }
//! ```
ghost use Rattle.std.specs.Prelude.{◌≡◌, ◌+◌, ◌<◌, ◌≤◌, ℕ};
ghost use Rattle.search_types.specs.Inputs.{Search};
ghost use Rattle.lazy_dfa.specs.Caches.{CacheValue, IsCacheOf, greatest};
ghost use Rattle.lazy_dfa.specs.Changes.{Changes, IsMadeBy, HasRoomFor, IsSpent, FirstClear, AddsFew, LastClear};
ghost use Rattle.lazy_dfa.specs.Dfas.{Dfa, IsDfa};
ghost use Rattle.lazy_dfa.specs.OverlappingAnswers.{IsMadeOnCall, IsMadeOnOverlapping};
ghost use Rattle.lazy_dfa.specs.declared.overlapping.overlapping_state.OverlappingPosition.{OverlappingPosition};

/// A half search clears its cache at most once for each state that it builds.
pub fn searches_clear_for_states()
    ensures { (d : Dfa) (q : Search) (old new : CacheValue) (n : ℕ) → Changes d (IsMadeBy d q) old new n →
        old.clears ≤ greatest → (old.clears ≤ new.clears) × (new.clears ≤ old.clears + n) }
{}

/// If a cache has room for all states that a half search can build, nothing is cleared. If the clears that are allowed are used
/// up, nothing is cleared either.
pub fn searches_keep_what_has_room()
    ensures room { (d : Dfa) (q : Search) (old new : CacheValue) (n : ℕ) → IsDfa d → IsCacheOf d old → HasRoomFor d old n →
        Changes d (IsMadeBy d q) old new n → AddsFew d (IsMadeBy d q) old new n }
    ensures spent { (d : Dfa) (q : Search) (old new : CacheValue) (n : ℕ) → IsDfa d → IsCacheOf d old → IsSpent d old →
        Changes d (IsMadeBy d q) old new n → AddsFew d (IsMadeBy d q) old new n }
{}

/// If the count of clears is unchanged and below its greatest value, a half search added states on its way alone. If the count
/// changed, the first clear was for a state on its way that wasn't held and had no room.
pub fn searches_add_states_on_their_way()
    ensures kept { (d : Dfa) (q : Search) (old new : CacheValue) (n : ℕ) → IsDfa d → IsCacheOf d old → new.clears ≡ old.clears →
        old.clears < greatest → Changes d (IsMadeBy d q) old new n → AddsFew d (IsMadeBy d q) old new n }
    ensures cleared { (d : Dfa) (q : Search) (old new : CacheValue) (n : ℕ) → IsDfa d → IsCacheOf d old → (new.clears ≡ old.clears → ⊥) →
        Changes d (IsMadeBy d q) old new n → FirstClear d (IsMadeBy d q) old }
{}

/// If a half search cleared its cache, the last clear left at most one state: the one from which the clearing step started. A
/// clear for a start state left none. Everything else that is held after the search was built since.
pub fn searches_keep_the_state_that_they_clear_from()
    ensures { (d : Dfa) (q : Search) (old new : CacheValue) (n : ℕ) → (new.clears ≡ old.clears → ⊥) → Changes d (IsMadeBy d q) old new n →
        LastClear d (IsMadeBy d q) new n }
{}

/// A call of an overlapping search clears its cache at most once for each state that it builds. It never clears the cache if
/// there is room for all of these, or if the clears that are allowed are used up.
///
/// If the count of clears is unchanged and below its greatest value, the call added states on its way alone. If the count
/// changed, the first clear was for a state on its way that wasn't held and had no room. The last clear then left at most the
/// state from which its step started.
pub fn calls_clear_for_states_alone()
    ensures count { (d : Dfa) (q : Search) (w : OverlappingPosition) (old new : CacheValue) (n : ℕ) →
        Changes d (IsMadeOnCall d q w) old new n →
        old.clears ≤ greatest →
        (old.clears ≤ new.clears) × (new.clears ≤ old.clears + n) }
    ensures room { (d : Dfa) (q : Search) (w : OverlappingPosition) (old new : CacheValue) (n : ℕ) → IsDfa d → IsCacheOf d old →
        HasRoomFor d old n →
        Changes d (IsMadeOnCall d q w) old new n → AddsFew d (IsMadeOnCall d q w) old new n }
    ensures spent { (d : Dfa) (q : Search) (w : OverlappingPosition) (old new : CacheValue) (n : ℕ) → IsDfa d → IsCacheOf d old →
        IsSpent d old →
        Changes d (IsMadeOnCall d q w) old new n → AddsFew d (IsMadeOnCall d q w) old new n }
    ensures kept { (d : Dfa) (q : Search) (w : OverlappingPosition) (old new : CacheValue) (n : ℕ) → IsDfa d → IsCacheOf d old →
        new.clears ≡ old.clears →
        old.clears < greatest → Changes d (IsMadeOnCall d q w) old new n → AddsFew d (IsMadeOnCall d q w) old new n }
    ensures cleared { (d : Dfa) (q : Search) (w : OverlappingPosition) (old new : CacheValue) (n : ℕ) → IsDfa d → IsCacheOf d old →
        (new.clears ≡ old.clears → ⊥) →
        Changes d (IsMadeOnCall d q w) old new n → FirstClear d (IsMadeOnCall d q w) old }
    ensures left { (d : Dfa) (q : Search) (w : OverlappingPosition) (old new : CacheValue) (n : ℕ) → (new.clears ≡ old.clears → ⊥) →
        Changes d (IsMadeOnCall d q w) old new n → LastClear d (IsMadeOnCall d q w) new n }
{}

/// An overlapping search over a whole span, as the one that finds which patterns match, clears its cache at most once for each
/// state that it builds. It never clears the cache if there is room for all of these, or if the clears that are allowed are used
/// up.
///
/// If the count of clears is unchanged and below its greatest value, the search added states on its way alone. If the count
/// changed, the first clear was for a state on its way that wasn't held and had no room. The last clear then left at most the
/// state from which its step started.
pub fn walks_clear_for_states_alone()
    ensures count { (d : Dfa) (q : Search) (old new : CacheValue) (n : ℕ) → Changes d (IsMadeOnOverlapping d q) old new n →
        old.clears ≤ greatest →
        (old.clears ≤ new.clears) × (new.clears ≤ old.clears + n) }
    ensures room { (d : Dfa) (q : Search) (old new : CacheValue) (n : ℕ) → IsDfa d → IsCacheOf d old → HasRoomFor d old n →
        Changes d (IsMadeOnOverlapping d q) old new n → AddsFew d (IsMadeOnOverlapping d q) old new n }
    ensures spent { (d : Dfa) (q : Search) (old new : CacheValue) (n : ℕ) → IsDfa d → IsCacheOf d old → IsSpent d old →
        Changes d (IsMadeOnOverlapping d q) old new n → AddsFew d (IsMadeOnOverlapping d q) old new n }
    ensures kept { (d : Dfa) (q : Search) (old new : CacheValue) (n : ℕ) → IsDfa d → IsCacheOf d old → new.clears ≡ old.clears →
        old.clears < greatest → Changes d (IsMadeOnOverlapping d q) old new n → AddsFew d (IsMadeOnOverlapping d q) old new n }
    ensures cleared { (d : Dfa) (q : Search) (old new : CacheValue) (n : ℕ) → IsDfa d → IsCacheOf d old → (new.clears ≡ old.clears → ⊥) →
        Changes d (IsMadeOnOverlapping d q) old new n → FirstClear d (IsMadeOnOverlapping d q) old }
    ensures left { (d : Dfa) (q : Search) (old new : CacheValue) (n : ℕ) → (new.clears ≡ old.clears → ⊥) →
        Changes d (IsMadeOnOverlapping d q) old new n → LastClear d (IsMadeOnOverlapping d q) new n }
{}
