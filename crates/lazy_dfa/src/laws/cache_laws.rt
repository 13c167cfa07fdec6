//! Laws of caches: which changes leave a cache to its automaton, and which states IDs distinguish. Each function has no code: its
//! contract is the law.
//! ```rust
//! pub fn ids_tell_states_apart()
//!     ensures { (d : Dfa) (c : CacheValue) (i j : ℕ) (v w : StateValue) → IsCacheOf d c → HeldAt c i v → HeldAt c j w → (i ≡ j → ⊥) →
//!         v ≡ w → ⊥ }
//! {
//!     rows_name_different_states();
//! }
//! ```
ghost use Rattle.std.specs.Prelude.{◌≡◌, ℕ, Option};
ghost use Rattle.determinize_core.specs.States.{StateValue};
ghost use Rattle.lazy_dfa.specs.Caches.{CacheValue, IsCacheOf, HeldAt};
ghost use Rattle.lazy_dfa.specs.Dfas.{Dfa};
ghost use Rattle.lazy_dfa.specs.declared.cache.progress.Progress.{Progress};

/// A cache remains one of its automaton when the progress of searches is recorded in it.
pub fn told_caches_stay_their_automatons()
    ensures { (d : Dfa) (v : CacheValue) (searched : ℕ) (progress : Option Progress) → IsCacheOf d v →
        IsCacheOf d (record v { searched = searched; progress = progress }) }
{}

/// Two different IDs that are held, and are no sentinels, name different states.
pub fn rows_name_different_states()
    ensures { (d : Dfa) (v : CacheValue) (i j : ℕ) (s t : StateValue) → IsCacheOf d v → HeldAt v i s → HeldAt v j t →
        (i ≡ j → ⊥) → s ≡ t → ⊥ }
{}
