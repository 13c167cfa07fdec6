//! Laws of the bytes of states. The contract of each function is the law; they have no code.
//! ```rust
//! pub fn bytes_tell_states_apart()
//!     ensures { (v w : StateValue) → IsState v → IsState w → encoded v ≡ encoded w → v ≡ w }
//! {
//!     bytes_stand_for_states();
//! }
//! ```
ghost use Rattle.std.specs.Prelude.{◌≡◌, ◌≤◌, ◌+◌, ◌*◌, ◌↔◌, true, length};
ghost use Rattle.determinize_core.specs.States.{StateValue, IsState};
ghost use Rattle.determinize_core.specs.StateBytes.{encoded, decoded, has_same_bytes};

/// The bytes of a state stand for that state alone.
pub fn bytes_stand_for_states()
    ensures back { (v : StateValue) → IsState v → decoded (encoded v) ≡ v }
    ensures apart { (v w : StateValue) → IsState v → IsState w → encoded v ≡ encoded w → v ≡ w }
{}

/// Two states are equal exactly if their bytes are equal, and exactly if the test of a map that keeps states by their bytes says so.
pub fn states_are_told_by_their_bytes()
    ensures bytes { (v w : StateValue) → IsState v → IsState w → (encoded v ≡ encoded w) ↔ (v ≡ w) }
    ensures test { (v w : StateValue) → IsState v → IsState w → (has_same_bytes v w ≡ true) ↔ (v ≡ w) }
    ensures itself { (v : StateValue) → has_same_bytes v v ≡ true }
{}

/// A state has at most thirteen bytes, and in addition four for each pattern that matches and five for each state of the NFA.
pub fn states_are_short()
    ensures { (v : StateValue) → length (encoded v) ≤ 13 + 4 * length v.matches + 5 * length v.ids }
{}
