//! Laws of line terminators and of where looks hold. Each function has no code: its contract is the law.
//! ```rust
//! pub fn both_end_lines()
//!     ensures { ends_line (two_of 13 10) 10 ≡ ((13 == 10) || (10 == 10)) }
//! {
//!     two_bytes_end_lines();
//! }
//! ```
ghost use Rattle.std.specs.Prelude.{◌≡◌, ◌<◌, ◌||◌, ◌==◌, ℕ, Bool, List, IfSome};
ghost use Rattle.search_core.specs.Text.{byte_at, byte_before};
ghost use Rattle.look_core.specs.Terminators.{Terminator, IsTerminator, ends_line, two_of};
ghost use Rattle.look_core.specs.Looks.{IsWordSet, holds, holds_ascii};
ghost use Rattle.look_core.specs.declared.look.Look.{Look as TheLook};

/// A terminator of two bytes holds these and no others.
#[tactic(auto, using(crate::proofs::TerminatorLemmas::two_hold_both))]
pub fn two_bytes_end_lines()
    ensures { (a b c : ℕ) → ends_line (two_of a b) c ≡ ((a == c) || (b == c)) }
{}

/// Terminators that hold the same bytes are equal.
#[tactic(auto, using(crate::proofs::TerminatorLemmas::same_terminator))]
pub fn terminators_are_their_bytes()
    ensures { (s t : Terminator) → IsTerminator s → IsTerminator t → ((c : ℕ) → ends_line s c ≡ ends_line t c) → s ≡ t }
{}

/// If each neighbour of an offset is a byte of ASCII or the edge of the haystack, it makes no difference
/// whether words are read as characters or as bytes, whatever the class of words.
#[tactic(auto, using(crate::proofs::SideLemmas::agree_on_ascii))]
pub fn words_agree_beside_ascii()
    ensures { (words : ℕ → Bool) (t : Terminator) (h : List ℕ) (l : TheLook) (i : ℕ) → IsWordSet words →
        IfSome (byte_before h i) (λ b. b < 128) → IfSome (byte_at h i) (λ b. b < 128) →
        holds words t h l i ≡ holds_ascii t h l i }
{}
