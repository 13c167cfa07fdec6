//! Laws of how many states a compile may make, and how many bytes they may take. Each function has no code: its contract
//! is the law.
//! ```rust
//! pub fn rooms_are_counted()
//!     ensures { (x : Tree) → room false x ≡ count x }
//! {
//!     plain_compiles_take_what_trees_count();
//! }
//! ```
ghost use Rattle.std.specs.Prelude.{◌≡◌, ◌<◌, ◌≤◌, ◌+◌, ◌*◌, max, ℕ, Bool, true, false, List, [], ◌∷◌, length, Some};
ghost use Rattle.std.specs.List.{list_all};
ghost use Rattle.hir_core.specs.BySequences.{sequences_of};
ghost use Rattle.hir_core.specs.Facts.{count, list_count, sequence_count};
ghost use Rattle.hir_core.specs.Tree.{Tree, literal, byte_class, char_class, repetition, alternation};
ghost use Rattle.nfa_core.specs.NfaValue.{Nfa};
ghost use Rattle.nfa_core.specs.declared.build_error.BuildError.TheVariants.{ExceededSizeLimit};
ghost use Rattle.thompson_nfa.specs.AsciiClasses.{is_ascii};
ghost use Rattle.thompson_nfa.specs.ByteRoom.{Bound, at_least, at_most, choice_bytes, sequence_bytes, class_bytes, group_bytes};
ghost use Rattle.thompson_nfa.specs.ByteRoom.{tree_bytes, tree_most, shares_no_states};
ghost use Rattle.thompson_nfa.specs.Compilations.{IsCompiled, bytes_needed};
ghost use Rattle.thompson_nfa.specs.Configs.{Options, captures_of, is_shrunk, limit_of};
ghost use Rattle.thompson_nfa.specs.LiteralParts.{are_literals};
ghost use Rattle.thompson_nfa.specs.RefusedTrees.{RejectsTrees};
ghost use Rattle.thompson_nfa.specs.Room.{room, list_room};
ghost use Rattle.thompson_nfa.specs.ScalarCounts.{scalars_in};
ghost use Rattle.thompson_nfa.specs.declared.which_captures.WhichCaptures.{WhichCaptures};

/// If classes aren't shrunk, a compile may make as many states as the counts of the trees say.
#[tactic(auto, using(crate::proofs::Steps::PlainRoom::room_is_count, crate::proofs::Steps::PlainRoom::list_room_plain))]
pub fn plain_compiles_take_what_trees_count()
    ensures tree { (x : Tree) → room false x ≡ count x }
    ensures list { (o : Options) (xs : List Tree) → is_shrunk o ≡ false → list_room (is_shrunk o) xs ≡ list_count xs }
{}

/// If no states are shared, the size limit is exact. Trees whose states take n bytes are compiled under a limit of n, and
/// rejected under each limit below n, unless something else is in the way. That can be an allocation that fails, groups, or too
/// many patterns or states. The bytes are those of the states that are made, with the empty ones that the finished automaton
/// leaves out.
///
/// So a literal of 100 bytes takes 2512 bytes without captures, and 2560 with the group of the whole match.
#[tactic(auto, using(crate::proofs::Steps::ByteRows::exact_bytes, crate::proofs::Steps::ByteRows::made_within, crate::proofs::Steps::ByteRows::refused_beyond, crate::proofs::Steps::ByteRows::literal_needs))]
pub fn limits_are_exact_where_no_states_are_shared()
    ensures exact { (shrink : Bool) (o : Options) (xs : List Tree) → list_all shares_no_states xs ≡ true →
        bytes_needed (at_most shrink) o xs ≡ bytes_needed at_least o xs }
    ensures made { (o : Options) (xs : List Tree) (n : Nfa) (limit : ℕ) → IsCompiled o xs n → limit_of o ≡ Some limit →
        bytes_needed at_least o xs ≤ limit }
    ensures refused { (o : Options) (xs : List Tree) (limit : ℕ) → list_all shares_no_states xs ≡ true →
        RejectsTrees o xs (ExceededSizeLimit limit) → limit < bytes_needed at_least o xs }
    ensures literal { (o : Options) (bytes : List ℕ) →
        bytes_needed at_least o (literal bytes ∷ []) ≡ 24 * max (length bytes) 1 + group_bytes (captures_of o) 0 + 112 }
{}

/// A class of bytes that is repeated n times takes 48 bytes each time, and 8 for each of its ranges. So does a class of scalars
/// that is ASCII. A limit that has room for these bytes, and for 160 more, rejects no compile of it alone.
#[tactic(auto, using(crate::proofs::Steps::ByteRows::repeated_class, crate::proofs::Steps::ByteRows::repeated_class_fits, crate::proofs::Steps::ByteRows::ascii_class))]
pub fn repeated_classes_take_what_they_hold()
    ensures bytes { (b : Bound) (which : WhichCaptures) (greedy : Bool) (n : ℕ) (ranges : List (ℕ × ℕ)) → 0 < n →
        tree_bytes b which false (repetition n (Some n) greedy (byte_class ranges)) ≡ n * (48 + 8 * length ranges) }
    ensures ascii { (b : Bound) (which : WhichCaptures) (ranges : List (ℕ × ℕ)) → is_ascii ranges ≡ true →
        tree_bytes b which false (char_class ranges) ≡ tree_bytes b which false (byte_class ranges) }
    ensures fits { (o : Options) (greedy : Bool) (n limit : ℕ) (ranges : List (ℕ × ℕ)) → 0 < n →
        n * (48 + 8 * length ranges) + 160 ≤ limit →
        RejectsTrees o (repetition n (Some n) greedy (byte_class ranges) ∷ []) (ExceededSizeLimit limit) → ⊥ }
{}

/// Two literals or more take at most 32 bytes for each of their bytes, 36 for each literal, and 28 more: `going|doing` takes no
/// more than 420. A limit that has room for these, and for 160 more, rejects no compile of them alone.
///
/// After a part that is no literal, each literal takes 24 for each of its bytes and 4 for the way to it: `[0-9]|going|doing`
/// takes 356.
#[tactic(auto, using(crate::proofs::Steps::ByteRows::two_literals, crate::proofs::Steps::ByteRows::two_words, crate::proofs::Steps::ByteRows::words_behind_digits, crate::proofs::Steps::ByteRows::literals_fit))]
pub fn literals_take_what_they_hold()
    ensures two { (which : WhichCaptures) (shrink : Bool) (v w : List ℕ) →
        tree_most which shrink (alternation (literal v ∷ literal w ∷ [])) ≡ 32 * (length v + length w) + 100 }
    ensures words { (which : WhichCaptures) (shrink : Bool) → tree_most which shrink
        (alternation (literal (103 ∷ 111 ∷ 105 ∷ 110 ∷ 103 ∷ []) ∷ literal (100 ∷ 111 ∷ 105 ∷ 110 ∷ 103 ∷ []) ∷ [])) ≡ 420 }
    ensures behind { (b : Bound) (which : WhichCaptures) →
        tree_bytes b which false (alternation (byte_class ((48, 57) ∷ []) ∷ literal (103 ∷ 111 ∷ 105 ∷ 110 ∷ 103 ∷ []) ∷
        literal (100 ∷ 111 ∷ 105 ∷ 110 ∷ 103 ∷ []) ∷ [])) ≡ 356 }
    ensures fits { (o : Options) (limit : ℕ) (xs : List Tree) → are_literals xs ≡ true → choice_bytes (alternation xs) + 160 ≤ limit →
        RejectsTrees o (alternation xs ∷ []) (ExceededSizeLimit limit) → ⊥ }
{}

/// A class of scalars beyond ASCII takes at most 24 bytes for each range of its sequences, 8 for each sequence, and 52 more. That
/// is no more than 104 for each sequence, and 52. If it is shrunk, it takes at most 104 for each scalar, and 52. So `[α-ω]`, of
/// two sequences of two ranges, takes no more than 164, and shrunk no more than 2652.
///
/// A limit that has room for these bytes, and for 160 more, rejects no compile of it alone.
#[tactic(auto, using(crate::proofs::Steps::ByteRows::other_class, crate::proofs::Steps::ByteRows::class_most, crate::proofs::Steps::ByteRows::class_fits))]
pub fn classes_of_scalars_take_what_they_hold()
    ensures plain { (which : WhichCaptures) (ranges : List (ℕ × ℕ)) → is_ascii ranges ≡ false →
        tree_most which false (char_class ranges) ≡ 52 + sequence_bytes (sequences_of ranges) }
    ensures most { (which : WhichCaptures) (ranges : List (ℕ × ℕ)) → is_ascii ranges ≡ false →
        tree_most which false (char_class ranges) ≤ 52 + 104 * sequence_count ranges }
    ensures shrunk { (which : WhichCaptures) (ranges : List (ℕ × ℕ)) → is_ascii ranges ≡ false →
        tree_most which true (char_class ranges) ≡ 52 + 104 * scalars_in ranges }
    ensures letters { (which : WhichCaptures) → tree_most which false (char_class ((945, 969) ∷ [])) ≡ 164 }
    ensures shrunk_letters { (which : WhichCaptures) → tree_most which true (char_class ((945, 969) ∷ [])) ≡ 2652 }
    ensures fits { (o : Options) (limit : ℕ) (ranges : List (ℕ × ℕ)) → is_ascii ranges ≡ false →
        class_bytes (is_shrunk o) ranges + 160 ≤ limit →
        RejectsTrees o (char_class ranges ∷ []) (ExceededSizeLimit limit) → ⊥ }
{}
