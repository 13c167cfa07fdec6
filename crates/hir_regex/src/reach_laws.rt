//! Laws of what answers over trees depend on: the bytes in their reach, as far as the automata distinguish these bytes, and no
//! setting of a cache. Each function has no code: its contract is the law.
//! ```rust
//! pub fn built_pairs_have_their_classes()
//!     ensures { (n m : Nfa) (o : DfaOptions) (p : Pair) → pair_built n m o ≡ Ok p → HasItsClasses p }
//! {
//!     bytes_of_one_class_are_interchangeable();
//! }
//! ```
ghost use Rattle.std.specs.Prelude.{◌≡◌, ℕ, ◌<◌, ◌≤◌, Bool, false, List, All, length, Option, Ok};
ghost use Rattle.look_core.specs.Looks.{holds};
ghost use Rattle.look_core.specs.SameClasses.{HaveSameClasses};
ghost use Rattle.look_core.specs.Terminators.{Terminator};
ghost use Rattle.hir_core.specs.Facts.{LoopsRead};
ghost use Rattle.hir_core.specs.Tree.{Tree};
ghost use Rattle.search_types.specs.Found.{Found};
ghost use Rattle.search_types.specs.Inputs.{Search};
ghost use Rattle.search_types.specs.Modes.{is_supported};
ghost use Rattle.nfa_core.specs.Alike.{marks_of};
ghost use Rattle.nfa_core.specs.NfaValue.{Nfa};
ghost use Rattle.lazy_dfa.specs.ConfigValue.{DfaOptions};
ghost use Rattle.lazy_dfa.specs.Dfas.{reader};
ghost use Rattle.regex_pair.specs.Joined.{joined};
ghost use Rattle.regex_pair.specs.Matching.{has_match};
ghost use Rattle.regex_pair.specs.Pairs.{Pair, pair_built};
ghost use Rattle.hir_regex.specs.Choices.{answer_from};
ghost use Rattle.hir_regex.specs.ReachLaws.{IsAlike, IsAnswerReach, HasItsClasses, HasNoUnicodeWord};
ghost use Rattle.hir_regex.specs.Regexes.{IsRegexOf, IsSearchOf, query_of};

/// An answer has an offset up to which it depends on the haystack. Take any haystack of bytes that has the same ones from the
/// byte before the span up to that offset, and is valid in UTF-8 mode. Over it the trees define the same answer, for every set of
/// words.
///
/// The offset lies after the end of the match, and at most one past the byte after the span. No quit byte is between the byte
/// before the span and that offset. Precondition: the body of every unbounded repetition in the trees consumes at least one byte.
pub fn answers_depend_on_their_reach()
    ensures { (xs : List Tree) (utf8 : Bool) (t : Terminator) (p : Pair) → IsRegexOf xs utf8 t p → (q : Search) → IsSearchOf xs utf8 q →
        All LoopsRead xs → (o : Option Found) → joined p q ≡ Ok o → (end : ℕ) × IsAnswerReach xs utf8 t p q o end }
{}

/// Take two automata of the trees, and two others over the same NFAs that give up at the same bytes. They return the same answers
/// in each mode in which both can search, whatever the bodies of repetitions consume. So the capacity of caches, when these are
/// cleared, classes of bytes and tagged starts don't show.
pub fn settings_of_caches_do_not_show()
    ensures answer { (xs : List Tree) (utf8 : Bool) (t : Terminator) (p r : Pair) → IsRegexOf xs utf8 t p → IsRegexOf xs utf8 t r →
        p.forward.nfa ≡ r.forward.nfa → p.reverse.nfa ≡ r.reverse.nfa → p.forward.quits ≡ r.forward.quits → (q : Search) →
        is_supported (reader p.forward).starts_for_each_pattern q.anchored ≡
        is_supported (reader r.forward).starts_for_each_pattern q.anchored →
        joined p q ≡ joined r q }
    ensures reported { (xs : List Tree) (utf8 : Bool) (t : Terminator) (p r : Pair) → IsRegexOf xs utf8 t p → IsRegexOf xs utf8 t r →
        p.forward.nfa ≡ r.forward.nfa → p.reverse.nfa ≡ r.reverse.nfa → p.forward.quits ≡ r.forward.quits → (q : Search) →
        is_supported (reader p.forward).starts_for_each_pattern q.anchored ≡
        is_supported (reader r.forward).starts_for_each_pattern q.anchored →
        has_match p q ≡ has_match r q }
{}

/// Bytes of one class are interchangeable. Take two haystacks of bytes, of one length, whose bytes at each offset have the same
/// class. The classes are those of the NFA that reads forward, `NFA::byte_classes`. Then the trees define the same answer over
/// both, for every set of words. This also holds for the classes with which the automaton over that NFA is built, which
/// distinguish more bytes.
///
/// Preconditions: the trees aren't in UTF-8 mode, none asks for words of characters, and the body of every unbounded repetition
/// in them consumes at least one byte.
pub fn bytes_of_one_class_are_interchangeable()
    ensures marks { (xs : List Tree) (t : Terminator) (p : Pair) → IsRegexOf xs false t p → All LoopsRead xs → HasNoUnicodeWord xs →
        (q : Search) (g : List ℕ) → q.end ≤ length q.haystack → All (λ byte. byte < 256) q.haystack → All (λ byte. byte < 256) g →
        HaveSameClasses (marks_of p.forward.nfa.terminator p.forward.nfa.automaton.states) q.haystack g → (words : ℕ → Bool) →
        answer_from (query_of xs false (holds words t q.haystack) q) q.start
        ≡ answer_from (query_of xs false (holds words t g) (record q { haystack = g })) q.start }
    ensures answer { (xs : List Tree) (t : Terminator) (p : Pair) → IsRegexOf xs false t p → HasItsClasses p → All LoopsRead xs →
        HasNoUnicodeWord xs →
        (q : Search) (g : List ℕ) → q.end ≤ length q.haystack → All (λ byte. byte < 256) q.haystack → All (λ byte. byte < 256) g →
        IsAlike p.forward.classes q.haystack g → (words : ℕ → Bool) →
        answer_from (query_of xs false (holds words t q.haystack) q) q.start
        ≡ answer_from (query_of xs false (holds words t g) (record q { haystack = g })) q.start }
    ensures built { (n m : Nfa) (c : DfaOptions) (p : Pair) → pair_built n m c ≡ Ok p → HasItsClasses p }
{}
