//! Classes of scalars in a trie of ranges, for an automaton that reads in reverse.
ghost use Rattle.std.specs.Prelude.{◌≡◌, ℕ, List, [], ◌∷◌, true, reverse, OnOk};
ghost use Rattle.hir_core.specs.BySequences.{sequences_of};
ghost use Rattle.hir_core.specs.Sequences.{is_in_ranges, ranges_of_sequence, utf8_sequences};
ghost use Rattle.thompson_nfa.specs.ClassTries.{HasTurned, GainsTurned, IsTurnedSpelling, AreTurnedSpellings};
ghost use Rattle.thompson_nfa.specs.RangeTries.{AreRanges, IsTrie};

use crate::range_tries::range_trie::RangeTrie;
use hir_core::{Utf8Sequence, Utf8Sequences};
use std::alloc::{AllocError, Global};

/// Adds a sequence, its last range first.
fn insert_turned(
    trie: &mut RangeTrie,
    alloc: Global,
    sequence: Utf8Sequence,
) -> Result<(), AllocError>
    requires ordered { AreRanges (ranges_of_sequence sequence) }
    requires old { AreTurnedSpellings trie.old }
    requires new { (s : List ℕ) → is_in_ranges (reverse (ranges_of_sequence sequence)) s ≡ true → IsTurnedSpelling s }
    ensures { OnOk result (GainsTurned trie.old (ranges_of_sequence sequence ∷ []) trie.new) }
{
    let mut turned = sequence;
    turned.reverse();
    trie.insert(turned.as_slice())?;
    Ok(())
}

/// Adds the sequences of the characters from `first` to `last`, each reversed.
fn insert_range(
    trie: &mut RangeTrie,
    alloc: Global,
    first: char,
    last: char,
) -> Result<(), AllocError>
    requires { AreTurnedSpellings trie.old }
    ensures { OnOk result (GainsTurned trie.old (utf8_sequences first last) trie.new) }
{
    for sequence in Utf8Sequences::new(first, last) {
        insert_turned(trie, alloc, sequence)?;
    }
    Ok(())
}

/// Makes the trie hold the spellings of the class, each reversed, and no other strings.
pub(crate) fn insert_class(
    trie: &mut RangeTrie,
    alloc: Global,
    ranges: &[(char, char)],
) -> Result<(), AllocError>
    ensures ok { OnOk result (HasTurned trie.new (sequences_of ranges.now)) }
    ensures trie { IsTrie trie.new }
{
    trie.clear();
    let inserted = insert_ranges(trie, alloc, ranges);
    trie.see_order();
    inserted
}

/// Adds the sequences of all ranges, each reversed, to an empty trie.
fn insert_ranges(
    trie: &mut RangeTrie,
    alloc: Global,
    ranges: &[(char, char)],
) -> Result<(), AllocError>
    requires { trie.old ≡ [] }
    ensures { OnOk result (HasTurned trie.new (sequences_of ranges.now)) }
{
    for range in ranges {
        insert_range(trie, alloc, range.0, range.1)?;
    }
    Ok(())
}
