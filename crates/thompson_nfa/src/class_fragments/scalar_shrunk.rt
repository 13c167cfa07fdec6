//! Classes of scalars that are read in reverse, by sequences that share as many states as they can.

ghost use Rattle.std.specs.Prelude.{◌≡◌, ◌<◌, ◌+◌, ◌*◌, ℕ, [], true, length, map, get_or, IfOk, IfErr};
ghost use Rattle.hir_core.specs.Tree.{alternation, char_class};
ghost use Rattle.thompson_nfa.specs.ByteRoom.{sequence_bytes};
ghost use Rattle.thompson_nfa.specs.ClassTries.{IsShortSequence};
ghost use Rattle.thompson_nfa.specs.Compiled.{Makes, Weighs, Does};
ghost use Rattle.thompson_nfa.specs.RangeTries.{IsTrie};
ghost use Rattle.thompson_nfa.specs.RangeWalks.{paths_of};
ghost use Rattle.thompson_nfa.specs.Refusals.{Quits, ExceedsLimit};
ghost use Rattle.thompson_nfa.specs.ScalarCounts.{scalars_in};
ghost use Rattle.thompson_nfa.specs.Shared.{read_tree};

use crate::class_fragments::utf8_compiler::{add, begin, finish};
use crate::class_fragments::utf8_state::Utf8State;
use crate::compiling::Fragment;
use crate::range_tries::class_trie::insert_class;
use crate::range_tries::range_trie::RangeTrie;
use hir_core::Utf8Range;
use nfa_core::{BuildError, Builder};
use std::alloc::Global;

/// States for the sequences, each read from its first range on.
fn compile_paths(
    builder: &mut Builder,
    alloc: Global,
    state: &mut Utf8State,
    paths: &[Vec<Utf8Range>],
) -> Result<Fragment, BuildError>
    requires ascending { IsTrie (paths_of paths.now) }
    requires short { (k : ℕ) → k < length (paths_of paths.now) → IsShortSequence (get_or (paths_of paths.now) k []) }
    ensures made { IfOk result (λ f. Makes builder.old builder.new f.start f.end (2 + 4 * length paths.now)) }
    ensures does { IfOk result (λ f. Does builder.old builder.new f.start f.end
        (alternation (map (read_tree builder.old.reverse) (paths_of paths.now)))) }
    ensures weighs { IfOk result (λ _. Weighs builder.old builder.new (48 + sequence_bytes (paths_of paths.now))) }
    ensures passed { IfErr result (λ e. ExceedsLimit builder.old (48 + sequence_bytes (paths_of paths.now)) e) }
    ensures groups { IfOk result (λ _. builder.new.groups ≡ builder.old.groups) }
    ensures refused { IfErr result (λ e. Quits builder.old builder.new (2 + 4 * length paths.now) e) }
{
    begin(builder, state)?;
    for path in paths {
        add(builder, alloc, state, path)?;
    }
    let all = finish(builder, alloc, state)?;
    Ok(all)
}

/// The class by sequences that are reversed, and brought into an order in which they share states at their
/// ends too. The trie and the state may be used for one class after another.
pub(crate) fn compile_scalars_shrunk(
    builder: &mut Builder,
    alloc: Global,
    trie: &mut RangeTrie,
    state: &mut Utf8State,
    ranges: &[(char, char)],
) -> Result<Fragment, BuildError>
    requires { builder.old.reverse ≡ true }
    ensures made { IfOk result (λ f. Makes builder.old builder.new f.start f.end (2 + 4 * scalars_in ranges.now)) }
    ensures does { IfOk result (λ f. Does builder.old builder.new f.start f.end (char_class ranges.now)) }
    ensures weighs { IfOk result (λ _. Weighs builder.old builder.new (48 + 104 * scalars_in ranges.now)) }
    ensures passed { IfErr result (λ e. ExceedsLimit builder.old (48 + 104 * scalars_in ranges.now) e) }
    ensures groups { IfOk result (λ _. builder.new.groups ≡ builder.old.groups) }
    ensures refused { IfErr result (λ e. Quits builder.old builder.new (2 + 4 * scalars_in ranges.now) e) }
{
    insert_class(trie, alloc, ranges)?;
    let paths = trie.paths(alloc)?;
    let all = compile_paths(builder, alloc, state, &paths)?;
    Ok(all)
}
