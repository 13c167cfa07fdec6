//! Fragments of classes of scalars.
ghost use Rattle.std.specs.Prelude.{◌≡◌, true, IfOk, IfErr};
ghost use Rattle.hir_core.specs.Facts.{is_ascending};
ghost use Rattle.hir_core.specs.Tree.{char_class};
ghost use Rattle.thompson_nfa.specs.ByteRoom.{at_least, at_most, class_bytes, scalar_bytes};
ghost use Rattle.thompson_nfa.specs.Compiled.{Makes, TakesBytes, Does};
ghost use Rattle.thompson_nfa.specs.Refusals.{Quits, ExceedsLimit};
ghost use Rattle.thompson_nfa.specs.Room.{room};

use crate::class_fragments::scalar_ascii::{compile_ascii, is_ascii};
use crate::class_fragments::scalar_forward::compile_scalars_forward;
use crate::class_fragments::scalar_reverse::compile_scalars_reverse;
use crate::class_fragments::scalar_shrunk::compile_scalars_shrunk;
use crate::compiling::{Fragment, How, Shared};
use nfa_core::{BuildError, Builder};
use std::alloc::Global;

/// States for the sequences of byte ranges that spell the scalars. They share endings when the automaton
/// reads forward, and beginnings when it reads in reverse, or both if classes are made smaller.
fn scalar_states(
    builder: &mut Builder,
    alloc: Global,
    how: How,
    shared: &mut Shared,
    ranges: &[(char, char)],
) -> Result<Fragment, BuildError>
    requires { is_ascending ranges.now ≡ true }
    ensures made { IfOk result (λ f. Makes builder.old builder.new f.start f.end (room how.shrink (char_class ranges.now))) }
    ensures does { IfOk result (λ f. Does builder.old builder.new f.start f.end (char_class ranges.now)) }
    ensures weighs { IfOk result (λ f. TakesBytes builder.old builder.new f.end 0 (class_bytes how.shrink ranges.now)) }
    ensures passed { IfErr result (λ e. ExceedsLimit builder.old (class_bytes how.shrink ranges.now) e) }
    ensures groups { IfOk result (λ _. builder.new.groups ≡ builder.old.groups) }
    ensures refused { IfErr result (λ e. Quits builder.old builder.new (room how.shrink (char_class ranges.now)) e) }
{
    if !builder.get_reverse() {
        let forward = compile_scalars_forward(builder, alloc, &mut shared.utf8, ranges)?;
        return Ok(forward);
    }
    if how.shrink {
        let (trie, utf8) = (&mut shared.trie, &mut shared.utf8);
        let shrunk = compile_scalars_shrunk(builder, alloc, trie, utf8, ranges)?;
        return Ok(shrunk);
    }
    let reverse = compile_scalars_reverse(builder, alloc, &mut shared.suffixes, ranges)?;
    Ok(reverse)
}

/// A class of scalars: one state if it is ASCII, and otherwise states for the sequences of byte ranges that
/// spell its scalars.
///
/// As `regex_automata::nfa::thompson::compiler::Compiler::c_unicode_class`.
pub(crate) fn compile_scalars(
    builder: &mut Builder,
    alloc: Global,
    how: How,
    shared: &mut Shared,
    ranges: &[(char, char)],
) -> Result<Fragment, BuildError>
    requires { is_ascending ranges.now ≡ true }
    ensures made { IfOk result (λ f. Makes builder.old builder.new f.start f.end (room how.shrink (char_class ranges.now))) }
    ensures does { IfOk result (λ f. Does builder.old builder.new f.start f.end (char_class ranges.now)) }
    ensures weighs { IfOk result (λ f. TakesBytes builder.old builder.new f.end
        (scalar_bytes at_least ranges.now) (scalar_bytes (at_most how.shrink) ranges.now)) }
    ensures passed { IfErr result (λ e. ExceedsLimit builder.old (scalar_bytes (at_most how.shrink) ranges.now) e) }
    ensures groups { IfOk result (λ _. builder.new.groups ≡ builder.old.groups) }
    ensures refused { IfErr result (λ e. Quits builder.old builder.new (room how.shrink (char_class ranges.now)) e) }
{
    if is_ascii(ranges) {
        let ascii = compile_ascii(builder, alloc, ranges)?;
        return Ok(ascii);
    }
    let class = scalar_states(builder, alloc, how, shared, ranges)?;
    Ok(class)
}
